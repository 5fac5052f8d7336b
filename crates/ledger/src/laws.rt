//! The laws of tables and of kept offices.

ghost use Rattle.std.specs.Prelude.{◌≡◌};
ghost use Rattle.office.specs.Office.{Office};
ghost use Rattle.sqlite.specs.Effect.{Database};
ghost use Rattle.ledger.specs.{Standing.{Rows}, WholeRows.{HaveWholeRows}};

use office::offices_run_whole;

/// The law of tables: they represent at most one office. Hence what a crash leaves opens as one
/// office and no other.
pub fn tables_represent_one_office()
    ensures { (db : Database) (first second : Office) → Rows db first → Rows db second
        → first ≡ second }
{}

/// The law of kept offices: each job at a halt has in its rows the cards and lines of one
/// uninterrupted run over its whole deck with its starts, and no others.
pub fn kept_offices_run_whole()
    ensures { (db : Database) (office : Office) → Rows db office → HaveWholeRows db office }
{
    offices_run_whole();
}
