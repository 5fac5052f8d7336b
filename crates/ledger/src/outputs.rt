//! What a job has made, read from its rows without its machine.

ghost use Rattle.std.specs.Prelude.{◌≡◌, ◌≢◌, List, All, map, length, IfOk, IsErrOf};
ghost use Rattle.office.specs.{Jobs.{Job as KnownJob}, declared.commands.JobCommand.{JobCommand}};
ghost use Rattle.units.specs.{
  Ranges.{HasPrinted},
  declared.printer.Line.{Line},
  declared.punch.Punched.{Punched},
};
ghost use Rattle.ledger_rows.specs.{
  Columns.{line_cells, IsLine},
  Pockets.{pocket_rows_of, punched_bytes, IsPunched},
};
ghost use Rattle.ledger_tables.specs.{Named.{ArePockets}, Steps.{IsOpenStep}};
ghost use Rattle.ledger.specs.{
  Found.{HasCards, HasCarriageAt, HasLines, printed_with},
  Saving.{job_in},
  Serving.{with_commanded},
  Steps.{FindsIn, FailsAlone, FailsWith, Serves},
};

use crate::reading::{stored, told};
use crate::summaries::find_progress;
use ledger_rows::{read_carriage, read_punched, read_rows};
use ledger_tables::{CardRow, Fault, LineRow, OpenTables, PocketRow};
use office::{JobCommand, Listing, Refusal, Reply, Stacker, cards_from, commands_keep_jobs};
use sqlite::Alter;
use std::alloc::Global;
use texts::JobName;
use units::{Carriage, Line, Printer, Punched};

/// The cards of these rows in their pockets, if there are so many.
fn read_cards(
    alloc: Global,
    rows: &[CardRow],
    pockets: &[PocketRow],
    count: u32,
) -> Result<Vec<Punched>, Fault>
    ensures cards { IfOk result (λ found. (cards : List Punched) → All IsPunched cards
        → rows.now ≡ map punched_bytes cards → ArePockets pockets.now (pocket_rows_of cards)
        → found.items ≡ cards) }
    ensures counted { IfOk result (λ found. length found.items ≡ count) }
    ensures store { IsErrOf result Fault.Store → (cards : List Punched) → All IsPunched cards
        → rows.now ≡ map punched_bytes cards → ArePockets pockets.now (pocket_rows_of cards)
        → length cards ≢ count }
{
    let cards = told(read_punched(alloc, rows, pockets))?;
    if cards.len() != count as usize {
        return Err(Fault::Store);
    }
    Ok(cards)
}

/// Finds the cards that the job of this name has punched, as many as its state counts, each with
/// its pocket.
fn find_cards<S: Alter>(
    tables: &mut OpenTables<'_, '_, S>,
    name: JobName<'_>,
) -> Result<Vec<Punched>, Fault>
    ensures step { IsOpenStep S.Store tables.old tables.new result }
    ensures found { FindsIn S.Store tables.old tables.new result
        (λ office found. HasCards (job_in name.entry office) found.items) }
    ensures failed { (job : KnownJob)
        → FailsWith S.Store tables.old tables.new result name.entry job }
{
    // A law, for the proof: it does nothing.
    commands_keep_jobs();
    let progress = find_progress(tables, name)?;
    let rows = tables.find_cards(name)?;
    let pockets = tables.find_pockets(name)?;
    read_cards(
        tables.alloc,
        rows.as_slice(),
        pockets.as_slice(),
        progress.cards,
    )
}

/// Finds the carriage of the machine of the job of this name.
fn find_carriage<S: Alter>(
    tables: &mut OpenTables<'_, '_, S>,
    name: JobName<'_>,
) -> Result<Carriage, Fault>
    ensures step { IsOpenStep S.Store tables.old tables.new result }
    ensures found { FindsIn S.Store tables.old tables.new result
        (λ office found. HasCarriageAt (job_in name.entry office) found) }
    ensures failed { (job : KnownJob)
        → FailsWith S.Store tables.old tables.new result name.entry job }
{
    // A law, for the proof: it does nothing.
    commands_keep_jobs();
    let found = tables.find_state(name)?;
    let row = stored(found)?;
    stored(read_carriage(row))
}

/// The lines of these rows, if there are so many, each is further down than the one before, and the
/// carriage is further down than all of them.
fn read_lines(
    alloc: Global,
    rows: &[LineRow],
    count: u32,
    carriage: Carriage,
) -> Result<Vec<Line>, Fault>
    ensures lines { IfOk result (λ found. (lines : List Line) → All IsLine lines
        → rows.now ≡ map line_cells lines → found.items ≡ lines) }
    ensures counted { IfOk result (λ found. length found.items ≡ count) }
    ensures places { IfOk result (λ found. HasPrinted 0 (printed_with carriage found.items)) }
    ensures store { IsErrOf result Fault.Store → (lines : List Line) → All IsLine lines
        → rows.now ≡ map line_cells lines → HasPrinted 0 (printed_with carriage lines)
        → length lines ≢ count }
{
    let lines: Vec<Line> = told(read_rows(alloc, rows))?;
    let printer = Printer { lines, carriage };
    if printer.lines.len() != count as usize {
        return Err(Fault::Store);
    }
    if !printer.is_in_range(0) {
        return Err(Fault::Store);
    }
    Ok(printer.lines)
}

/// Finds the lines that the job of this name has printed, as many as its state counts.
fn find_lines<S: Alter>(
    tables: &mut OpenTables<'_, '_, S>,
    name: JobName<'_>,
) -> Result<Vec<Line>, Fault>
    ensures step { IsOpenStep S.Store tables.old tables.new result }
    ensures found { FindsIn S.Store tables.old tables.new result
        (λ office found. HasLines (job_in name.entry office) found.items) }
    ensures failed { (job : KnownJob)
        → FailsWith S.Store tables.old tables.new result name.entry job }
{
    // A law, for the proof: it does nothing.
    commands_keep_jobs();
    let progress = find_progress(tables, name)?;
    let carriage = find_carriage(tables, name)?;
    let rows = tables.find_lines(name)?;
    read_lines(tables.alloc, rows.as_slice(), progress.lines, carriage)
}

/// Replies the cards of the job of this name that are asked for.
pub fn tell_cards<S: Alter>(
    tables: &mut OpenTables<'_, '_, S>,
    name: JobName<'_>,
    from: Stacker,
) -> Result<Reply, Fault>
    ensures step { IsOpenStep S.Store tables.old tables.new result }
    ensures done { Serves S.Store tables.old tables.new result
        (with_commanded name.entry (JobCommand.Cards from)) }
    ensures failed { FailsAlone S.Store tables.old tables.new result }
{
    let Some(_row) = tables.find_loaded(name)? else {
        return Ok(Reply::Refused(Refusal::NoJob));
    };
    let punched = find_cards(tables, name)?;
    let cards = cards_from(tables.alloc, from, &punched)?;
    Ok(Reply::Cards(cards))
}

/// Replies the lines of the job of this name.
pub fn tell_lines<S: Alter>(
    tables: &mut OpenTables<'_, '_, S>,
    name: JobName<'_>,
) -> Result<Reply, Fault>
    ensures step { IsOpenStep S.Store tables.old tables.new result }
    ensures done { Serves S.Store tables.old tables.new result
        (with_commanded name.entry JobCommand.Lines) }
    ensures failed { FailsAlone S.Store tables.old tables.new result }
{
    let Some(_row) = tables.find_loaded(name)? else {
        return Ok(Reply::Refused(Refusal::NoJob));
    };
    let lines = find_lines(tables, name)?;
    Ok(Reply::Lines(Listing(lines)))
}
