//! The statements on the table of pockets.

ghost use Rattle.ledger_tables.specs.{
  Named.{of_job, HasNoPocket, with_pocket_of, ArePockets, HavePocketNumbers},
  Steps.{Changes, FailsOnly, Finds, IsOpenStep, IsStep},
};

use crate::faults::Fault;
use crate::open_tables::OpenTables;
use crate::rows::PocketRow;
use sqlite::{Alter, params};
use texts::JobName;

impl<S: Alter> OpenTables<'_, '_, S> {
    /// Inserts the pocket of the card at a place, which has no row yet. It fails if the job has no
    /// card at that place.
    pub fn insert_pocket(&mut self, name: JobName<'_>, place: u32, pocket: u32) -> Result<(), Fault>
        ensures step { IsStep S.Store self.old self.new result }
        ensures added { Changes S.Store self.old self.new result
            (HasNoPocket name.entry place) (with_pocket_of name.entry place pocket) }
    {
        self.run(
            "INSERT INTO pockets (customer, number, place, pocket) VALUES (?1, ?2, ?3, ?4)",
            params![name.customer, name.number, place, pocket],
        )
    }

    /// The rows of the pockets of a job's cards, in any order.
    pub fn find_pockets(&mut self, name: JobName<'_>) -> Result<Vec<PocketRow>, Fault>
        ensures step { IsOpenStep S.Store self.old self.new result }
        ensures found { Finds S.Store self.old self.new result
            (λ t found. ArePockets found.items (of_job name.entry t.pockets)) }
        ensures failed { FailsOnly S.Store self.old self.new result
            (λ t. HavePocketNumbers (of_job name.entry t.pockets)) }
    {
        self.all(
            "SELECT place, pocket FROM pockets WHERE customer = ?1 AND number = ?2",
            params![name.customer, name.number],
        )
    }
}
