//! What the check tells.

ghost use Rattle.std.specs.Prelude.{◌≡◌, ◌↔◌, All, count_by, not, IsTrue};
ghost use Rattle.job_checks.specs.{
  Outcomes.{IsAsItRan, is_as_it_ran},
  Reports.{HasNoDifference, HasNoOtherRows},
  Texts.{table_words},
};

use crate::differences::Difference;
use crate::schemas::SchemaDifference;
use office::Summary;

/// A table of a bureau.
#[derive(Clone, Copy, Debug, PartialEq, Eq)]
pub enum Table {
    Bureau,
    Jobs,
    Stretches,
    States,
    Pages,
    Cards,
    Lines,
    Profiles,
    Pockets,
}

impl Table {
    /// The table's name.
    pub fn name(self) -> &'static str
        ensures { result.now ≡ table_words self }
    {
        match self {
            Table::Bureau => "bureau",
            Table::Jobs => "jobs",
            Table::Stretches => "stretches",
            Table::States => "states",
            Table::Pages => "pages",
            Table::Cards => "cards",
            Table::Lines => "lines",
            Table::Profiles => "profiles",
            Table::Pockets => "pockets",
        }
    }
}

/// The first row of a table that is not as it is to be, whatever the jobs: it names no job, or the
/// row of `bureau` does not have the version.
#[derive(Drop)]
pub struct Orphan {
    pub table: Table,
    /// Its place among the rows that were read, counted from 1.
    pub row: usize,
}

/// What came of a job that was run again.
#[derive(Drop)]
pub enum Outcome {
    /// Its rows are those that it makes.
    AsItRan(Summary),
    /// They are not.
    Differs(Difference),
}

/// What is told of a job.
#[derive(Drop)]
pub struct JobReport {
    /// The bytes of its customer's name.
    pub customer: Vec<u8>,
    pub number: i64,
    pub outcome: Outcome,
}

/// What is told of a bureau's file: how its schema differs from a bureau's, if it does, what came
/// of each row of `jobs`, in their order, and the first orphan row of each table.
#[derive(Drop)]
pub struct Report {
    pub schema: Option<SchemaDifference>,
    pub jobs: Vec<JobReport>,
    pub orphans: Vec<Orphan>,
}

impl Outcome {
    /// Whether the job is as it ran.
    fn is_as_it_ran(&self) -> bool
        ensures is { result ≡ is_as_it_ran self.now }
        ensures are { IsTrue result ↔ IsAsItRan self.now }
    {
        match self {
            Outcome::AsItRan(_) => true,
            Outcome::Differs(_) => false,
        }
    }
}

/// Whether each of these jobs is as it ran.
fn are_as_they_ran(jobs: &[JobReport]) -> bool
    ensures { IsTrue result ↔ All (λ it. IsAsItRan it.outcome) jobs.now }
{
    for job in jobs {
        if !job.outcome.is_as_it_ran() {
            return false;
        }
    }
    true
}

/// How many of these jobs are not as they ran.
fn count_differing(jobs: &[JobReport]) -> usize
    ensures { result ≡ count_by (λ it. not (is_as_it_ran it.outcome)) jobs.now }
{
    let mut count = 0;
    for job in jobs {
        if !job.outcome.is_as_it_ran() {
            count += 1;
        }
    }
    count
}

impl Report {
    /// How many jobs differ.
    pub fn differing(&self) -> usize
        ensures { result ≡ count_by (λ it. not (is_as_it_ran it.outcome)) self.now.jobs.items }
    {
        count_differing(&self.jobs)
    }

    /// Whether no row differs.
    fn has_no_other_rows(&self) -> bool
        ensures { IsTrue result ↔ HasNoOtherRows self.now }
    {
        self.orphans.is_empty() && are_as_they_ran(&self.jobs)
    }

    /// Whether nothing differs.
    pub fn has_no_difference(&self) -> bool
        ensures { IsTrue result ↔ HasNoDifference self.now }
    {
        self.schema.is_none() && self.has_no_other_rows()
    }
}
