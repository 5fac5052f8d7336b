//! The check of a bureau's file: each job is run again, and the rows of all tables are compared
//! with what it makes.
//!
//! [`each_job`] goes through the rows of `jobs`: it reads the other rows of one job ([`JobRows`]),
//! runs the job again, and has it taken exactly if its rows are those that it makes. [`check`]
//! makes a report of this, and compares the schema with that of a bureau without jobs.
//! [`report_text`] is what is printed of it (`specs/Texts.antt`). [`run_told`] runs a job again that is
//! told, and is in no rows.
//!
//! The contract for the layer above: a report tells no difference exactly where the tables stand
//! for an office whose jobs have names that jobs may have, and then it tells of each of its jobs
//! (`specs/Checks.antt`). Nothing is written: after a check a crash leaves nothing that it might
//! not have left before.
//!
//! Two laws say what the rules of a bureau's schema give of its rows: each row of the other tables
//! names a job ([`rows_name_jobs`]), and no two rows of `jobs` have the same customer and number
//! ([`jobs_have_names_of_their_own`]).
#![tactic(auto)]

mod again;
mod alike;
mod cells;
mod checks;
mod differences;
mod following;
mod job_rows;
mod jobs;
mod laws;
mod machines;
mod names;
mod parts;
mod reading;
mod report_lines;
mod reports;
mod runs;
mod schemas;
mod submitted;
mod told;
mod walks;
mod whole_tables;

pub use cells::{number_at, text_at, value_at};
pub use checks::check;
pub use differences::{Difference, Found, Place};
pub use job_rows::JobRows;
pub use laws::{jobs_have_names_of_their_own, rows_name_jobs};
pub use reading::hand_back;
pub use report_lines::{job_text, orphans_text, push_summary, report_text};
pub use reports::{JobReport, Orphan, Outcome, Report, Table};
pub use runs::JobRun;
pub use schemas::SchemaDifference;
pub use told::{ToldJob, run_told};
pub use walks::{EachJob, Walked, each_job};
pub use whole_tables::{read_jobs, read_version};
