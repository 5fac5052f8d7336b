//! The bureau: jobs that customers hand in, kept in tables, and commands on them.
//!
//! `office` defines jobs and the effect of commands on them. `reading` reads a job from the tables,
//! without its cards and lines, `summaries` without its machine, and `outputs` what it has made;
//! `saving` and `page_saving` write it, after a slice only where it is no longer as in
//! `earlier_machine`; all of them through `ledger_tables` and `ledger_rows`.
//! `submissions`, `job_commands`, `by_summary` and `lists` connect them to `office`. `bureau` puts
//! each command into one transaction, whose commit is the last call of the store. `shifts` applies
//! a list of commands up to the first fault. [`Work`] is any work with an open bureau. `migrating`
//! raises the tables of an earlier version.
//!
//! The contract for the layers above: if the tables represent an office, a reply is the one of
//! `office`, and the tables then represent its next office (`office_tables` has the definition); and
//! what a crash may leave at each exit: after a [`shift`], the office after a beginning of the
//! commands given that holds every acknowledged one, each job at a halt with the cards and lines of
//! one uninterrupted run in its rows ([`kept_offices_run_whole`]).
#![tactic(auto)]

mod bureau;
mod by_summary;
mod earlier_machine;
mod job_commands;
mod laws;
mod lists;
mod migrating;
mod outcomes;
mod outputs;
mod page_saving;
mod reading;
mod saving;
mod serving;
mod shifts;
mod submissions;
mod summaries;
mod working;

pub use bureau::Bureau;
pub use laws::{kept_offices_run_whole, tables_represent_one_office};
pub use ledger_tables::{Fault, OpenFault};
pub use migrating::migrate;
pub use outcomes::Shift;
pub use shifts::shift;
pub use working::Work;
