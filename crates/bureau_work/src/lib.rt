//! The work of the program `bureau` with an open bureau, over any store.
//!
//! A script ([`ApplyWork`]), requests over HTTP ([`ServeWork`]) and an export of what a job has made
//! ([`ExportWork`]) are each a [`ledger::Work`]: commands that are carried out and replied to. The
//! requests are those of [`Clients`], which may be any that come one after the other; the program's
//! are those of a [`Port`].
//! Each ends in an [`Outcome`], which decides the line on the standard error ([`show_outcome`]) and
//! the exit status. The program opens the file before the work, and closes it after the work.
#![tactic(auto)]

mod clients;
mod exporting;
mod outcomes;
mod ports;
mod scripting;
mod serving;

pub use clients::{Clients, Visit};
pub use exporting::ExportWork;
pub use outcomes::{Outcome, show_outcome};
pub use ports::Port;
pub use scripting::ApplyWork;
pub use serving::ServeWork;
