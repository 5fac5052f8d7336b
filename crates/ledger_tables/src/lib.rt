//! The tables of a bureau, and each statement on them.
//!
//! `specs/Tables.antt` defines the contents of the tables (`Tables`) and which databases hold
//! exactly these (`Holds`). Each statement is a method of `OpenTables`, inside a transaction that
//! its caller begins and ends. Its contract has two parts (`specs/Steps.antt`). First, a step stays
//! in the transaction, or leaves the commit below it, and adds nothing to what a crash may leave.
//! Second, the change of `Tables` that it makes, or what it reads of them without a change.
//! `find_version` checks whether the database is a bureau's at all, and of which version. The
//! tables of an earlier version are made this one's by the statements of `raising`.
#![tactic(auto)]

mod creates;
mod faults;
mod from_row;
mod inserts;
mod lists;
mod lookups;
mod open_tables;
mod openings;
mod pages;
mod pockets;
mod raising;
mod rows;
mod updates;

pub use faults::{Fault, fault_of};
pub use lists::lists_are_in_order;
pub use open_tables::OpenTables;
pub use openings::{OpenFault, VERSION};
pub use rows::{
    CardRow, JobRow, LineRow, LoadedRow, NameRow, PageRow, PocketRow, ProfileRow, ProgressRow,
    QueuedRow, StateRow, StorageRow, StretchRow,
};
