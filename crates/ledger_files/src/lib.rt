//! A bureau's file: opened, and opened again after a stop.
//!
//! [`open_from`] opens the file at a path as a bureau. What it returns, also if it fails,
//! represents the office whose files it found. [`open_and_work`] then does work with the bureau
//! ([`ledger::Work`]): commands that are carried out and replied to. [`finish`] ends it: it closes the
//! file, which alone is then the bureau ([`close`]), unless the bureau is broken.
//!
//! [`with_bureau`] is what a program calls: it finds the file, opens it, works and ends, and its
//! contract is a whole round, whatever its end is ([`Closed`], [`Unfinished`]). Any number of such
//! rounds make the chain of the theorem of stops. [`init`] makes the first file. [`stop`] returns
//! the store as a crash at that moment leaves it.
//!
//! [`migrate`] raises the file at a path to this program's version. [`migrate_from`] opens it and
//! raises its tables; its connection is then closed ([`close_migrated`], by [`close_connection`]),
//! or everything stops ([`leave`]). The files are then of the same office as before, in the version
//! that they had or in this program's.
#![tactic(auto)]

mod closed;
mod closing;
mod copy_faults;
mod hindrances;
mod kept;
mod making;
mod migrating;
mod opening;
mod places;
mod rounds;
mod sources;
mod unfinished;
mod working;

pub use closed::Closed;
pub use closing::{close, close_connection};
pub use copy_faults::CopyFault;
pub use hindrances::{Hindrance, find_hindrance};
pub use kept::Kept;
pub use making::{init, is_place_free, open_new};
pub use migrating::{Migrated, close_migrated, migrate, migrate_from};
pub use opening::{open_connection, open_from};
pub use places::{NEW_FILE_MODE, Part, Place, are_one_file, copy_bytes, sync, sync_folder_of};
pub use rounds::{finish, leave, open_and_work, stop};
pub use sources::{Source, find_fault};
pub use unfinished::Unfinished;
pub use working::with_bureau;
