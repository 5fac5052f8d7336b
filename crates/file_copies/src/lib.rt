//! New bureaus' files, which are made of others or of archived jobs; and looks into a file.
//!
//! [`look_into`] opens a file to look into its tables ([`Look`]), and leaves it as it was. [`copy`]
//! copies it, with its log, into one new file, which gets its name if a [`Comparison`] finds it the
//! same. [`part`] makes a new bureau's file of a part of it ([`Filling`]), [`join`] one of two files
//! ([`Joining`]), and [`restore`] one of jobs that are handed in ([`Restoring`]), each with a
//! comparison before the name.
#![tactic(auto)]

mod copying;
mod joining;
mod looking;
mod new_files;
mod parting;
mod restoring;

pub use copying::{Comparison, copy};
pub use joining::{Joining, join};
pub use looking::{Look, look_into};
pub use parting::{Filling, part};
pub use restoring::{NotRestored, Restoring, restore};
