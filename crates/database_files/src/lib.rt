//! The files of a database: its file and the write-ahead log next to it.
//!
//! [`connect`] opens the files at a path as a database, unless the log is damaged: then nothing is
//! written. [`find_damage`] tells a log that was damaged from one that was not written to its end,
//! and says what is damaged ([`Damage`]); [`DamagedLog`] keeps it. No stop of the program damages a
//! log ([`stops_damage_no_log`]). [`is_torn`] says whether the last commit of a log is incomplete.
//! An open that fails may have written to the log: [`Undoing`] says what undoes it, and
//! [`is_headless`] whether nothing could.
//!
//! Nothing here depends on the tables of the database.
#![tactic(auto)]

mod connecting;
mod damage;
mod damaged_log;
mod laws;
mod undoing;

pub use connecting::connect;
pub use damage::{Damage, find_damage, is_torn};
pub use damaged_log::DamagedLog;
pub use laws::stops_damage_no_log;
pub use undoing::{Undoing, is_headless};
