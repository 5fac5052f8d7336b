//! Texts that people write and read: numbers, digests, names of jobs, sizes of storage and sense
//! switches.
//!
//! The contracts define, for each text, whether it spells a value, and which. [`read_up_to`] reads
//! bytes up to a limit, [`send`] writes those of a reply and returns how many went out. Memory is
//! taken by [`read_up_to`], and by the calls that add to a text ([`push_decimal`],
//! [`push_number_between`], [`push_digest`], [`push_made`], [`push_switches`]).
#![tactic(auto)]

mod digests;
mod made;
mod names;
mod numbers;
mod part_names;
mod reading;
mod sending;
mod sizes;
mod switches;

pub use digests::push_digest;
pub use made::{Made, push_made};
pub use names::{JobName, is_customer, is_number};
pub use numbers::{number_of, number_or_zero, number_up_to, push_decimal, push_number_between};
pub use part_names::{MOST_PARTS, part_name};
pub use reading::read_up_to;
pub use sending::{Sent, send};
pub use sizes::size_of;
pub use switches::{push_switches, switches_of};
