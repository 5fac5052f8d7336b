//! Arithmetic on fields of storage: add, subtract, zero and add, zero and subtract, compare and
//! modify address.
//!
//! Each operation works at registers A and B. The B field is the field at B; the A digits are the
//! cut at A to the length of the B field. The contract for the layers above: the effect on whole
//! fields, as numbers of any length (`specs/Sums.antt`), by ranks (`specs/Order.antt`), or as
//! addresses (`specs/Bases.antt`); or the first check that applies, and then nothing is changed.
//! Everything is generic over `Core`, and no call takes memory.
//!
//! Fields of at most sixteen characters that end at position 15 or later are compared all at once.
//! Numbers in such fields are copied so, and added so if their signs differ (`words`), or if they
//! have at most fifteen digits (`lanes`). All others go character by character.
#![tactic(auto)]

mod bases;
mod decimal;
mod joining;
mod lanes;
mod operands;
mod ranks;
mod sums;
mod words;
mod zeros;

pub use bases::{modify, modify_clear};
pub use decimal::spelled_is_read;
pub use operands::{Counts, counts_are_of_fields};
pub use ranks::{compare, compare_clear, order_is_by_the_first_difference};
pub use sums::{add, add_clear, subtract, subtract_clear};
pub use zeros::{zero_add, zero_add_clear, zero_subtract, zero_subtract_clear};
