//! Addresses: three characters that name a position, and optionally an index location.
//!
//! An address has a base and a tag. The base, 0 to 15999, is spelled by the three digits and by the
//! zones of the first and the third. The tag is the zone of the second: it names one of three
//! places in storage, the index locations, and the number spelled there is added, modulo 16000. The
//! contract for the layers above: the number that an address represents (`specs/Addresses.antt` and
//! `specs/Effective.antt`), and that what `encode` writes is read as the same number. No call takes
//! memory.
#![tactic(auto)]

mod digits;
mod effective;
mod stored;
mod tables;
mod tagged;
mod written;

pub use digits::digit_under;
pub use effective::{base_ending, indexed, position};
pub use stored::{has_three, put_three, store};
pub use tagged::{IndexLocation, Tagged, decode};
pub use written::{encode, encode_tagged, written_is_read};
