//! The numbers that addresses represent: a sheet of its own, without steps.

use crate::sheets::{Case, check, cut};
use crate::storage::{code, lay_places};
use addresses::{decode, indexed};
use bcd::Code;
use core_store::{Core, Size};
use std::alloc::{AllocError, Global};
use std::test::Fail;

/// The three characters of an address.
fn characters_of(address: &str) -> [Code; 3] {
    let mut codes = [Code::blank(); 3];
    for (character, glyph) in codes.iter_mut().zip(address.as_bytes()) {
        *character = code(*glyph);
    }
    codes
}

/// The number that an address represents, or why it represents none.
fn effective<C: Core>(alloc: Global, core: &C, address: &str) -> Result<String, AllocError> {
    let Some(tagged) = decode(characters_of(address)) else {
        return String::from_str(alloc, "no address");
    };
    match indexed(core, tagged) {
        Ok(number) => format!(in alloc; "{number}"),
        Err(check) => format!(in alloc; "check {}", check.name()),
    }
}

/// An address in a storage of 4000 positions. Input: its three characters, and the texts at some
/// places of the storage. Output: the number that it represents, the check if its index location
/// cannot be read, or that it is no address.
struct Addressed;

impl Case for Addressed {
    fn outcome<C: Core>(alloc: Global, given: &str) -> Result<String, Fail> {
        let (address, places) = cut(given, "|");
        let mut core = C::blank(alloc, Size::Positions4000)?;
        lay_places(&mut core, places);
        Ok(effective(alloc, &core, address)?)
    }
}

/// One address with a tag and different contents of its index location; then addresses without a
/// tag, for which the index locations do not matter; and characters that are not an address.
const NUMBERS: &str = "\
3J5|92 005 -> 320
3J5|92 0/5 -> 330
3J5|92 I9I -> 314
3J5|92 0#5 -> check ADDRESS
3J5|87 0#5|92 005|97 0#5 -> 320
I99|87 005|92 005|97 005 -> 3999
I99|87 0#5|92 0#5|97 0#5 -> 3999
00!|87 005|92 005|97 005 -> 8000
00!|87 0#5|92 0#5|97 0#5 -> 8000
I9I|87 005|92 005|97 005 -> 15999
I9I|87 0#5|92 0#5|97 0#5 -> 15999
3#5|92 005 -> no address
";

#[test]
fn numbers_of_addresses(rt: HostRuntime) -> Result<(), Fail> {
    check::<Addressed>(rt.alloc(), NUMBERS)
}
