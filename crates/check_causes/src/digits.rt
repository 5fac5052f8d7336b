//! The characters that arithmetic reads.

ghost use Rattle.std.specs.Prelude.{◌≡◌, ◌+◌, ◌-◌, ◌<◌, ◌≤◌, ℕ, length, is_some, if◌then◌else◌, Some, IfSome};
ghost use Rattle.core_store.specs.Storage.{code_at, largest_size};
ghost use Rattle.bcd.specs.Table.{digit_of};
ghost use Rattle.check_causes.specs.Fields.{first_without_digit, digits_told, number_told};

use crate::causes::Cause;
use crate::words::sign;
use addresses::base_ending;
use bcd::Code;
use core_store::Core;

/// The position of a character that has no digit, else the one that was found before.
fn leftmost(code: Code, place: u16, found: Option<u16>) -> Option<u16>
    ensures { result ≡ (if is_some (digit_of code) then found else Some place) }
{
    if code.digit().is_some() {
        found
    } else {
        Some(place)
    }
}

/// The leftmost of the `count` positions up to one whose character has no digit, if there is one.
#[tactic(auto, using(crate::proofs::DigitLemmas::none_first, crate::proofs::DigitLemmas::next_first))]
fn first_without_digit<C: Core>(core: &C, position: u16, count: u16) -> Option<u16>
    requires within { position < length (C.cells core.now) }
    requires below { position < largest_size }
    requires room { count ≤ position + 1 }
    ensures first { result ≡ first_without_digit (C.cells core.now) position count }
    ensures inside { IfSome result (λ found. found ≤ position) }
{
    let mut found = None;
    for place in 0..count {
        found = leftmost(core.get(position - place), position - place, found);
    }
    found
}

/// Whether each of the `count` characters up to a position has a digit.
#[tactic(auto, unfolding(crate::specs::Fields::digits_told, crate::specs::Fields::digit_told))]
pub(crate) fn test_digits<C: Core>(core: &C, position: u16, count: u16) -> Result<(), Cause>
    requires within { position < length (C.cells core.now) }
    requires below { position < largest_size }
    requires room { count ≤ position + 1 }
    ensures { result ≡ digits_told (C.cells core.now) position count }
{
    match first_without_digit(core, position, count) {
        None => Ok(()),
        Some(place) => Err(Cause::NoDigit(sign(core.get(place)), place)),
    }
}

/// Whether the three characters up to a position are an address.
#[tactic(auto, unfolding(crate::specs::Fields::number_told))]
pub(crate) fn test_number<C: Core>(core: &C, position: u16) -> Result<(), Cause>
    requires within { position < length (C.cells core.now) }
    requires from { 2 ≤ position }
    ensures { result ≡ number_told (C.cells core.now) position }
{
    match base_ending(core, position) {
        Some(_) => Ok(()),
        None => Err(Cause::NoNumber(position)),
    }
}
