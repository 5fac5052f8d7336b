//! Numbers written as addresses.

ghost use Rattle.std.specs.Prelude.{◌≡◌, ◌<◌, ◌≤◌, ◌/◌, ◌%◌, ℕ, Some, None};
ghost use Rattle.core_store.specs.Storage.{largest_size};
ghost use Rattle.bcd.specs.declared.Zone.{Zone};
ghost use Rattle.addresses.specs.Addresses.{zone_numbered, written, encoded, decoded, location_of};

use crate::digits::digit_under;
use bcd::{Code, Zone};

/// The zone with this number, 0 to 3.
#[inline(always)]
fn zone_numbered(number: u16) -> Zone
    ensures { result ≡ zone_numbered number }
{
    match number {
        0 => Zone::Bare,
        1 => Zone::A,
        2 => Zone::B,
        _ => Zone::AB,
    }
}

/// The address of a number, with a zone as its tag.
#[tactic(auto, unfolding(crate::specs::Addresses::written))]
pub fn encode_tagged(number: u16, tag: Zone) -> [Code; 3]
    requires { number < largest_size }
    ensures { result ≡ written tag number }
{
    [
        digit_under(zone_numbered(number / 1000 % 4), (number / 100 % 10) as u8),
        digit_under(tag, (number / 10 % 10) as u8),
        digit_under(zone_numbered(number / 4000), (number % 10) as u8),
    ]
}

/// The address of a number, without a tag.
pub fn encode(number: u16) -> [Code; 3]
    requires { number < largest_size }
    ensures { result ≡ encoded number }
{
    encode_tagged(number, Zone::Bare)
}

/// The law of addresses: a number that was written is read as the same number, and its tag as the
/// same tag.
pub fn written_is_read()
    ensures read { (n : ℕ) → n < largest_size →
        decoded (encoded n) ≡ Some (record { base = n; index = None }) }
    ensures with_tag { (n : ℕ) → n < largest_size → (tag : Zone) →
        decoded (written tag n) ≡ Some (record { base = n; index = location_of tag }) }
{}
