//! The characters of the digits.

ghost use Rattle.std.specs.Prelude.{◌≡◌, ◌<◌, ◌≤◌, ◌+◌, ◌*◌, ◌==◌, ℕ, Some, if◌then◌else◌};
ghost use Rattle.bcd.specs.Table.{digit_of, zone_of, zone_number};
ghost use Rattle.addresses.specs.Digits.{digit_under};

use bcd::{Code, Zone};

/// The numeric part of a digit: a 0 is part 10.
#[inline(always)]
fn part_of(digit: u8) -> u8
    requires { digit < 10 }
    ensures part { result ≡ (if digit == 0 then 10 else digit) }
    ensures most { result ≤ 10 }
{
    if digit == 0 { 10 } else { digit }
}

/// The character of a digit with a zone.
#[inline(always)]
pub fn digit_under(zone: Zone, digit: u8) -> Code
    requires { digit < 10 }
    ensures character { result ≡ digit_under zone digit }
    ensures value { digit_of result ≡ Some digit }
    ensures zone { zone_of result ≡ zone }
{
    Code::from_number(16 * zone.bits() + part_of(digit)).unwrap()
}
