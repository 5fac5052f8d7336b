//! Decimal numbers as characters of storage.

ghost use Rattle.std.specs.Prelude.{◌≡◌, ◌+◌, ◌<◌, ◌≤◌, ℕ, length};
ghost use Rattle.bcd.specs.declared.Zone.{Zone};
ghost use Rattle.core_store.specs.Storage.{code_at, codes_ending};
ghost use Rattle.arith.specs.Decimal.{is_number, spelled, digit_value, sign_zone, IsSpelled};

use bcd::Zone;
use core_store::Core;

/// The zone of a sum or a difference with this sign.
#[inline(always)]
pub fn sign_zone(minus: bool) -> Zone
    ensures { result ≡ sign_zone minus }
{
    if minus { Zone::B } else { Zone::AB }
}

/// Whether each of the characters that end at a position has a numeric value.
#[inline(always)]
pub fn is_number<C: Core>(core: &C, position: u16, count: u16) -> bool
    requires within { position < length (C.cells core.now) }
    requires from { count ≤ position + 1 }
    ensures { result ≡ is_number (codes_ending (C.cells core.now) position count) }
{
    for i in 0..count {
        if core.get(position - i).digit().is_none() {
            return false;
        }
    }
    true
}

/// The numeric value at a position, or 0 if the character has none.
#[inline(always)]
pub fn digit_at<C: Core>(core: &C, position: u16) -> u8
    requires { position < length (C.cells core.now) }
    ensures digit { result ≡ digit_value (code_at (C.cells core.now) position) }
    ensures below { result < 10 }
{
    core.get(position).digit().unwrap_or(0)
}

/// The law of spelled numbers: the digits spelled for a number are read as that number, as far as
/// they have room, and no position but the units has a zone.
pub fn spelled_is_read()
    ensures { (t k : ℕ) (zone : Zone) → IsSpelled t k zone (spelled t k zone) }
{}
