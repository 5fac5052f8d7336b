//! The digits at A combined with those at B, one by one from the right.

ghost use Rattle.std.specs.Prelude.{◌≡◌, ◌+◌, ◌-◌, ◌^◌, ◌<◌, ◌≤◌, ◌==◌, ◌%◌, ◌/◌, ℕ, false, length, nat_le, if◌then◌else◌};
ghost use Rattle.bcd.specs.declared.Zone.TheVariants.{Bare};
ghost use Rattle.core_store.specs.Storage.{put_codes};
ghost use Rattle.arith.specs.Decimal.{spelled};
ghost use Rattle.core_store.specs.Operands.{is_overlapping};
ghost use Rattle.arith.specs.Joining.{amount_of, total_of, joined_total, digit_from};

use crate::decimal::digit_at;
use crate::operands::Counts;
use addresses::digit_under;
use bcd::Zone;
use core_store::Core;

/// How the digits at A are combined with those at B.
#[derive(Clone, Copy, Debug, PartialEq, Eq)]
pub enum Joined {
    /// A and B.
    Sum,
    /// B and the complement of A.
    Difference,
    /// The complement of B alone.
    Complement,
    /// A alone.
    Copy,
}

/// The digit at an index from the right of the digits that end at a position, or 0 to the left of
/// them.
#[inline(always)]
fn digit_from<C: Core>(core: &C, position: u16, count: u16, place: u16) -> u8
    requires within { position < length (C.cells core.now) }
    requires from { count ≤ position + 1 }
    ensures digit { result ≡ digit_from (C.cells core.now) position count place }
    ensures below { result < 10 }
{
    if place < count {
        digit_at(core, position - place)
    } else {
        0
    }
}

/// The zone at an index from the right: only the units position has one.
#[inline(always)]
fn zone_from(zone: Zone, place: u16) -> Zone
    ensures { result ≡ (if place == 0 then zone else Bare) }
{
    if place == 0 { zone } else { Zone::Bare }
}

/// The last digit of a total of two digits and a carry.
#[inline(always)]
fn units_of(total: u8) -> u8
    requires { total ≤ 19 }
    ensures { result ≡ total % 10 }
{
    if total < 10 { total } else { total - 10 }
}

/// The carry of a total of two digits and a carry.
#[inline(always)]
fn carry_of(total: u8) -> u8
    requires { total ≤ 19 }
    ensures { result ≡ total / 10 }
{
    if total < 10 { 0 } else { 1 }
}

impl Joined {
    /// The total of a digit of A and one of B.
    #[inline(always)]
    fn amount(self, a: u8, b: u8) -> u8
        requires a { a < 10 }
        requires b { b < 10 }
        ensures amount { result ≡ amount_of self a b }
        ensures below { result ≤ 18 }
    {
        match self {
            Joined::Sum => a + b,
            Joined::Difference => (9 - a) + b,
            Joined::Complement => 9 - b,
            Joined::Copy => a,
        }
    }

    /// The carry into the lowest digit.
    #[inline(always)]
    fn carry(self) -> u8
        ensures carry { result ≡ total_of self 0 0 0 }
        ensures below { result ≤ 1 }
    {
        match self {
            Joined::Sum | Joined::Copy => 0,
            Joined::Difference | Joined::Complement => 1,
        }
    }
}

/// Combines the A digits with the B field from the right. Returns whether a carry is left.
pub fn join<C: Core>(
    core: &mut C,
    joined: Joined,
    a: u16,
    b: u16,
    counts: Counts,
    zone: Zone,
) -> bool
    requires a_in { a < length (C.cells core.old) }
    requires b_in { b < length (C.cells core.old) }
    requires a_from { counts.a ≤ a + 1 }
    requires b_from { counts.b ≤ b + 1 }
    requires cut { counts.a ≤ counts.b }
    requires apart { is_overlapping a b counts.a ≡ false }
    ensures codes { C.cells core.new ≡ put_codes (C.cells core.old) (b + 1 - counts.b)
        (spelled (joined_total joined (C.cells core.old) a counts.a b counts.b) counts.b zone) }
    ensures carry { result
        ≡ nat_le (10 ^ counts.b) (joined_total joined (C.cells core.old) a counts.a b counts.b) }
{
    let mut carry = joined.carry();
    for i in 0..counts.b {
        let digit_a = digit_from(core, a, counts.a, i);
        let digit_b = digit_at(core, b - i);
        let total = joined.amount(digit_a, digit_b) + carry;
        core.put(b - i, digit_under(zone_from(zone, i), units_of(total)));
        carry = carry_of(total);
    }
    carry > 0
}
