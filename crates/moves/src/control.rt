//! The characters of a control field, filled with data and blanked at once, as lanes.

ghost use Rattle.std.specs.{
  Prelude.{
    ◌≡◌,
    ◌+◌,
    ◌-◌,
    ◌<◌,
    ◌≤◌,
    ◌==◌,
    ℕ,
    All,
    true,
    drop,
    length,
    map,
    nat_le,
    slice_index,
    if◌then◌else◌,
  },
  Simd.Lanes.{sel_l, zip2},
};
ghost use Rattle.moves.specs.{
  Brought.{IsBrought},
  Characters.{from_right},
  Edited.{is_place, places_right, filled_code, filled, through_zero, edited},
};

use crate::blanking::Stop;
use crate::lanes::{blank_codes, equal};
use core_store::replace_lanes;
use std::simd::prelude::*;

/// The lanes from the second on, then the first lane of another vector.
const FROM_1: [usize; 16] = [1, 2, 3, 4, 5, 6, 7, 8, 9, 10, 11, 12, 13, 14, 15, 16];

/// The lanes from the third on, then two of another vector.
const FROM_2: [usize; 16] = [2, 3, 4, 5, 6, 7, 8, 9, 10, 11, 12, 13, 14, 15, 16, 17];

/// The lanes from the fifth on, then four of another vector.
const FROM_4: [usize; 16] = [4, 5, 6, 7, 8, 9, 10, 11, 12, 13, 14, 15, 16, 17, 18, 19];

/// The lanes from the ninth on, then eight of another vector.
const FROM_8: [usize; 16] = [8, 9, 10, 11, 12, 13, 14, 15, 16, 17, 18, 19, 20, 21, 22, 23];

/// The number of lanes to the right of each lane.
const LANES_RIGHT: [u8; 16] = [15, 14, 13, 12, 11, 10, 9, 8, 7, 6, 5, 4, 3, 2, 1, 0];

/// The lanes where the key is `value`, and those of others elsewhere.
#[inline(always)]
fn where_equal(keys: u8x16, value: u8, lanes: u8x16, others: u8x16) -> u8x16
    requires { length keys ≡ 16 }
    ensures { result ≡ sel_l (map (λ key. key == value) keys) lanes others }
{
    keys.simd_eq(u8x16::splat(value)).select(lanes, others)
}

/// The lanes where the key is `least` or more, and those of others elsewhere.
#[inline(always)]
fn where_from(keys: u8x16, least: u8, lanes: u8x16, others: u8x16) -> u8x16
    requires { length keys ≡ 16 }
    ensures { result ≡ sel_l (map (λ key. nat_le least key) keys) lanes others }
{
    keys.simd_ge(u8x16::splat(least)).select(lanes, others)
}

/// 1 for each digit place, 0 for every other character.
#[inline(always)]
fn place_bits(control: u8x16) -> u8x16
    requires sixteen { length control ≡ 16 }
    requires below { All (λ code. code < 64) control }
    ensures { result ≡ map (λ code. if is_place code then 1 else 0) control }
{
    where_equal(
        replace_lanes(control, 10, 0),
        0,
        u8x16::splat(1),
        u8x16::splat(0),
    )
}

/// The number of digit places to the right of each character. Each sum is of twice as many lanes as
/// the one before it.
#[inline(always)]
fn places_right(control: u8x16) -> u8x16
    requires sixteen { length control ≡ 16 }
    requires below { All (λ code. code < 64) control }
    ensures { result ≡ places_right control }
{
    let none = u8x16::splat(0);
    let ones = place_bits(control);
    let twos = ones + ones.shuffle(none, FROM_1);
    let fours = twos + twos.shuffle(none, FROM_2);
    let eights = fours + fours.shuffle(none, FROM_4);
    let sixteens = eights + eights.shuffle(none, FROM_8);
    sixteens.shuffle(none, FROM_1)
}

/// Whether every lane is below `limit`.
#[inline(always)]
fn are_below(lanes: u8x16, limit: u8) -> bool
    requires { length lanes ≡ 16 }
    ensures { result ≡ true → All (λ lane. lane < limit) lanes }
{
    lanes.simd_ge(u8x16::splat(limit)).to_bitmask() == 0
}

/// The lanes that stay where they are: those where `far` is 0. Each other lane is 0.
#[inline(always)]
fn bring_1(amount: u8x16, far: u8x16) -> u8x16
    requires sixteen { length amount ≡ 16 }
    requires sixteen_far { length far ≡ 16 }
    ensures { IsBrought 1 amount far result }
{
    where_equal(far, 0, amount, u8x16::splat(0))
}

/// For each lane the one that is `far` lanes to its right, if that is fewer than two.
#[inline(always)]
fn bring_2(amount: u8x16, far: u8x16) -> u8x16
    requires sixteen { length amount ≡ 16 }
    requires sixteen_far { length far ≡ 16 }
    requires bytes { All (λ lane. lane < 256) far }
    ensures { IsBrought 2 amount far result }
{
    let later = amount.shuffle(u8x16::splat(0), FROM_1);
    bring_1(amount, far) | bring_1(later, far - u8x16::splat(1))
}

/// For each lane the one that is `far` lanes to its right, if that is fewer than four.
#[inline(always)]
fn bring_4(amount: u8x16, far: u8x16) -> u8x16
    requires sixteen { length amount ≡ 16 }
    requires sixteen_far { length far ≡ 16 }
    requires bytes { All (λ lane. lane < 256) far }
    ensures { IsBrought 4 amount far result }
{
    let later = amount.shuffle(u8x16::splat(0), FROM_2);
    bring_2(amount, far) | bring_2(later, far - u8x16::splat(2))
}

/// For each lane the one that is `far` lanes to its right, if that is fewer than eight.
#[inline(always)]
fn bring_8(amount: u8x16, far: u8x16) -> u8x16
    requires sixteen { length amount ≡ 16 }
    requires sixteen_far { length far ≡ 16 }
    requires bytes { All (λ lane. lane < 256) far }
    ensures { IsBrought 8 amount far result }
{
    let later = amount.shuffle(u8x16::splat(0), FROM_4);
    bring_4(amount, far) | bring_4(later, far - u8x16::splat(4))
}

/// For each lane the one that is `far` lanes to its right. It is out of line, since most control
/// fields have few characters that are no digit places.
#[inline(never)]
fn bring_16(amount: u8x16, far: u8x16) -> u8x16
    requires sixteen { length amount ≡ 16 }
    requires sixteen_far { length far ≡ 16 }
    requires bytes { All (λ lane. lane < 256) far }
    ensures { IsBrought 16 amount far result }
{
    let later = amount.shuffle(u8x16::splat(0), FROM_8);
    bring_8(amount, far) | bring_8(later, far - u8x16::splat(8))
}

/// For each lane the one that is `far` lanes to its right, in as few steps as do.
#[inline(always)]
fn bring(amount: u8x16, far: u8x16) -> u8x16
    requires sixteen { length amount ≡ 16 }
    requires sixteen_far { length far ≡ 16 }
    requires below { All (λ lane. lane < 16) far }
    ensures { IsBrought 16 amount far result }
{
    if are_below(far, 4) {
        return bring_4(amount, far);
    }
    if are_below(far, 8) {
        return bring_8(amount, far);
    }
    bring_16(amount, far)
}

/// The data character that has as many others to its right as each lane of `places` says, or blank
/// to the left of the last `count`. No lane has more digit places than lanes to its right.
#[inline(always)]
fn bring_data(amount: u8x16, count: u16, places: u8x16) -> u8x16
    requires most { count ≤ 16 }
    requires sixteen { length amount ≡ 16 }
    requires sixteen_places { length places ≡ 16 }
    requires places { All (λ place. place < 16) places }
    requires right { (lane : ℕ) → lane < 16 → slice_index places lane + lane < 16 }
    ensures { result ≡ map (from_right (drop (16 - count) amount)) places }
{
    let none = u8x16::splat(0);
    let far = u8x16::from_array(LANES_RIGHT) - places;
    let brought = bring(amount, where_from(places, count as u8, none, far));
    where_from(places, count as u8, none, brought)
}

/// The characters, of which a sign is blank that no digit place is to the right of, unless the
/// amount is minus. `spaced` has all signs, `unsigned` none.
#[inline(always)]
fn fade_sign(spaced: u8x16, unsigned: u8x16, right: u8x16, minus: bool) -> u8x16
    requires sixteen { length spaced ≡ 16 }
    requires sixteen_unsigned { length unsigned ≡ 16 }
    requires sixteen_right { length right ≡ 16 }
    requires places { All (λ place. place < 16) right }
    ensures { result ≡ sel_l (map (λ key. key == (if minus then 16 else 0)) right) unsigned spaced }
{
    if minus {
        return spaced;
    }
    where_equal(right, 0, unsigned, spaced)
}

/// What is left of the control characters beside the data: a blank for each that is not kept, and
/// digit places as they are. `right` is the number of digit places to the right of each character,
/// `count` the number of data characters.
#[inline(always)]
fn keep_codes(control: u8x16, right: u8x16, count: u16, minus: bool) -> u8x16
    requires most { count ≤ 16 }
    requires sixteen { length control ≡ 16 }
    requires sixteen_right { length right ≡ 16 }
    requires below { All (λ code. code < 64) control }
    requires places { All (λ place. place < 16) right }
    ensures { result ≡ zip2 (λ place code. filled_code minus count place code code) right control }
{
    let spaced = replace_lanes(control, 48, 0);
    let unsigned = replace_lanes(replace_lanes(replace_lanes(spaced, 51, 0), 41, 0), 32, 0);
    let signed = fade_sign(spaced, unsigned, right, minus);
    where_from(right, count as u8, replace_lanes(signed, 27, 0), signed)
}

/// The control characters with the last `count` data characters in their digit places, and a blank
/// for each that is not kept.
#[inline(always)]
fn fill_codes(control: u8x16, amount: u8x16, count: u16, minus: bool) -> u8x16
    requires most { count ≤ 16 }
    requires sixteen { length control ≡ 16 }
    requires sixteen_amount { length amount ≡ 16 }
    requires below { All (λ code. code < 64) control }
    requires below_amount { All (λ code. code < 64) amount }
    ensures filled { result ≡ filled control (drop (16 - count) amount) minus }
    ensures sixteen { length result ≡ 16 }
    ensures below { All (λ code. code < 64) result }
{
    let right = places_right(control);
    let digits = bring_data(amount, count, right);
    let kept = keep_codes(control, right, count, minus);
    where_equal(replace_lanes(control, 10, 0), 0, digits, kept)
}

/// The number of the last `count` control characters up to the rightmost zero, or 0 without a zero.
#[inline(always)]
fn through_zero(control: u8x16, count: u16) -> u16
    requires most { count ≤ 16 }
    requires sixteen { length control ≡ 16 }
    requires below { All (λ code. code < 64) control }
    ensures through { result ≡ through_zero (drop (16 - count) control) }
    ensures limit { result ≤ count }
{
    let zeros = equal(control, 10) >> (16 - count);
    64 - zeros.leading_zeros() as u16
}

/// The last `count` control characters edited with the last `amount_count` data characters.
#[inline(always)]
pub fn edit_codes(
    control: u8x16,
    count: u16,
    amount: u8x16,
    amount_count: u16,
    minus: bool,
) -> u8x16
    requires most { count ≤ 16 }
    requires most_amount { amount_count ≤ 16 }
    requires sixteen { length control ≡ 16 }
    requires sixteen_amount { length amount ≡ 16 }
    requires below { All (λ code. code < 64) control }
    requires below_amount { All (λ code. code < 64) amount }
    ensures last { drop (16 - count) result
        ≡ edited (drop (16 - count) control) (drop (16 - amount_count) amount) minus }
    ensures sixteen { length result ≡ 16 }
    ensures below { All (λ code. code < 64) result }
{
    let filled = fill_codes(control, amount, amount_count, minus);
    let through = through_zero(control, count);
    blank_codes(filled, count, through, Stop::Digit)
}
