//! Digits of at most sixteen characters, all at once.

ghost use Rattle.std.specs.{
  Prelude.{◌≡◌, ◌+◌, ◌-◌, ◌<◌, ◌≤◌, ◌%◌, ◌^◌, ◌++◌, All, bit_and, length, map, max, nat_lt, replicate, slice_index, take, drop, if◌then◌else◌, [], ◌∷◌, true},
  List.{list_any},
  Simd.Lanes.{sum_l, zip2},
};
ghost use Rattle.bcd.specs.Table.{zone_of};
ghost use Rattle.arith.specs.Columns.{characters, digit_of_part, number, sign_bits};

use core_store::{last_of, replace_lanes};
use std::simd::prelude::*;

/// The lanes from the second on, then the first lane of another vector.
const FROM_1: [usize; 16] = [1, 2, 3, 4, 5, 6, 7, 8, 9, 10, 11, 12, 13, 14, 15, 16];

/// Some bits of each lane.
#[inline(always)]
fn mask(lanes: u8x16, bits: u8) -> u8x16
    requires { length lanes ≡ 16 }
    ensures { result ≡ map (λ lane. bit_and lane bits) lanes }
{
    lanes & u8x16::splat(bits)
}

/// The numeric parts of the last `count` characters, after lanes of 0.
#[inline(always)]
pub fn parts(codes: u8x16, count: u16) -> u8x16
    requires most { count ≤ 16 }
    requires sixteen { length codes ≡ 16 }
    ensures { result ≡ replicate (16 - count) 0
        ++ map (λ code. code % 16) (drop (16 - count) codes) }
{
    last_of(count, mask(codes, 15), u8x16::splat(0))
}

/// The greater of the two lanes at each place.
#[inline(always)]
pub fn greater(a: u8x16, b: u8x16) -> u8x16
    ensures { result ≡ zip2 max a b }
{
    a.simd_max(b)
}

/// Whether a lane is more than `most`.
#[inline(always)]
pub fn is_over(lanes: u8x16, most: u8) -> bool
    requires { length lanes ≡ 16 }
    ensures { result ≡ list_any (λ lane. nat_lt most lane) lanes }
{
    lanes.simd_gt(u8x16::splat(most)).to_bitmask() != 0
}

/// The digits of numeric parts: part 10 is the digit 0.
#[inline(always)]
pub fn digits(parts: u8x16) -> u8x16
    requires { length parts ≡ 16 }
    ensures { result ≡ map digit_of_part parts }
{
    replace_lanes(parts, 10, 0)
}

/// The sum of the two lanes at each place.
#[inline(always)]
pub fn totals(a: u8x16, b: u8x16) -> u8x16
    requires a { All (λ lane. lane < 128) a }
    requires b { All (λ lane. lane < 128) b }
    ensures { result ≡ zip2 (λ x y. x + y) a b }
{
    a + b
}

/// The characters of the last `count` digits, after the first of the old characters. The last has
/// the zone of the last old character.
#[inline(always)]
pub fn write_digits(digits: u8x16, old: u8x16, count: u16) -> u8x16
    requires some { 1 ≤ count }
    requires most { count ≤ 16 }
    requires sixteen { length digits ≡ 16 }
    requires sixteen_old { length old ≡ 16 }
    requires digits { All (λ digit. digit < 10) digits }
    requires codes { All (λ code. code < 64) old }
    ensures codes { result ≡ take (16 - count) old
        ++ characters (zone_of (slice_index old 15)) (drop (16 - count) digits) }
    ensures sixteen { length result ≡ 16 }
    ensures below { All (λ code. code < 64) result }
{
    let zone = last_of(1, mask(old, 48), u8x16::splat(0));
    last_of(count, totals(replace_lanes(digits, 0, 10), zone), old)
}

/// The bits of a sign in a character.
#[inline(always)]
fn sign_bits(minus: bool) -> u8
    ensures bits { result ≡ sign_bits minus }
    ensures below { result < 64 }
{
    if minus { 32 } else { 48 }
}

/// The old characters, of which the last has only a sign.
#[inline(always)]
pub fn signed(old: u8x16, minus: bool) -> u8x16
    requires sixteen { length old ≡ 16 }
    requires codes { All (λ code. code < 64) old }
    ensures codes { result ≡ take 15 old ++ sign_bits minus ∷ [] }
    ensures sixteen { length result ≡ 16 }
    ensures below { All (λ code. code < 64) result }
{
    last_of(1, u8x16::splat(sign_bits(minus)), old)
}

/// The carries of digits that may be more than 9: 1 from each of them, and 0 from the others.
#[inline(always)]
fn carries(sums: u8x16) -> u8x16
    requires { length sums ≡ 16 }
    ensures { result ≡ map (λ sum. if nat_lt 9 sum then 1 else 0) sums }
{
    sums.simd_gt(u8x16::splat(9))
        .select(u8x16::splat(1), u8x16::splat(0))
}

/// The same digits without their carries.
#[inline(always)]
fn units(sums: u8x16) -> u8x16
    requires sixteen { length sums ≡ 16 }
    requires most { All (λ sum. sum ≤ 18) sums }
    ensures { result ≡ map (λ sum. if nat_lt 9 sum then sum - 10 else sum) sums }
{
    sums.simd_min(sums - u8x16::splat(10))
}

/// Each lane at the place before its own, and 0 at the last place.
#[inline(always)]
fn one_left(lanes: u8x16) -> u8x16
    requires { length lanes ≡ 16 }
    ensures { result ≡ drop 1 lanes ++ 0 ∷ [] }
{
    lanes.shuffle(u8x16::splat(0), FROM_1)
}

/// The digits of the same number after each carry has gone to the digit before its own.
#[inline(always)]
fn carry_once(sums: u8x16) -> u8x16
    requires sixteen { length sums ≡ 16 }
    requires most { All (λ sum. sum ≤ 18) sums }
    requires room { number sums < 10 ^ 16 }
    ensures number { number result ≡ number sums }
    ensures sixteen { length result ≡ 16 }
    ensures most { All (λ sum. sum ≤ 18) result }
    ensures fewer { list_any (λ sum. nat_lt 9 sum) sums ≡ true → sum_l result < sum_l sums }
{
    totals(units(sums), one_left(carries(sums)))
}

/// The digits of the same number, each carry added to the digits before it.
#[inline(never)]
fn carry(sums: u8x16) -> u8x16
    requires sixteen { length sums ≡ 16 }
    requires most { All (λ sum. sum ≤ 18) sums }
    requires room { number sums < 10 ^ 16 }
    ensures number { number result ≡ number sums }
    ensures digits { All (λ digit. digit < 10) result }
    ensures sixteen { length result ≡ 16 }
{
    let mut sums = sums;
    while is_over(sums, 9) {
        sums = carry_once(sums);
    }
    sums
}

/// The digits of the sum of two numbers, which are given by their numeric parts.
#[inline(always)]
pub fn sum(a: u8x16, b: u8x16) -> u8x16
    requires a { length a ≡ 16 }
    requires b { length b ≡ 16 }
    requires a_digits { All (λ part. part ≤ 10) a }
    requires b_digits { All (λ part. part ≤ 10) b }
    requires room { number (map digit_of_part a) + number (map digit_of_part b) < 10 ^ 16 }
    ensures number { number result
        ≡ number (map digit_of_part a) + number (map digit_of_part b) }
    ensures digits { All (λ digit. digit < 10) result }
    ensures sixteen { length result ≡ 16 }
{
    let sums = totals(digits(a), digits(b));
    if is_over(sums, 9) { carry(sums) } else { sums }
}
