//! Sixteen digits as one number, of which a difference is taken at once.

ghost use Rattle.std.specs.{Prelude.{◌≡◌, ◌<◌, ◌≤◌, All, length, map, nat_lt}, Int.{abs_diff}};
ghost use Rattle.arith.specs.{
  Columns.{digit_of_part, number},
  Words.{bytes_of, digit_of_byte, word_of},
};

use crate::lanes::digits;
use std::simd::prelude::*;

/// The number of values of half a word.
const HALF: u128 = 0x1_0000_0000_0000_0000;

/// Sixteen digits as one number in base 256.
#[inline(always)]
fn word(digits: u8x16) -> u128
    requires sixteen { length digits ≡ 16 }
    requires digits { All (λ digit. digit < 10) digits }
    ensures { result ≡ word_of digits }
{
    let halves = u64x2::from_le_bytes(digits).to_array();
    halves[0].swap_bytes() as u128 * HALF + halves[1].swap_bytes() as u128
}

/// The sixteen digits of a number in base 256.
#[inline(always)]
fn bytes(word: u128) -> u8x16
    ensures { result ≡ bytes_of word }
{
    let (high, low) = ((word / HALF) as u64, (word % HALF) as u64);
    u64x2::from_array([high.swap_bytes(), low.swap_bytes()]).to_le_bytes()
}

/// The digits of a difference that was taken in base 256.
#[inline(always)]
fn settle(bytes: u8x16) -> u8x16
    requires { length bytes ≡ 16 }
    ensures { result ≡ map digit_of_byte bytes }
{
    bytes.simd_min(bytes + u8x16::splat(10))
}

/// The digits of the difference of two numbers, which are given by their numeric parts, and whether
/// the first is greater. It is out of line, so that sums under the same sign stay small.
#[inline(never)]
pub fn difference(a: u8x16, b: u8x16) -> (u8x16, bool)
    requires a { length a ≡ 16 }
    requires b { length b ≡ 16 }
    requires a_digits { All (λ part. part ≤ 10) a }
    requires b_digits { All (λ part. part ≤ 10) b }
    ensures number { number result.0
        ≡ abs_diff (number (map digit_of_part a)) (number (map digit_of_part b)) }
    ensures digits { All (λ digit. digit < 10) result.0 }
    ensures sixteen { length result.0 ≡ 16 }
    ensures greater { result.1
        ≡ nat_lt (number (map digit_of_part b)) (number (map digit_of_part a)) }
{
    let word_a = word(digits(a));
    let word_b = word(digits(b));
    (settle(bytes(word_a.abs_diff(word_b))), word_b < word_a)
}
