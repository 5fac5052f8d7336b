//! At most sixteen characters at once, as lanes.

ghost use Rattle.std.specs.{
  Prelude.{◌≡◌, ◌-◌, ◌<◌, ◌≤◌, ◌==◌, All, drop, length, map, min},
  Simd.Lanes.{mask_l},
};
ghost use Rattle.moves.specs.{
  Blanked.{ends, leading, faded, blanked},
  Characters.{bare_units},
  Edited.{places},
  declared.blanking.Stop.TheVariants.{Other, Digit},
};

use crate::blanking::Stop;
use core_store::{last_of, replace_lanes};
use std::simd::prelude::*;

/// Which lanes have a value: bit 0 for the first.
#[inline(always)]
pub fn equal(lanes: u8x16, value: u8) -> u64
    requires { length lanes ≡ 16 }
    ensures { result ≡ mask_l (map (λ lane. lane == value) lanes) }
{
    lanes.simd_eq(u8x16::splat(value)).to_bitmask()
}

/// The number of digit places among the last `count` characters.
#[inline(always)]
pub fn places(codes: u8x16, count: u16) -> u16
    requires most { count ≤ 16 }
    requires sixteen { length codes ≡ 16 }
    requires below { All (λ code. code < 64) codes }
    ensures places { result ≡ places (drop (16 - count) codes) }
    ensures limit { result ≤ count }
{
    let places = equal(replace_lanes(codes, 10, 0), 0) >> (16 - count);
    places.count_ones() as u16
}

/// The characters with the zone of the last one taken away.
#[inline(always)]
pub fn bare_units(codes: u8x16) -> u8x16
    requires sixteen { length codes ≡ 16 }
    requires below { All (λ code. code < 64) codes }
    ensures bare { result ≡ bare_units codes }
    ensures sixteen { length result ≡ 16 }
    ensures below { All (λ code. code < 64) result }
{
    codes
        & u8x16::from_array([
            63, 63, 63, 63, 63, 63, 63, 63, 63, 63, 63, 63, 63, 63, 63, 15,
        ])
}

/// The characters with a blank for each zero and comma.
#[inline(always)]
#[tactic(auto, using(crate::proofs::LaneBlanks::lanes_faded))]
fn fade_codes(codes: u8x16) -> u8x16
    requires sixteen { length codes ≡ 16 }
    requires below { All (λ code. code < 64) codes }
    ensures { result ≡ map faded codes }
{
    replace_lanes(replace_lanes(codes, 10, 0), 27, 0)
}

/// Which characters are none of zero, blank and comma: bit 0 for the first.
#[inline(always)]
fn others(codes: u8x16) -> u64
    requires sixteen { length codes ≡ 16 }
    requires below { All (λ code. code < 64) codes }
    ensures { result ≡ mask_l (map (ends Other) codes) }
{
    fade_codes(codes).simd_ne(u8x16::splat(0)).to_bitmask()
}

/// Which characters are a digit from 1 to 9: bit 0 for the first.
#[inline(always)]
fn digits(codes: u8x16) -> u64
    requires sixteen { length codes ≡ 16 }
    requires below { All (λ code. code < 64) codes }
    ensures { result ≡ mask_l (map (ends Digit) codes) }
{
    (codes - u8x16::splat(1))
        .simd_lt(u8x16::splat(9))
        .to_bitmask()
}

/// Which characters are a stop: bit 0 for the first.
#[inline(always)]
fn stops(codes: u8x16, stop: Stop) -> u64
    requires sixteen { length codes ≡ 16 }
    requires below { All (λ code. code < 64) codes }
    ensures { result ≡ mask_l (map (ends stop) codes) }
{
    match stop {
        Stop::Other => others(codes),
        Stop::Digit => digits(codes),
    }
}

/// The characters with a blank for each zero and comma from the left of the last `count`, among the
/// first `limit` of these, up to a stop.
#[inline(always)]
pub fn blank_codes(codes: u8x16, count: u16, limit: u16, stop: Stop) -> u8x16
    requires most { count ≤ 16 }
    requires limit { limit ≤ count }
    requires sixteen { length codes ≡ 16 }
    requires below { All (λ code. code < 64) codes }
    ensures last { drop (16 - count) result
        ≡ blanked (min limit (leading (ends stop) (drop (16 - count) codes)))
        (drop (16 - count) codes) }
    ensures sixteen { length result ≡ 16 }
    ensures below { All (λ code. code < 64) result }
{
    let stops = stops(codes, stop) >> (16 - count);
    let blanks = limit.min(stops.trailing_zeros() as u16);
    last_of(count - blanks, codes, fade_codes(codes))
}
