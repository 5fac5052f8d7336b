//! Some of sixteen lanes, and others in place of them.

ghost use Rattle.std.specs.Prelude.{◌≡◌, ◌-◌, ◌≤◌, ◌==◌, ◌++◌, drop, length, map, take, if◌then◌else◌};

use std::simd::prelude::*;

/// Sixteen bytes that are 0, and sixteen that are 255.
const EDGE: [u8; 32] = [
    0, 0, 0, 0, 0, 0, 0, 0, 0, 0, 0, 0, 0, 0, 0, 0, 255, 255, 255, 255, 255, 255, 255, 255, 255,
    255, 255, 255, 255, 255, 255, 255,
];

/// The last `count` lanes, after the first lanes of others.
#[inline(always)]
pub fn last_of(count: u16, lanes: u8x16, others: u8x16) -> u8x16
    requires most { count ≤ 16 }
    requires lanes { length lanes ≡ 16 }
    requires others { length others ≡ 16 }
    ensures { result ≡ take (16 - count) others ++ drop (16 - count) lanes }
{
    u8x16::from_slice(&EDGE[count as usize..])
        .simd_ge(u8x16::splat(128))
        .select(lanes, others)
}

/// The lanes with `new` in place of `old`.
#[inline(always)]
pub fn replace_lanes(lanes: u8x16, old: u8, new: u8) -> u8x16
    requires { length lanes ≡ 16 }
    ensures { result ≡ map (λ lane. if lane == old then new else lane) lanes }
{
    lanes
        .simd_eq(u8x16::splat(old))
        .select(u8x16::splat(new), lanes)
}
