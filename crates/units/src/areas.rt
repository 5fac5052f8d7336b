//! The areas of storage that the units use: a card is read into 001 to 080, punched from 101 to
//! 180, and a line is printed from 201 to 332.

ghost use Rattle.std.specs.Prelude.{◌≡◌, ◌+◌, ◌<◌, ◌≤◌, All, drop, length, take};
ghost use Rattle.core_store.specs.Storage.{codes_from, put_codes, largest_size};

use bcd::Code;
use core_store::Core;
use std::simd::prelude::*;

/// The number of columns of a card.
const COLUMNS: usize = 80;
/// The first position of the read area.
pub(crate) const READ_AREA: u16 = 1;
/// The first position of the punch area.
pub(crate) const PUNCH_AREA: u16 = 101;
/// The first position of the print area.
pub(crate) const PRINT_AREA: u16 = 201;

/// How many characters are written at once.
const BLOCK: usize = 16;

/// Sixteen characters as lanes, from a place among the characters of a card on.
#[inline(always)]
#[tactic(auto, using(crate::proofs::AreaLemmas::copy_none, crate::proofs::AreaLemmas::copy_all))]
fn lanes_at(codes: &[Code; COLUMNS], first: usize) -> u8x16
    requires { first + 16 ≤ 80 }
    ensures lanes { result ≡ take 16 (drop first codes.now) }
    ensures below { All (λ code. code < 64) result }
    ensures sixteen { length result ≡ 16 }
{
    let mut lanes = [0u8; BLOCK];
    for place in 0..BLOCK {
        lanes[place] = codes[first + place].number();
    }
    u8x16::from_array(lanes)
}

/// Writes the characters of a card from a position on, sixteen at a time. Marks stay.
#[tactic(auto, using(crate::proofs::AreaLemmas::write_none, crate::proofs::AreaLemmas::write_all))]
pub(crate) fn put_codes<C: Core>(core: &mut C, first: u16, codes: &[Code; COLUMNS])
    requires within { first + 80 ≤ length (C.cells core.old) }
    requires below { first + 80 ≤ largest_size }
    ensures { C.cells core.new ≡ put_codes (C.cells core.old) first codes.now }
{
    for block in (0..COLUMNS / BLOCK).rev() {
        let place = block * BLOCK;
        core.put_near_codes(first + (place + 15) as u16, lanes_at(codes, place));
    }
}

/// The characters from a position on.
#[tactic(auto, using(crate::proofs::AreaLemmas::read_all))]
pub(crate) fn codes_at<C: Core, const N: usize>(core: &C, first: u16) -> [Code; N]
    requires within { first + N ≤ length (C.cells core.now) }
    requires below { first + N ≤ largest_size }
    ensures { result ≡ codes_from (C.cells core.now) first N }
{
    let mut codes = [Code::blank(); N];
    for place in 0..N {
        codes[place] = core.get(first + place as u16);
    }
    codes
}
