//! The digit places of a control field, and the data put into them.

ghost use Rattle.std.specs.Prelude.{◌≡◌, ◌+◌, ◌-◌, ◌<◌, ◌≤◌, ◌==◌, ◌&&◌, ℕ, false, length, codes, max, if◌then◌else◌};
ghost use Rattle.core_store.specs.Storage.{codes_ending, put_codes, largest_size};
ghost use Rattle.moves.specs.{
  Characters.{is_any, bare_units, from_right},
  Stretches.{AreIn, IsIn},
  Edited.{is_place, places, filled_code, filled, through_zero, is_minus, is_sharing},
};

use crate::lanes;
use crate::suppressing::bare_at;
use bcd::Code;
use core_store::{Core, is_minus};

/// Whether a character of a control is a digit place.
#[inline(always)]
#[tactic(auto, unfolding(crate::specs::Edited::is_place, crate::specs::Characters::is_any))]
fn is_place(code: Code) -> bool
    ensures { result ≡ is_place code }
{
    matches!(code.glyph(), b'0' | b' ')
}

/// The number of digit places after one more character.
#[inline(always)]
fn add_place(places: u16, code: Code) -> u16
    requires { places < largest_size }
    ensures count { result ≡ (if is_place code then places + 1 else places) }
    ensures more { result ≤ places + 1 }
{
    if is_place(code) { places + 1 } else { places }
}

/// The number of digit places of a control field, counted one by one.
#[inline(never)]
#[tactic(auto, using(crate::proofs::FillingLemmas::places_none, crate::proofs::FillingLemmas::places_more))]
fn places_far<C: Core>(core: &C, b: u16, count: u16) -> u16
    requires { IsIn (C.cells core.now) b count }
    ensures places { result ≡ places (codes_ending (C.cells core.now) b count) }
    ensures limit { result ≤ count }
{
    let mut places = 0;
    for i in 0..count {
        places = add_place(places, core.get(b - i));
    }
    places
}

/// The number of digit places of a control field.
#[inline(always)]
#[tactic(auto, using(crate::proofs::LaneLemmas::near_long, crate::proofs::LaneLemmas::near_places))]
fn places<C: Core>(core: &C, b: u16, count: u16) -> u16
    requires { IsIn (C.cells core.now) b count }
    ensures places { result ≡ places (codes_ending (C.cells core.now) b count) }
    ensures limit { result ≤ count }
{
    if b >= 15 && count <= 16 {
        lanes::places(core.near_codes(b), count)
    } else {
        places_far(core, b, count)
    }
}

/// The number of data characters that a control field takes, at least one.
#[inline(always)]
pub fn data_count<C: Core>(core: &C, b: u16, count: u16) -> u16
    requires within { b < length (C.cells core.now) }
    requires from { count ≤ b + 1 }
    requires below { b < largest_size }
    ensures wanted { result ≡ max 1 (places (codes_ending (C.cells core.now) b count)) }
    ensures some { 1 ≤ result }
    ensures limit { result ≤ largest_size }
{
    places(core, b, count).max(1)
}

/// Whether a character is a zero without zone.
#[inline(always)]
#[tactic(auto, unfolding(crate::specs::Characters::is_any))]
fn is_zero(code: Code) -> bool
    ensures { result ≡ is_any (codes "0") code }
{
    code.glyph() == b'0'
}

/// The number of characters up to the rightmost zero, after one more character from the right.
/// `through` is the number before it, 0 if there was no zero, and `left` counts the characters up
/// to it.
#[inline(always)]
fn through_more(through: u16, left: u16, code: Code) -> u16
    ensures through { result ≡ (if through == 0 && is_any (codes "0") code then left else through) }
    ensures limit { result ≤ max through left }
{
    if through == 0 && is_zero(code) {
        left
    } else {
        through
    }
}

/// The data character at an index from the right, or blank to the left of the data.
#[inline(always)]
#[tactic(auto, using(crate::proofs::Copying::from_right_bare, crate::proofs::Copying::from_right_none))]
fn data_at<C: Core>(core: &C, a: u16, count: u16, place: u16) -> Code
    requires within { a < length (C.cells core.now) }
    requires from { count ≤ a + 1 }
    ensures { result ≡ from_right (bare_units (codes_ending (C.cells core.now) a count)) place }
{
    if place < count {
        bare_at(core, a, place)
    } else {
        Code::blank()
    }
}

/// The character that replaces one of the control field. `count` is the number of data characters,
/// `right` the number of digit places to the right, and `digit` the next data character.
#[inline(always)]
#[tactic(auto, unfolding(crate::specs::Edited::filled_code, crate::specs::Edited::is_place, crate::specs::Characters::is_any))]
fn filled_code(minus: bool, count: u16, right: u16, digit: Code, code: Code) -> Code
    ensures { result ≡ filled_code minus count right digit code }
{
    match code.glyph() {
        b'0' | b' ' => digit,
        b'&' => Code::blank(),
        b'C' | b'R' | b'-' if right == 0 && !minus => Code::blank(),
        b',' if count <= right => Code::blank(),
        _ => code,
    }
}

/// Puts the data into the digit places of the control field, and a blank for each character that is
/// not kept. Returns the number of characters of the control field up to its rightmost zero, or 0
/// without a zero.
#[tactic(auto, using(crate::proofs::FillingLemmas::fill_none, crate::proofs::FillingLemmas::places_none, crate::proofs::FillingLemmas::sign_is, crate::proofs::FillingLemmas::seen_none))]
pub fn fill<C: Core>(core: &mut C, a: u16, a_count: u16, b: u16, b_count: u16) -> u16
    requires stretches { AreIn (C.cells core.old) a b a_count b_count }
    requires a_some { 1 ≤ a_count }
    requires below { b < largest_size }
    requires apart { is_sharing a a_count b b_count ≡ false }
    ensures codes { C.cells core.new ≡ put_codes (C.cells core.old) (b + 1 - b_count)
        (filled (codes_ending (C.cells core.old) b b_count)
        (bare_units (codes_ending (C.cells core.old) a a_count))
        (is_minus (codes_ending (C.cells core.old) a a_count))) }
    ensures size { length (C.cells core.new) ≡ length (C.cells core.old) }
    ensures through { result ≡ through_zero (codes_ending (C.cells core.old) b b_count) }
    ensures limit { result ≤ b_count }
{
    let minus = is_minus(core, a);
    let mut right = 0;
    let mut through = 0;
    for i in 0..b_count {
        let code = core.get(b - i);
        if is_place(code) {
            through = through_more(through, b_count - i, code);
            let digit = data_at(core, a, a_count, right);
            core.put(b - i, digit);
            right += 1;
        } else {
            let kept = filled_code(minus, a_count, right, Code::blank(), code);
            core.put(b - i, kept);
        }
    }
    through
}
