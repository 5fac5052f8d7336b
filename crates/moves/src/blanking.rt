//! Zeros and commas at the left of a field made blank.

ghost use Rattle.std.specs.Prelude.{◌≡◌, ◌+◌, ◌-◌, ◌<◌, ◌≤◌, ℕ, length, min};
ghost use Rattle.core_store.specs.Storage.{codes_ending, codes_from, put_codes, largest_size};
ghost use Rattle.moves.specs.Blanked.{ends, leading, faded, blanked};

use crate::lanes;
use crate::near::put_last;
use bcd::Code;
use core_store::Core;

/// The character at which zeros and commas are no longer made blank.
#[derive(Clone, Copy, Debug, PartialEq, Eq)]
pub enum Stop {
    /// Any character but zero, blank and comma.
    Other,
    /// A digit from 1 to 9.
    Digit,
}

impl Stop {
    /// Whether a character is such a stop.
    #[inline(always)]
    #[tactic(auto, unfolding(crate::specs::Blanked::ends, crate::specs::Characters::is_any))]
    fn is_met(self, code: Code) -> bool
        ensures { result ≡ ends self code }
    {
        match self {
            Stop::Other => !matches!(code.glyph(), b'0' | b' ' | b','),
            Stop::Digit => matches!(code.glyph(), b'1'..=b'9'),
        }
    }
}

/// Blank for a zero or a comma, else the character itself.
#[inline(always)]
#[tactic(auto, unfolding(crate::specs::Blanked::faded, crate::specs::Characters::is_any))]
fn fade(code: Code) -> Code
    ensures { result ≡ faded code }
{
    match code.glyph() {
        b'0' | b',' => Code::blank(),
        _ => code,
    }
}

/// Makes zeros and commas blank from the left, among the first `limit` characters of a field, up to
/// a stop.
#[tactic(auto, using(crate::proofs::BlankingLemmas::blank_none, crate::proofs::BlankingLemmas::blanked_on, crate::proofs::BlankingLemmas::none_on, crate::proofs::BlankingLemmas::stopped_on, crate::proofs::Copying::size_on))]
pub fn blank_start<C: Core>(core: &mut C, first: u16, count: u16, limit: u16, stop: Stop)
    requires within { first + count ≤ length (C.cells core.old) }
    requires limit { limit ≤ count }
    requires below { first + count ≤ largest_size }
    ensures codes { C.cells core.new ≡ put_codes (C.cells core.old) first
        (blanked (min limit (leading (ends stop) (codes_from (C.cells core.old) first count)))
        (codes_from (C.cells core.old) first count)) }
    ensures size { length (C.cells core.new) ≡ length (C.cells core.old) }
{
    for i in 0..limit {
        let code = core.get(first + i);
        if stop.is_met(code) {
            return;
        }
        core.put(first + i, fade(code));
    }
}

/// Does the same to at most sixteen characters that end at B, all at once.
#[inline(always)]
#[tactic(auto, using(crate::proofs::LaneLemmas::near_long))]
pub fn blank_near<C: Core>(core: &mut C, b: u16, count: u16, limit: u16, stop: Stop)
    requires within { b < length (C.cells core.old) }
    requires room { 15 ≤ b }
    requires most { count ≤ 16 }
    requires limit { limit ≤ count }
    ensures codes { C.cells core.new ≡ put_codes (C.cells core.old) (b + 1 - count)
        (blanked (min limit (leading (ends stop) (codes_ending (C.cells core.old) b count)))
        (codes_ending (C.cells core.old) b count)) }
    ensures size { length (C.cells core.new) ≡ length (C.cells core.old) }
{
    let codes = core.near_codes(b);
    put_last(
        core,
        b,
        count,
        lanes::blank_codes(codes, count, limit, stop),
    );
}
