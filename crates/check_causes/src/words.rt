//! The characters of an instruction.

ghost use Rattle.std.specs.Prelude.{◌≡◌, ◌+◌, ◌-◌, ◌<◌, ◌≤◌, ℕ, length, slice_index, unwrap_or, min, if◌then◌else◌, None, IfSome, Ok, IfOk, Err, IfErr};
ghost use Rattle.core_store.specs.Storage.{codes_from, is_marked, least_mark, largest_size};
ghost use Rattle.machine.specs.Word.{word_length, ending_in};
ghost use Rattle.bcd.specs.Table.{glyph_of};
ghost use Rattle.check_causes.specs.{
  declared.causes.Cause.TheVariants.{NoMark, NoEnd},
  Reading.{word_told},
};

use crate::causes::Cause;
use bcd::Code;
use core_store::Core;
use machine::Word;

/// Returns the number of characters of the instruction at a position, if one begins and ends there:
/// those before the next word mark, at most eight; `,` has at most seven and requires no mark after
/// them.
#[tactic(auto, unfolding(machine::specs::Word::word_length))]
pub fn word_length<C: Core>(core: &C, i: u16) -> Option<u16>
    ensures count { result ≡ word_length (C.cells core.now) i }
    ensures most { IfSome result (λ count. count ≤ 8) }
    ensures within { IfSome result (λ count. i + count ≤ length (C.cells core.now)) }
{
    if i < core.size() {
        machine::word_length(core, i)
    } else {
        None
    }
}

/// Why no instruction begins at a position and ends.
fn wordless<C: Core>(core: &C, i: u16) -> Cause
    requires { i < length (C.cells core.now) }
    ensures { result ≡ (if is_marked (C.cells core.now) i then NoEnd else NoMark) }
{
    if core.is_marked(i) {
        Cause::NoEnd
    } else {
        Cause::NoMark
    }
}

/// The instruction at a position, or why there is none.
#[tactic(auto, unfolding(crate::specs::Reading::word_told, machine::specs::Word::word))]
pub(crate) fn word_at<C: Core>(core: &C, i: u16) -> Result<Word, Cause>
    requires within { i < length (C.cells core.now) }
    requires below { i < largest_size }
    ensures word { IfOk result (λ word. word_told (C.cells core.now) i
        ≡ Ok (codes_from (C.cells core.now) i word.length)) }
    ensures place { IfOk result (λ word. word.first ≡ i) }
    ensures within { IfOk result (λ word. (1 ≤ word.length) × (word.length ≤ 8)
        × (i + word.length ≤ length (C.cells core.now))) }
    ensures none { IfErr result (λ cause. word_told (C.cells core.now) i ≡ Err cause) }
{
    match machine::word_length(core, i) {
        Some(length) => Ok(Word { first: i, length }),
        None => Err(wordless(core, i)),
    }
}

/// The glyph of a character.
pub(crate) fn sign(code: Code) -> char
    ensures { result ≡ glyph_of code }
{
    char::from(code.glyph())
}
