//! How the characters of an instruction are shown.

ghost use Rattle.std.specs.Prelude.{◌≡◌, ◌+◌, ◌<◌, ◌≤◌, ◌++◌, length, OnOk};
ghost use Rattle.core_store.specs.Storage.{codes_from};
ghost use Rattle.autocoder.specs.Listing.{glyphs_of};
ghost use Rattle.run_traces.specs.Shown.{characters_at, padding};

use autocoder::push_fillers;
use check_causes::word_length;
use core_store::Core;
use std::alloc::AllocError;

/// Adds what stands behind a text of so many bytes at the left of a field of this width.
pub(crate) fn push_padding(line: &mut Vec<u8>, width: usize, count: usize) -> Result<(), AllocError>
    ensures { OnOk result (line.new.items ≡ line.old.items ++ padding width count) }
{
    push_fillers(line, b' ', width.saturating_sub(count).max(1))
}

/// Adds the glyphs of the characters from a position on.
#[tactic(auto, using(crate::proofs::ShownLemmas::glyph_none, crate::proofs::ShownLemmas::glyph_on))]
pub(crate) fn push_codes<C: Core>(
    line: &mut Vec<u8>,
    core: &C,
    first: u16,
    count: u16,
) -> Result<(), AllocError>
    requires { 0 < count → first + count ≤ length (C.cells core.now) }
    ensures { OnOk result (line.new.items
        ≡ line.old.items ++ glyphs_of (codes_from (C.cells core.now) first count)) }
{
    for place in 0..count {
        line.push(core.get_after(first, place).glyph())?;
    }
    Ok(())
}

/// Adds the characters that are shown of the instruction at a position.
#[tactic(auto, unfolding(crate::specs::Shown::characters_at))]
pub(crate) fn push_characters<C: Core>(
    line: &mut Vec<u8>,
    core: &C,
    i: u16,
) -> Result<(), AllocError>
    ensures { OnOk result (line.new.items ≡ line.old.items ++ characters_at (C.cells core.now) i) }
{
    match word_length(core, i) {
        Some(count) => push_codes(line, core, i, count),
        None => {
            push_codes(line, core, i, core.size().saturating_sub(i).min(8))?;
            line.push(b'?')?;
            Ok(())
        }
    }
}
