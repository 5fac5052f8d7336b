//! Texts as they stand in a page.

ghost use Rattle.std.specs.Prelude.{◌≡◌, ◌++◌, OnOk};
ghost use Rattle.pictures.specs.Escapes.{card_glyphs, escape_of, escaped, glyph_printed, glyphs_shown};

use card_forms::{CardImage, character_of, filled_columns};
use std::alloc::AllocError;
use texts::push_decimal;

/// Adds a byte as it stands in a page.
#[tactic(auto, unfolding(crate::specs::Escapes::escape_of))]
pub(crate) fn push_escape(out: &mut Vec<u8>, byte: u8) -> Result<(), AllocError>
    ensures { OnOk result (out.new.items ≡ out.old.items ++ escape_of byte) }
{
    match byte {
        b'&' => out.extend_from_slice(b"&amp;"),
        b'<' => out.extend_from_slice(b"&lt;"),
        b'>' => out.extend_from_slice(b"&gt;"),
        _ => Ok(out.push(byte)?),
    }
}

/// Adds a text as it stands in a page.
pub fn push_escaped(out: &mut Vec<u8>, text: &[u8]) -> Result<(), AllocError>
    ensures { OnOk result (out.new.items ≡ out.old.items ++ escaped text.now) }
{
    for byte in text {
        push_escape(out, *byte)?;
    }
    Ok(())
}

/// What is printed of a column: the glyph of its character, or a blank where it is none.
#[tactic(auto, unfolding(crate::specs::Escapes::glyph_printed))]
fn glyph_printed(pattern: u16) -> u8
    ensures { result ≡ glyph_printed pattern }
{
    match character_of(pattern) {
        Some(code) => code.glyph(),
        None => b' ',
    }
}

/// Adds the glyphs of columns as they stand in a page.
fn push_glyphs(out: &mut Vec<u8>, patterns: &[u16]) -> Result<(), AllocError>
    ensures { OnOk result (out.new.items ≡ out.old.items ++ glyphs_shown patterns.now) }
{
    for pattern in patterns {
        push_escape(out, glyph_printed(*pattern))?;
    }
    Ok(())
}

/// Adds the glyphs of a card, up to the last column that is not blank, as they stand in a page.
pub(crate) fn push_card_glyphs(out: &mut Vec<u8>, card: &CardImage) -> Result<(), AllocError>
    ensures { OnOk result (out.new.items ≡ out.old.items ++ card_glyphs card.now) }
{
    push_glyphs(out, filled_columns(card))
}
