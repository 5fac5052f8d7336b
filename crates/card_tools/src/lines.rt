//! Lines that show a card.

ghost use Rattle.std.specs.Prelude.{◌≡◌, ◌++◌, replicate, OnOk};
ghost use Rattle.card_tools.specs.Lines.{barred, columns_shown, glyphs_of, in_four, numbered_card};

use bcd::Code;
use card_forms::{CardImage, filled_columns, glyph_shown};
use itoa::Buffer;
use std::alloc::AllocError;

/// Adds so many blanks.
pub(crate) fn push_blanks(out: &mut Vec<u8>, count: usize) -> Result<(), AllocError>
    ensures { OnOk result (out.new.items ≡ out.old.items ++ replicate count 32) }
{
    for _blank in 0..count {
        out.push(b' ')?;
    }
    Ok(())
}

/// Adds a number at the right of four places.
pub(crate) fn push_in_four(out: &mut Vec<u8>, number: usize) -> Result<(), AllocError>
    ensures { OnOk result (out.new.items ≡ out.old.items ++ in_four number) }
{
    let mut buffer = Buffer::new();
    let printed = buffer.format(number).as_bytes();
    push_blanks(out, 4usize.saturating_sub(printed.len()))?;
    out.extend_from_slice(printed)?;
    Ok(())
}

/// Adds the glyphs of characters.
pub(crate) fn push_glyphs(out: &mut Vec<u8>, codes: &[Code]) -> Result<(), AllocError>
    ensures { OnOk result (out.new.items ≡ out.old.items ++ glyphs_of codes.now) }
{
    for code in codes {
        out.push(code.glyph())?;
    }
    Ok(())
}

/// Adds columns as they are shown.
fn push_shown(out: &mut Vec<u8>, columns: &[u16]) -> Result<(), AllocError>
    ensures { OnOk result (out.new.items ≡ out.old.items ++ columns_shown columns.now) }
{
    for pattern in columns {
        out.push(glyph_shown(*pattern))?;
    }
    Ok(())
}

/// Adds a card up to the last column that is not blank, between bars.
pub(crate) fn push_barred(out: &mut Vec<u8>, image: &CardImage) -> Result<(), AllocError>
    ensures { OnOk result (out.new.items ≡ out.old.items ++ barred image.now) }
{
    out.push(b'|')?;
    push_shown(out, filled_columns(image))?;
    out.push(b'|')?;
    Ok(())
}

/// Adds the number of a card at the right of four places, and the card up to the last column that is
/// not blank, between bars. A column that is no character is shown as `~`.
pub fn push_numbered(out: &mut Vec<u8>, number: usize, image: &CardImage) -> Result<(), AllocError>
    ensures { OnOk result (out.new.items ≡ out.old.items ++ numbered_card number image.now) }
{
    push_in_four(out, number)?;
    push_barred(out, image)
}
