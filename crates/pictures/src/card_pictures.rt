//! The picture of a card.

ghost use Rattle.std.specs.Prelude.{◌≡◌, ◌++◌, IfOk, OnOk};
ghost use Rattle.pictures.specs.Cards.{holes_drawn, marks, picture, print, titled};

use crate::escapes::push_card_glyphs;
use crate::holes::push_holes;
use crate::stocks::{push_places, push_stock};
use crate::styles::CARD_STYLE;
use card_forms::{CardImage, filled_columns};
use std::alloc::{AllocError, Global};

/// Adds the holes of a card.
fn push_holes_drawn(out: &mut Vec<u8>, card: &CardImage) -> Result<(), AllocError>
    ensures { OnOk result (out.new.items ≡ out.old.items ++ holes_drawn card.now) }
{
    out.extend_from_slice(b"<path class=\"hole\" d=\"")?;
    push_holes(out, card)?;
    out.extend_from_slice(b"\"/>")?;
    Ok(())
}

/// Adds the print of a card: its glyphs at the upper edge.
fn push_print(out: &mut Vec<u8>, card: &CardImage) -> Result<(), AllocError>
    ensures { OnOk result (out.new.items ≡ out.old.items ++ print card.now) }
{
    out.extend_from_slice(b"<text class=\"print\" y=\"150\" x=\"")?;
    push_places(out)?;
    out.extend_from_slice(b"\" xml:space=\"preserve\">")?;
    push_card_glyphs(out, card)?;
    out.extend_from_slice(b"</text>")?;
    Ok(())
}

/// Adds the holes and the print of a card, where it is not blank.
pub(crate) fn push_marks(out: &mut Vec<u8>, card: &CardImage) -> Result<(), AllocError>
    ensures { OnOk result (out.new.items ≡ out.old.items ++ marks card.now) }
{
    if filled_columns(card).is_empty() {
        return Ok(());
    }
    push_holes_drawn(out, card)?;
    push_print(out, card)?;
    Ok(())
}

/// Adds the title, the style and the stock of a card's picture.
fn push_titled(out: &mut Vec<u8>, card: &CardImage) -> Result<(), AllocError>
    ensures { OnOk result (out.new.items ≡ out.old.items ++ titled card.now) }
{
    out.extend_from_slice(b"<title>")?;
    push_card_glyphs(out, card)?;
    out.extend_from_slice(b"</title><style>")?;
    out.extend_from_slice(CARD_STYLE)?;
    out.extend_from_slice(b"</style>")?;
    push_stock(out)?;
    Ok(())
}

/// The beginning of a picture: a card is 7.375 by 3.25 inches, drawn in thousandths of an inch.
const OPENING: &[u8] = b"<svg xmlns=\"http://www.w3.org/2000/svg\" viewBox=\"0 0 7375 3250\" \
    width=\"7.375in\" height=\"3.25in\">";

/// Returns the picture of a card, an SVG that stands alone: the card's glyphs as its title, the
/// paper with its rows of digits, its holes, and the glyphs at the upper edge, where a column that is
/// no character is blank.
///
/// Fails only if there is no memory.
pub fn card_picture(alloc: Global, card: &CardImage) -> Result<Vec<u8>, AllocError>
    ensures { IfOk result (λ text. text.items ≡ picture card.now) }
{
    let mut out = Vec::from_slice(alloc, OPENING)?;
    push_titled(&mut out, card)?;
    push_marks(&mut out, card)?;
    out.extend_from_slice(b"</svg>\n")?;
    Ok(out)
}
