//! The page of a deck.

ghost use Rattle.std.specs.Prelude.{◌≡◌, ◌++◌, IfOk, OnOk};
ghost use Rattle.pictures.specs.Decks.{captioned, deck_head, deck_page_of, figure, figures_from, stock_definition, titled_by_number};

use crate::card_pictures::push_marks;
use crate::escapes::push_card_glyphs;
use crate::heads::{push_page_head, push_page_heading};
use crate::stocks::push_stock;
use crate::styles::{CARD_STYLE, DECK_STYLE, FIGURE_STYLE};
use card_forms::CardImage;
use std::alloc::{AllocError, Global};
use texts::push_number_between;

/// Adds the stock of the cards, which shows nothing and which each figure of a card uses.
pub fn push_stock_definition(out: &mut Vec<u8>) -> Result<(), AllocError>
    ensures { OnOk result (out.new.items ≡ out.old.items ++ stock_definition) }
{
    out.extend_from_slice(
        b"<svg width=\"0\" height=\"0\" style=\"position:absolute\"><defs><g id=\"stock\">",
    )?;
    push_stock(out)?;
    out.extend_from_slice(b"</g></defs></svg>\n")?;
    Ok(())
}

/// Adds the title of the figure of a card: its number and its glyphs.
fn push_title(out: &mut Vec<u8>, number: usize, card: &CardImage) -> Result<(), AllocError>
    ensures { OnOk result (out.new.items ≡ out.old.items ++ titled_by_number number card.now) }
{
    push_number_between(out, b"<title>card ", number, b": ")?;
    push_card_glyphs(out, card)?;
    out.extend_from_slice(b"</title>")?;
    Ok(())
}

/// Adds the number under the figure of a card.
fn push_caption(out: &mut Vec<u8>, number: usize) -> Result<(), AllocError>
    ensures { OnOk result (out.new.items ≡ out.old.items ++ captioned number) }
{
    push_number_between(out, b"<figcaption>", number, b"</figcaption>")
}

/// Adds the figure of a card with its number under it.
fn push_card_figure(out: &mut Vec<u8>, number: usize, card: &CardImage) -> Result<(), AllocError>
    ensures { OnOk result (out.new.items ≡ out.old.items ++ figure number card.now) }
{
    out.extend_from_slice(
        b"<figure><svg xmlns=\"http://www.w3.org/2000/svg\" viewBox=\"0 0 7375 3250\">",
    )?;
    push_title(out, number, card)?;
    out.extend_from_slice(b"<use href=\"#stock\"/>")?;
    push_marks(out, card)?;
    out.extend_from_slice(b"</svg>")?;
    push_caption(out, number)?;
    out.extend_from_slice(b"</figure>\n")?;
    Ok(())
}

/// Adds the head of the page of a deck.
fn push_head(out: &mut Vec<u8>, title: &[u8]) -> Result<(), AllocError>
    ensures { OnOk result (out.new.items ≡ out.old.items ++ deck_head title.now) }
{
    push_page_head(out, title)?;
    out.extend_from_slice(b"<style>")?;
    out.extend_from_slice(DECK_STYLE)?;
    out.extend_from_slice(FIGURE_STYLE)?;
    out.extend_from_slice(CARD_STYLE)?;
    out.extend_from_slice(b"</style>")?;
    push_page_heading(out, title)
}

/// Adds the figures of cards, each with its number under it, for a page that has the stock already
/// ([`push_stock_definition`]).
pub fn push_card_figures(out: &mut Vec<u8>, cards: &[CardImage]) -> Result<(), AllocError>
    ensures { OnOk result (out.new.items ≡ out.old.items ++ figures_from 1 cards.now) }
{
    for (index, card) in cards.iter().enumerate() {
        push_card_figure(out, index + 1, card)?;
    }
    Ok(())
}

/// Returns the page of a deck, an HTML file that stands alone: its title, and all its cards with
/// the number of each under it.
///
/// Fails only if there is no memory.
pub fn deck_page(alloc: Global, title: &[u8], deck: &[CardImage]) -> Result<Vec<u8>, AllocError>
    ensures { IfOk result (λ page. page.items ≡ deck_page_of title.now deck.now) }
{
    let mut out = Vec::new(alloc);
    push_head(&mut out, title)?;
    push_stock_definition(&mut out)?;
    push_card_figures(&mut out, deck)?;
    Ok(out)
}
