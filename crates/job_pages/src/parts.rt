//! The parts of a page behind its table.

ghost use Rattle.std.specs.Prelude.{◌≡◌, ◌++◌, OnOk};
ghost use Rattle.pictures.specs.Forms.{forms_of, sections};
ghost use Rattle.job_pages.specs.Pages.{boxed, cards_shown, job_head, listing_shown, style, text_shown};

use crate::styles::JOB_STYLE;
use card_forms::images_of;
use cards::Card;
use pictures::{
    CARD_STYLE, FIGURE_STYLE, FORM_STYLE, push_card_figures, push_escaped, push_listing_forms,
    push_page_head, push_page_heading, push_stock_definition,
};
use std::alloc::{AllocError, Global};

/// Adds the style of the page.
fn push_style(out: &mut Vec<u8>) -> Result<(), AllocError>
    ensures { OnOk result (out.new.items ≡ out.old.items ++ style) }
{
    out.extend_from_slice(b"<style>")?;
    out.extend_from_slice(JOB_STYLE)?;
    out.extend_from_slice(FIGURE_STYLE)?;
    out.extend_from_slice(CARD_STYLE)?;
    out.extend_from_slice(FORM_STYLE)?;
    out.extend_from_slice(b"</style>\n")
}

/// Adds the head of a page, with the name of the job.
pub(crate) fn push_head(out: &mut Vec<u8>, name: &[u8]) -> Result<(), AllocError>
    ensures { OnOk result (out.new.items ≡ out.old.items ++ job_head name.now) }
{
    push_page_head(out, name)?;
    push_style(out)?;
    push_page_heading(out, name)
}

/// Adds a part of this name with a text.
pub(crate) fn push_text(out: &mut Vec<u8>, name: &[u8], text: &[u8]) -> Result<(), AllocError>
    ensures { OnOk result (out.new.items ≡ out.old.items ++ text_shown name.now text.now) }
{
    out.extend_from_slice(b"<h2>")?;
    out.extend_from_slice(name)?;
    out.extend_from_slice(b"</h2><pre class=\"code\">\n")?;
    push_escaped(out, text)?;
    out.extend_from_slice(b"</pre>\n")
}

/// Adds the forms of a listing in a box of their own.
fn push_box(out: &mut Vec<u8>, listing: &[u8]) -> Result<(), AllocError>
    ensures { OnOk result (out.new.items
        ≡ out.old.items ++ boxed (sections (forms_of listing.now))) }
{
    out.extend_from_slice(b"<div class=\"paper\">\n")?;
    push_listing_forms(out, listing)?;
    out.extend_from_slice(b"</div>\n")
}

/// Adds the listing on its forms.
pub(crate) fn push_listing(out: &mut Vec<u8>, listing: &[u8]) -> Result<(), AllocError>
    ensures { OnOk result (out.new.items ≡ out.old.items ++ listing_shown listing.now) }
{
    out.extend_from_slice(b"<h2>Listing</h2>\n")?;
    if listing.is_empty() {
        return out.extend_from_slice(b"<p>Nothing was printed.</p>\n");
    }
    push_box(out, listing)
}

/// Adds the punched cards.
pub(crate) fn push_cards(alloc: Global, out: &mut Vec<u8>, cards: &[Card]) -> Result<(), AllocError>
    ensures { OnOk result (out.new.items ≡ out.old.items ++ cards_shown cards.now) }
{
    out.extend_from_slice(b"<h2>Punched cards</h2>\n")?;
    if cards.is_empty() {
        return out.extend_from_slice(b"<p>No card was punched.</p>\n");
    }
    let images = images_of(alloc, cards)?;
    push_stock_definition(out)?;
    push_card_figures(out, &images)
}
