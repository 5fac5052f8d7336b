//! The forms of a listing.

ghost use Rattle.std.specs.Prelude.{◌≡◌, ◌<◌, ◌++◌, ◌∷◌, [], length, position, count_by, IfSome, IsNone, OnOk};
ghost use Rattle.pictures.specs.Forms.{form_section, forms_of, is_form_feed, parts, sections};

use crate::escapes::push_escaped;
use crate::finding::FORM_FEED;
use std::alloc::AllocError;
use texts::{push_decimal, push_number_between};

/// What stands before the lines of a form. A line feed comes last, since HTML passes over one
/// there, and a form may begin with an empty line.
const OPENING: &[u8] = b"<section class=\"form\"><div class=\"band\"></div>\
    <div class=\"strip\"></div><div class=\"strip r\"></div><pre>\n";

/// Adds the section of a form, with its number and the number of forms.
fn push_form(out: &mut Vec<u8>, number: usize, count: usize, form: &[u8]) -> Result<(), AllocError>
    ensures { OnOk result (out.new.items ≡ out.old.items ++ form_section number count form.now) }
{
    out.extend_from_slice(OPENING)?;
    push_escaped(out, form)?;
    out.extend_from_slice(b"</pre><div class=\"no\">")?;
    push_decimal(out, number)?;
    push_number_between(out, b" of ", count, b"</div></section>\n")
}

/// The place of the first form feed.
fn feed_place(text: &[u8]) -> Option<usize>
    ensures { result ≡ position is_form_feed text.now }
{
    text.iter().position(|byte| *byte == FORM_FEED)
}

/// The first form of a text and what is behind its form feed, if it has one.
fn split_form(text: &[u8]) -> Option<(&[u8], &[u8])>
    ensures parts { IfSome result (λ split. parts text.now ≡ split.0.now ∷ parts split.1.now) }
    ensures shorter { IfSome result (λ split. length split.1.now < length text.now) }
    ensures last { IsNone result → parts text.now ≡ text.now ∷ [] }
{
    let place = feed_place(text)?;
    Some((&text[..place], &text[place + 1..]))
}

/// The number of form feeds.
fn count_feeds(text: &[u8]) -> usize
    ensures { result ≡ count_by is_form_feed text.now }
{
    text.iter().filter(|byte| **byte == FORM_FEED).count()
}

/// Adds the sections of the parts of a text between its form feeds, one behind the other.
fn push_parts(out: &mut Vec<u8>, text: &[u8]) -> Result<(), AllocError>
    ensures { OnOk result (out.new.items ≡ out.old.items ++ sections (parts text.now)) }
{
    let count = count_feeds(text) + 1;
    let mut number = 1;
    let mut rest = text;
    while let Some((form, behind)) = split_form(rest) {
        push_form(out, number, count, form)?;
        number += 1;
        rest = behind;
    }
    push_form(out, number, count, rest)?;
    Ok(())
}

/// Adds the sections of the forms of a listing, one behind the other.
pub fn push_listing_forms(out: &mut Vec<u8>, listing: &[u8]) -> Result<(), AllocError>
    ensures { OnOk result (out.new.items ≡ out.old.items ++ sections (forms_of listing.now)) }
{
    if listing.is_empty() {
        return Ok(());
    }
    push_parts(out, listing)
}
