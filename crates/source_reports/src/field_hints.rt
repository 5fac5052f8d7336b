//! Of text behind a blank in the label or the operation: where these stand, and a comment.

ghost use Rattle.std.specs.Prelude.{◌≡◌, ◌++◌, not, position, OnOk};
ghost use Rattle.autocoder_statements.specs.Characters.{is_blank};
ghost use Rattle.source_reports.specs.FieldHints.{comment_text, is_asterisk_first, looks_like_comment, columns_text, field_hint};

use crate::pieces::push_text;
use crate::places::first_filled;
use crate::source_columns::are_columns_off;
use bcd::Code;
use cards::Card;
use std::alloc::AllocError;

/// Whether the first character of a text that is no blank is an asterisk.
fn is_asterisk_first(text: &[Code]) -> bool
    ensures { result ≡ is_asterisk_first text.now
        (position (λ code. not (is_blank code)) text.now) }
{
    match first_filled(text) {
        None => false,
        Some(count) => text[count].glyph() == b'*',
    }
}

/// Whether a card looks like a comment, and is none: an asterisk stands first in columns 1 to 15.
#[tactic(auto, unfolding(crate::specs::FieldHints::looks_like_comment))]
pub(crate) fn looks_like_comment(card: &Card) -> bool
    ensures { result ≡ looks_like_comment card.now }
{
    let columns = &card.0[..];
    is_asterisk_first(&columns[..15])
}

/// Adds that a comment has its asterisk in column 6.
pub(crate) fn push_comment(text: &mut Vec<u8>) -> Result<(), AllocError>
    ensures { OnOk result (text.new.items ≡ text.old.items ++ comment_text) }
{
    push_text(text, "; a comment has * in column 6")
}

/// Where labels and operations begin, unless that is told of the whole source.
fn columns_text(is_told: bool) -> &'static str
    ensures { result.now ≡ columns_text is_told }
{
    if is_told {
        ""
    } else {
        "; a label begins in column 6, an operation in 16"
    }
}

/// Adds that a comment has its asterisk elsewhere, or where labels and operations begin.
#[tactic(auto, unfolding(crate::specs::FieldHints::field_hint))]
pub(crate) fn push_field(text: &mut Vec<u8>, source: &[Card], card: &Card) -> Result<(), AllocError>
    ensures { OnOk result (text.new.items
        ≡ text.old.items ++ field_hint source.now card.now) }
{
    if looks_like_comment(card) {
        return push_comment(text);
    }
    push_text(text, columns_text(are_columns_off(source)))
}
