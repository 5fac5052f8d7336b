//! Writing a deck as its text or its punch file.

ghost use Rattle.std.specs.{Prelude.{◌≡◌, ◌≤◌, ◌+◌, ◌++◌, vec_len, IfOk}, Vec.{vec_capacity}};
ghost use Rattle.cards.specs.Files.{text_of, punch_file_of, file_of, line_of, line_length, column_of, column_length};

use crate::decks::{Card, Deck};
use crate::forms::{Form, LINE_FEED, digit_of};
use bcd::Code;
use std::alloc::{AllocError, Global};

/// Returns the text of a deck: eighty glyphs and a line feed a card. Fails only if there is no
/// memory.
pub fn write_text(alloc: Global, deck: &Deck) -> Result<Vec<u8>, AllocError>
    ensures { IfOk result (λ text. text.items ≡ text_of deck.now) }
{
    write(alloc, Form::Text, deck.cards())
}

/// Returns the punch file of a deck: three hexadecimal digits a column and a line feed a card.
/// Fails only if there is no memory.
pub fn write_punched(alloc: Global, deck: &Deck) -> Result<Vec<u8>, AllocError>
    ensures { IfOk result (λ file. file.items ≡ punch_file_of deck.now) }
{
    write(alloc, Form::Punched, deck.cards())
}

/// Returns the punch file of some cards, which may be more than a deck has, such as the cards that
/// a job has punched. Fails only if there is no memory.
pub fn write_punched_cards(alloc: Global, cards: &[Card]) -> Result<Vec<u8>, AllocError>
    ensures { IfOk result (λ file. file.items ≡ punch_file_of cards.now) }
{
    write(alloc, Form::Punched, cards)
}

/// Returns the lines of the cards, in order. Memory for all of them is taken first.
fn write(alloc: Global, form: Form, cards: &[Card]) -> Result<Vec<u8>, AllocError>
    ensures { IfOk result (λ file. file.items ≡ file_of form cards.now) }
{
    let mut out = Vec::with_capacity(alloc, form.line_length().saturating_mul(cards.len()))?;
    for card in cards {
        push_card(&mut out, form, card);
    }
    Ok(out)
}

/// Adds the line of a card.
fn push_card(out: &mut Vec<u8>, form: Form, card: &Card)
    requires { vec_len out.old + line_length form ≤ vec_capacity out.old }
    ensures items { out.new.items ≡ out.old.items ++ line_of form card.now }
    ensures len { vec_len out.new ≡ vec_len out.old + line_length form }
    ensures capacity { vec_capacity out.new ≡ vec_capacity out.old }
{
    for code in &card.0 {
        push_column(out, form, *code);
    }
    out.push_reserved(LINE_FEED);
}

/// Adds a column of a card.
#[tactic(auto, unfolding(crate::specs::Files::column_of))]
fn push_column(out: &mut Vec<u8>, form: Form, code: Code)
    requires { vec_len out.old + column_length form ≤ vec_capacity out.old }
    ensures items { out.new.items ≡ out.old.items ++ column_of form code }
    ensures len { vec_len out.new ≡ vec_len out.old + column_length form }
    ensures capacity { vec_capacity out.new ≡ vec_capacity out.old }
{
    match form {
        Form::Text => out.push_reserved(code.glyph()),
        Form::Punched => {
            let punches = code.punches();
            out.push_reserved(digit_of(punches / 256 % 16));
            out.push_reserved(digit_of(punches / 16 % 16));
            out.push_reserved(digit_of(punches % 16));
        }
    }
}
