//! Reading a deck from a file in one of the forms.

ghost use Rattle.std.specs.Prelude.{◌≡◌, List, IfOk, IfErr};
ghost use Rattle.cards.specs.{Decks.{IsDeck}, declared.Card.{Card}};
ghost use Rattle.card_forms.specs.{Faults.{IsFault, IsRead}, Forms.{IsFileOf, form_told}};

use crate::column_binary::punch_file;
use crate::faults::{FormFault, OUT_OF_MEMORY, binary_fault, punch_fault, text_fault};
use crate::forms::Form;
use crate::punch_files::in_capitals;
use crate::simh_texts::{deck_text, feed_place};
use cards::{Deck, read_punched, read_text};
use std::alloc::Global;

/// Reads a deck from a file in a form. The digits A to F of a punch file may be small letters.
///
/// The error is the first fault in reading order, or `OUT_OF_MEMORY`.
pub fn read(alloc: Global, form: Form, bytes: &[u8]) -> Result<Deck, FormFault>
    ensures deck { IfOk result (λ deck. IsDeck deck × IsFileOf form bytes.now deck) }
    ensures only { (deck : List Card) → IsDeck deck → IsFileOf form bytes.now deck →
        IsRead result deck }
    ensures fault { IfErr result (λ fault. IsFault form bytes.now fault) }
{
    match form {
        Form::Text => read_deck_text(alloc, bytes),
        Form::Punch => read_punch_file(alloc, bytes),
        Form::Simh => read_simh_text(alloc, bytes),
        Form::Binary => read_binary(alloc, bytes),
    }
}

/// Reads a deck from its text or its punch file, told by the bytes before the first line feed: a
/// file with 240 of them is a punch file, every other one a text.
///
/// The error is the first fault in reading order, or `OUT_OF_MEMORY`.
pub fn read_either(alloc: Global, bytes: &[u8]) -> Result<Deck, FormFault>
    ensures deck { IfOk result (λ deck. IsDeck deck
        × IsFileOf (form_told bytes.now) bytes.now deck) }
    ensures only { (deck : List Card) → IsDeck deck →
        IsFileOf (form_told bytes.now) bytes.now deck → IsRead result deck }
    ensures fault { IfErr result (λ fault. IsFault (form_told bytes.now) bytes.now fault) }
{
    read(alloc, form_told(bytes), bytes)
}

/// Returns the form that the bytes before the first line feed tell: of 240 of them a punch file, and
/// else a text.
pub fn form_told(bytes: &[u8]) -> Form
    ensures { result ≡ form_told bytes.now }
{
    match feed_place(bytes) {
        Some(240) => Form::Punch,
        _ => Form::Text,
    }
}

/// Reads a deck from its text.
fn read_deck_text(alloc: Global, text: &[u8]) -> Result<Deck, FormFault>
    ensures deck { IfOk result (λ deck. IsDeck deck × IsFileOf Form.Text text.now deck) }
    ensures only { (deck : List Card) → IsDeck deck → IsFileOf Form.Text text.now deck →
        IsRead result deck }
    ensures fault { IfErr result (λ fault. IsFault Form.Text text.now fault) }
{
    match read_text(alloc, text) {
        Ok(deck) => Ok(deck),
        Err(told) => Err(text_fault(text, told)),
    }
}

/// Reads a deck from its punch file, whose digits may be small letters.
fn read_punch_file(alloc: Global, file: &[u8]) -> Result<Deck, FormFault>
    ensures deck { IfOk result (λ deck. IsDeck deck × IsFileOf Form.Punch file.now deck) }
    ensures only { (deck : List Card) → IsDeck deck → IsFileOf Form.Punch file.now deck →
        IsRead result deck }
    ensures fault { IfErr result (λ fault. IsFault Form.Punch file.now fault) }
{
    let Ok(told_file) = in_capitals(alloc, file) else {
        return Err(OUT_OF_MEMORY);
    };
    match read_punched(alloc, &told_file) {
        Ok(deck) => Ok(deck),
        Err(told) => Err(punch_fault(&told_file, told)),
    }
}

/// Reads a deck from a text of SimH.
fn read_simh_text(alloc: Global, text: &[u8]) -> Result<Deck, FormFault>
    ensures deck { IfOk result (λ deck. IsDeck deck × IsFileOf Form.Simh text.now deck) }
    ensures only { (deck : List Card) → IsDeck deck → IsFileOf Form.Simh text.now deck →
        IsRead result deck }
    ensures fault { IfErr result (λ fault. IsFault Form.Simh text.now fault) }
{
    let Ok(told_text) = deck_text(alloc, text) else {
        return Err(OUT_OF_MEMORY);
    };
    match read_text(alloc, &told_text) {
        Ok(deck) => Ok(deck),
        Err(told) => Err(text_fault(&told_text, told)),
    }
}

/// Reads a deck from column binary.
fn read_binary(alloc: Global, bytes: &[u8]) -> Result<Deck, FormFault>
    ensures deck { IfOk result (λ deck. IsDeck deck × IsFileOf Form.Binary bytes.now deck) }
    ensures only { (deck : List Card) → IsDeck deck → IsFileOf Form.Binary bytes.now deck →
        IsRead result deck }
    ensures fault { IfErr result (λ fault. IsFault Form.Binary bytes.now fault) }
{
    let Ok(file) = punch_file(alloc, bytes) else {
        return Err(OUT_OF_MEMORY);
    };
    match read_punched(alloc, &file) {
        Ok(deck) => Ok(deck),
        Err(told) => Err(binary_fault(bytes, told)),
    }
}
