//! Listings: printed lines as a text.

ghost use Rattle.std.specs.{
  Prelude.{◌≡◌, ◌≢◌, ◌≤◌, ◌<◌, ◌+◌, ◌-◌, ◌++◌, ◌∷◌, ℕ, [], length, map, take, replicate, slice_index, vec_len, ◌↔◌, IsTrue, IfOk},
  Vec.{vec_capacity},
};
ghost use Rattle.units.specs.Listing.{shown, blank, text_of, form_feed_between, done_on, added_after, most_added, rendered, IsRising};
ghost use Rattle.cards.specs.Files.{line_feed};

use crate::printer::{LINE_LENGTH, Line};
use bcd::Code;
use cards::LINE_FEED;
use std::alloc::{AllocError, Global};

const FORM_FEED: u8 = 12;

/// The most bytes that a printed line adds to a listing.
pub(crate) const MOST_ADDED: usize = 389;

/// The number of characters that are looked at at once for blanks at the end of a line.
const BLOCK: usize = 16;

/// The byte that the printer shows for each character. Thirteen characters are not on its chain.
const SHOWN: [u8; 64] = *b" 1234567890#@    /STUVWXYZ|,%   -JKLMNOPQR!$*   &ABCDEFGHI?.)   ";

/// The byte that the printer shows for a character.
#[inline(always)]
#[tactic(auto, using(crate::proofs::ListingGlyphs::shown_at))]
fn shown_glyph(code: Code) -> u8
    ensures { result ≡ shown code }
{
    SHOWN[code.number() as usize]
}

/// Whether the characters of the block that begins there are blanks, looked at all at once.
#[inline(always)]
fn is_blank(codes: &[Code], first: usize) -> bool
    requires { first + 16 ≤ length codes.now }
    ensures { IsTrue result ↔ ((k : ℕ) → first ≤ k → k < first + 16 → slice_index codes.now k ≡ 0) }
{
    let mut numbers = 0;
    for place in first..first + BLOCK {
        numbers |= codes[place].number();
    }
    numbers == 0
}

/// The number of characters without the trailing blanks.
#[tactic(auto, using(crate::proofs::ListingLines::text_is))]
fn length_shown(codes: &[Code]) -> usize
    ensures within { result ≤ length codes.now }
    ensures blank_from_there { (k : ℕ) → result ≤ k → k < length codes.now →
        shown (slice_index codes.now k) ≡ blank }
    ensures not_before { 0 < result → shown (slice_index codes.now (result - 1)) ≢ blank }
    ensures text { text_of codes.now ≡ map shown (take result codes.now) }
{
    let mut end = codes.len();
    while end >= BLOCK && is_blank(codes, end - BLOCK) {
        end -= BLOCK;
    }
    for length in (0..end).rev() {
        if shown_glyph(codes[length]) != b' ' {
            return length + 1;
        }
    }
    0
}

/// Adds bytes for which there is room.
#[inline(always)]
fn push_bytes(text: &mut Vec<u8>, bytes: &[u8])
    requires { vec_len text.old + length bytes.now ≤ vec_capacity text.old }
    ensures items { text.new.items ≡ text.old.items ++ bytes.now }
    ensures len { vec_len text.new ≡ vec_len text.old + length bytes.now }
    ensures capacity { vec_capacity text.old ≤ vec_capacity text.new }
{
    let Ok(()) = text.extend_from_slice(bytes) else {
        unreachable!()
    };
}

/// Adds a line as it is shown, without trailing blanks, and its line feed.
fn push_line(text: &mut Vec<u8>, codes: &[Code; LINE_LENGTH])
    requires { vec_len text.old + 133 ≤ vec_capacity text.old }
    ensures items { text.new.items ≡ text.old.items ++ (text_of codes.now ++ line_feed ∷ []) }
    ensures capacity { vec_capacity text.old ≤ vec_capacity text.new }
{
    let length = length_shown(codes);
    let mut line = [LINE_FEED; LINE_LENGTH + 1];
    for place in 0..length {
        line[place] = shown_glyph(codes[place]);
    }
    push_bytes(text, &line[..length + 1]);
}

/// Adds `count` empty lines.
fn push_empty_lines(text: &mut Vec<u8>, count: u8)
    requires { vec_len text.old + count ≤ vec_capacity text.old }
    ensures items { text.new.items ≡ text.old.items ++ replicate count line_feed }
    ensures len { vec_len text.new ≡ vec_len text.old + count }
    ensures capacity { vec_capacity text.new ≡ vec_capacity text.old }
{
    for _ in 0..count {
        text.push_reserved(LINE_FEED);
    }
}

/// Adds a form feed between two forms, the first of them 0 where the listing begins.
fn push_form_feed(text: &mut Vec<u8>, form: u32, next: u32)
    requires { vec_len text.old + 1 ≤ vec_capacity text.old }
    ensures items { text.new.items ≡ text.old.items ++ form_feed_between form next }
    ensures len { vec_len text.new ≤ vec_len text.old + 1 }
    ensures capacity { vec_capacity text.new ≡ vec_capacity text.old }
{
    if form == next {
        return;
    }
    if form == 0 {
        return;
    }
    text.push_reserved(FORM_FEED);
}

/// The last listed line of the form that comes next.
fn done_on(form: u32, done: u8, next: u32) -> u8
    ensures { result ≡ done_on form done next }
{
    if form == next { done } else { 0 }
}

/// Adds what a printed line adds to a listing that has come to a line of a form, 0 of 0 where it
/// begins.
#[tactic(auto, unfolding(crate::specs::Listing::added_after))]
pub(crate) fn push_listed(text: &mut Vec<u8>, form: u32, done: u8, line: &Line)
    requires { vec_len text.old + most_added ≤ vec_capacity text.old }
    ensures items { text.new.items ≡ text.old.items ++ added_after form done line.now }
    ensures capacity { vec_capacity text.old ≤ vec_capacity text.new }
{
    push_form_feed(text, form, line.form);
    let done = done_on(form, done, line.form);
    push_empty_lines(text, line.line.saturating_sub(done).saturating_sub(1));
    push_line(text, &line.codes);
}

/// Returns the listing of printed lines that rise by form and line. Each form with a printed line
/// is listed from its line 1 to its last printed line, each line without trailing blanks and ended
/// by a line feed; between two forms there is a form feed. Fails only if there is no memory.
pub fn render(alloc: Global, lines: &[Line]) -> Result<Vec<u8>, AllocError>
    ensures { IsRising lines.now → IfOk result (λ text. text.items ≡ rendered lines.now) }
{
    let mut text = Vec::new(alloc);
    let mut form = 0u32;
    let mut done = 0u8;
    for line in lines {
        text.try_reserve(MOST_ADDED)?;
        push_listed(&mut text, form, done, line);
        form = line.form;
        done = line.line;
    }
    Ok(text)
}
