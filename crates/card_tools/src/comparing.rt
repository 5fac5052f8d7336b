//! Two decks, compared card by card.

ghost use Rattle.std.specs.Prelude.{◌≡◌, ◌≤◌, ◌+◌, ◌++◌, ◌∷◌, [], min, ◌==◌, codes, decimal, drop, if◌then◌else◌, length, IfOk, OnOk};
ghost use Rattle.card_forms.specs.Signs.{filled};
ghost use Rattle.card_tools.specs.Comparing.{both_shown, compared, differing, differing_among, differing_of, marks_of, only_from, only_shown, shown_from, shown_of, sum_line};

use crate::lines::{push_barred, push_glyphs, push_numbered};
use bcd::Code;
use card_forms::{CardImage, filled};
use cards::{COLUMNS, Card};
use std::alloc::{AllocError, Global};
use texts::{push_decimal, push_number_between};

/// What a comparison of two decks found.
#[derive(Debug, Drop)]
pub struct Comparison {
    /// What is printed of it.
    pub text: Vec<u8>,
    /// How many cards differ, those among them that only one deck has.
    pub differing: usize,
}

/// Compares two decks card by card, and prints of each card that differs its number, both cards,
/// and `^` under the columns in which they differ; then the cards that only one deck has, and in
/// the last line how many cards there are and how many differ. Fails only if there is no memory.
pub fn compare(
    alloc: Global,
    first: &[CardImage],
    second: &[CardImage],
) -> Result<Comparison, AllocError>
    ensures text { IfOk result (λ found. found.text.items ≡ compared first.now second.now) }
    ensures differing { IfOk result (λ found. found.differing ≡ differing first.now second.now) }
{
    let mut text = Vec::new(alloc);
    let among = push_both(&mut text, first, second)?;
    push_only(&mut text, b" only in the first deck", first, second.len())?;
    push_only(&mut text, b" only in the second deck", second, first.len())?;
    let only = first.len().saturating_sub(second.len()) + second.len().saturating_sub(first.len());
    let differing = among + only;
    push_sum(&mut text, first.len(), second.len(), differing)?;
    Ok(Comparison { text, differing })
}

/// The character whose glyph is `^` where two patterns differ, else the blank.
fn mark(one: u16, two: u16) -> Code
    ensures { result ≡ (if one == two then 0 else 16) }
{
    if one == two {
        return Code::blank();
    }
    match Code::from_number(16) {
        Some(code) => code,
        None => unreachable!(),
    }
}

/// The card with a mark in each column in which two others differ, whose columns these are.
fn marks(one: &[u16], two: &[u16]) -> Card
    requires one { length one.now ≡ 80 }
    requires two { length two.now ≡ 80 }
    ensures { result.0 ≡ marks_of one.now two.now }
{
    let mut codes = [Code::blank(); COLUMNS];
    for column in 0..COLUMNS {
        codes[column] = mark(one[column], two[column]);
    }
    Card(codes)
}

/// Adds what is shown of two cards that differ in the columns with marks.
fn push_pair(
    text: &mut Vec<u8>,
    number: usize,
    one: &CardImage,
    two: &CardImage,
    marks: &[Code],
) -> Result<(), AllocError>
    requires { marks.now ≡ filled (marks_of one.now.0 two.now.0) }
    ensures { OnOk result (text.new.items
        ≡ text.old.items ++ both_shown number one.now two.now) }
{
    push_numbered(text, number, one)?;
    text.extend_from_slice(b"\n    ")?;
    push_barred(text, two)?;
    text.extend_from_slice(b"\n     ")?;
    push_glyphs(text, marks)?;
    text.push(b'\n')?;
    Ok(())
}

/// Adds what is shown of two cards, and returns 1 if they differ, else 0.
fn push_shown(
    text: &mut Vec<u8>,
    number: usize,
    one: &CardImage,
    two: &CardImage,
) -> Result<usize, AllocError>
    ensures shown { OnOk result (text.new.items
        ≡ text.old.items ++ shown_of number one.now two.now) }
    ensures differing { IfOk result (λ count. count ≡ differing_of one.now two.now) }
{
    let marks = marks(&one.0, &two.0);
    let marked = filled(&marks);
    if marked.is_empty() {
        return Ok(0);
    }
    push_pair(text, number, one, two, marked)?;
    Ok(1)
}

/// Adds what is shown of the cards that both decks have, and returns how many of them differ.
fn push_both(
    text: &mut Vec<u8>,
    first: &[CardImage],
    second: &[CardImage],
) -> Result<usize, AllocError>
    ensures shown { OnOk result (text.new.items
        ≡ text.old.items ++ shown_from 1 first.now second.now) }
    ensures differing { IfOk result (λ count. count ≡ differing_among first.now second.now) }
    ensures few { IfOk result (λ count. count ≤ min (length first.now) (length second.now)) }
{
    let mut differing = 0;
    for index in 0..first.len().min(second.len()) {
        differing += push_shown(text, index + 1, &first[index], &second[index])?;
    }
    Ok(differing)
}

/// Adds what is shown of the cards that one deck has behind those of the other.
fn push_only(
    text: &mut Vec<u8>,
    words: &[u8],
    cards: &[CardImage],
    other: usize,
) -> Result<(), AllocError>
    ensures { OnOk result (text.new.items ≡ text.old.items
        ++ only_from words.now (other + 1) (drop other cards.now)) }
{
    for index in other..cards.len() {
        push_numbered(text, index + 1, &cards[index])?;
        text.extend_from_slice(words)?;
        text.push(b'\n')?;
    }
    Ok(())
}

/// What is said of so many cards that differ.
fn differ_words(differing: usize) -> &'static [u8]
    ensures { result.now ≡ (if differing == 1 then codes " differs" else codes " differ") }
{
    if differing == 1 {
        b" differs"
    } else {
        b" differ"
    }
}

/// Adds the last line.
fn push_sum(
    text: &mut Vec<u8>,
    first: usize,
    second: usize,
    differing: usize,
) -> Result<(), AllocError>
    ensures { OnOk result (text.new.items ≡ text.old.items ++ (codes "cards " ++ decimal first
        ++ codes " and " ++ decimal second ++ codes ", " ++ decimal differing
        ++ (if differing == 1 then codes " differs" else codes " differ") ++ 10 ∷ [])) }
{
    push_number_between(text, b"cards ", first, b" and ")?;
    push_decimal(text, second)?;
    push_number_between(text, b", ", differing, differ_words(differing))?;
    text.push(b'\n')?;
    Ok(())
}
