//! What differs between two frames.

ghost use Rattle.std.specs.Prelude.{◌≡◌, ◌<◌, ◌≤◌, ◌++◌, All, drop, length, OnOk};
ghost use Rattle.std.specs.List.{flat_map};
ghost use Rattle.core_store.specs.Storage.{cell_at};
ghost use Rattle.machine.specs.Run.{lines_of};
ghost use Rattle.films.specs.{
  Changes.{cell_items, is_same_cell, items_since, number_items},
  Frames.{cards_of, shown_of},
  Texts.{card_words, cell_text, cell_words, items_text, line_words, number_words},
};

use crate::numbers::{NUMBER_COUNT, numbers_of};
use crate::signs::{Surface, push_signs, sign};
use bcd::Code;
use core_store::Core;
use machine::Parts;
use std::alloc::AllocError;
use texts::{push_decimal, push_number_between};
use units::{Line, Punched};

/// The letters of a frame's numbers.
const LETTERS: [u8; NUMBER_COUNT] = *b"iabcotwfnrkxlq";

/// Adds the word for a number, if it is another one than before.
fn push_number(out: &mut Vec<u8>, place: usize, old: usize, new: usize) -> Result<(), AllocError>
    requires { place < 14 }
    ensures { OnOk result (out.new.items ≡ out.old.items ++ number_words place old new) }
{
    if old == new {
        return Ok(());
    }
    out.push(b' ')?;
    out.push(LETTERS[place])?;
    push_decimal(out, new)
}

/// Adds the words for the numbers that are others than before.
fn push_numbers(
    out: &mut Vec<u8>,
    old: &[usize; NUMBER_COUNT],
    new: &[usize; NUMBER_COUNT],
) -> Result<(), AllocError>
    ensures { OnOk result (out.new.items
        ≡ out.old.items ++ items_text (number_items old.now new.now)) }
{
    for place in 0..NUMBER_COUNT {
        push_number(out, place, old[place], new[place])?;
    }
    Ok(())
}

/// Adds the word for a printed line.
fn push_line(out: &mut Vec<u8>, line: &Line) -> Result<(), AllocError>
    ensures { OnOk result (out.new.items ≡ out.old.items ++ line_words line.now) }
{
    push_number_between(out, b" p", line.form as usize, b".")?;
    push_number_between(out, b"", line.line as usize, b":")?;
    push_signs(out, &line.codes, Surface::OnPaper)
}

/// Adds the words for printed lines.
fn push_lines(out: &mut Vec<u8>, lines: &[Line]) -> Result<(), AllocError>
    ensures { OnOk result (out.new.items ≡ out.old.items ++ flat_map line_words lines.now) }
{
    for line in lines {
        push_line(out, line)?;
    }
    Ok(())
}

/// Adds the word for a punched card.
fn push_card(out: &mut Vec<u8>, card: &Punched) -> Result<(), AllocError>
    ensures { OnOk result (out.new.items ≡ out.old.items ++ card_words card.now) }
{
    push_number_between(out, b" u", card.pocket.number() as usize, b":")?;
    push_signs(out, &card.card.0, Surface::OnCard)
}

/// Adds the words for punched cards.
fn push_cards(out: &mut Vec<u8>, cards: &[Punched]) -> Result<(), AllocError>
    ensures { OnOk result (out.new.items ≡ out.old.items ++ flat_map card_words cards.now) }
{
    for card in cards {
        push_card(out, card)?;
    }
    Ok(())
}

/// Whether two positions have the same character and both a mark or none.
fn is_same_cell(old: &(Code, bool), new: &(Code, bool)) -> bool
    ensures { result ≡ is_same_cell old.now new.now }
{
    old.0.number() == new.0.number() && (if old.1 { new.1 } else { !new.1 })
}

/// Adds the contents of a position.
fn push_contents(out: &mut Vec<u8>, cell: &(Code, bool)) -> Result<(), AllocError>
    ensures { OnOk result (out.new.items ≡ out.old.items ++ cell_text cell.now) }
{
    if cell.1 {
        out.push(b'\'')?;
    }
    out.push(sign(cell.0))?;
    Ok(())
}

/// Adds the word for a position, if its contents are others than before.
fn push_cell(
    out: &mut Vec<u8>,
    position: u16,
    old: &(Code, bool),
    new: &(Code, bool),
) -> Result<(), AllocError>
    ensures { OnOk result (out.new.items
        ≡ out.old.items ++ cell_words position old.now new.now) }
{
    if is_same_cell(old, new) {
        return Ok(());
    }
    push_number_between(out, b" ", position as usize, b":")?;
    push_contents(out, new)
}

/// The contents of a position.
fn cell_at<C: Core>(core: &C, position: u16) -> (Code, bool)
    requires { position < length (C.cells core.now) }
    ensures cell { result ≡ cell_at (C.cells core.now) position }
    ensures character { result.0 < 64 }
{
    (core.get(position), core.is_marked(position))
}

/// Adds the words for the positions whose contents are others than before.
fn push_cells<C: Core>(out: &mut Vec<u8>, old: &C, new: &C) -> Result<(), AllocError>
    requires { length (C.cells old.now) ≡ length (C.cells new.now) }
    ensures text { OnOk result (out.new.items
        ≡ out.old.items ++ items_text (cell_items (C.cells old.now) (C.cells new.now))) }
    ensures characters { OnOk result (All (λ cell. cell.0 < 64) (C.cells new.now)) }
{
    for position in 0..new.size() {
        let before = cell_at(old, position);
        let now = cell_at(new, position);
        push_cell(out, position, &before, &now)?;
    }
    Ok(())
}

/// What a film has shown of a machine beside its storage: its numbers, and so many of its lines and
/// cards.
#[derive(Clone, Copy)]
pub(crate) struct Shown {
    /// The numbers.
    pub(crate) numbers: [usize; NUMBER_COUNT],
    /// How many of the machine's own lines.
    pub(crate) lines: usize,
    /// How many of its own cards.
    pub(crate) cards: usize,
}

impl Shown {
    /// All that a machine has.
    pub(crate) fn of<C: Core>(parts: &Parts<C>) -> Shown
        ensures { result ≡ shown_of parts.now }
    {
        Shown {
            numbers: numbers_of(parts),
            lines: parts.units.printer.lines.len(),
            cards: parts.units.punch.cards.len(),
        }
    }
}

/// Adds the words for the positions of a machine whose contents are others than before.
fn push_storage<C: Core>(out: &mut Vec<u8>, storage: &C, parts: &Parts<C>) -> Result<(), AllocError>
    requires { length (C.cells storage.now) ≡ length parts.now.works.storage }
    ensures text { OnOk result (out.new.items ≡ out.old.items
        ++ items_text (cell_items (C.cells storage.now) parts.now.works.storage)) }
    ensures characters { OnOk result (All (λ cell. cell.0 < 64) parts.now.works.storage) }
{
    push_cells(out, storage, &parts.core)
}

/// The lines of a machine from this number on, from 0.
fn lines_from<C: Core>(parts: &Parts<C>, first: usize) -> &[Line]
    requires { first ≤ length (lines_of parts.now) }
    ensures { result.now ≡ drop first (lines_of parts.now) }
{
    &parts.units.printer.lines[first..]
}

/// The cards of a machine from this number on, from 0.
fn cards_from<C: Core>(parts: &Parts<C>, first: usize) -> &[Punched]
    requires { first ≤ length (cards_of parts.now) }
    ensures { result.now ≡ drop first (cards_of parts.now) }
{
    &parts.units.punch.cards[first..]
}

/// Adds the words for what a machine has that was not shown, and that its storage has in place of
/// this one.
pub(crate) fn push_items<C: Core>(
    out: &mut Vec<u8>,
    shown: &Shown,
    storage: &C,
    parts: &Parts<C>,
) -> Result<(), AllocError>
    requires size { length (C.cells storage.now) ≡ length parts.now.works.storage }
    requires lines { shown.now.lines ≤ length (lines_of parts.now) }
    requires cards { shown.now.cards ≤ length (cards_of parts.now) }
    ensures text { OnOk result (out.new.items ≡ out.old.items
        ++ items_text (items_since shown.now.numbers shown.now.lines shown.now.cards
        (C.cells storage.now) parts.now)) }
    ensures characters { OnOk result (All (λ cell. cell.0 < 64) parts.now.works.storage) }
{
    push_numbers(out, &shown.numbers, &numbers_of(parts))?;
    push_lines(out, lines_from(parts, shown.lines))?;
    push_cards(out, cards_from(parts, shown.cards))?;
    push_storage(out, storage, parts)
}
