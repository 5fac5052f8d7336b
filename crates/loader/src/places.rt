//! The three places for instructions that set and clear word marks.

ghost use Rattle.std.specs.{
  Prelude.{◌≡◌, ◌+◌, ◌-◌, ◌*◌, ◌<◌, ◌≤◌, ◌∷◌, [], ◌++◌, true, length, position, replicate, codes, All, IfSome, MatchOption},
  List.{concat},
};
ghost use Rattle.core_store.specs.Storage.{largest_size};
ghost use Rattle.cards.specs.Decks.{card_columns};
ghost use Rattle.loader.specs.{
  Stretches.{marks_of, is_lawful},
  Cards.{clearing, marking, filled_places, three, unused, instruction},
};

use crate::columns::{Columns, INSTRUCTION_LENGTH};
use crate::stretches::behind_first;
use autocoder_layout::Cell;

/// The number of places that a card has for such instructions.
const PLACES: usize = 3;

/// The instruction in a place that is not used.
const UNUSED: &[u8] = b"N000000";

/// The index of the first marked position in a list.
fn first_marked(cells: &[Cell]) -> Option<usize>
    ensures index { result ≡ position (λ c. c.marked) cells.now }
    ensures within { IfSome result (λ index. index < length cells.now) }
{
    cells.iter().position(|cell| cell.marked)
}

/// The first marked position of a list, and the positions after it.
fn next_mark(cells: &[Cell]) -> Option<(u16, &[Cell])>
    requires { All (λ c. c.position < largest_size) cells.now }
    ensures mark { MatchOption result (marks_of cells.now ≡ [])
        (λ next. marks_of cells.now ≡ next.0 ∷ marks_of next.1.now) }
    ensures below { IfSome result (λ next. next.0 < largest_size) }
    ensures behind { IfSome result (λ next. All (λ c. c.position < largest_size) next.1.now) }
    ensures fewer { IfSome result (λ next. length next.1.now < length cells.now) }
{
    let Some(index) = first_marked(cells) else {
        return None;
    };
    let (_, behind) = cells.split_at(index + 1);
    Some((cells[index].position as u16, behind))
}

/// The first two marked positions of a list, and the positions after them. If only one is left, it
/// is returned twice.
fn next_pair(cells: &[Cell]) -> Option<(u16, u16, &[Cell])>
    requires { All (λ c. c.position < largest_size) cells.now }
    ensures pair { MatchOption result (marks_of cells.now ≡ [])
        (λ next. marking (marks_of cells.now)
        ≡ instruction (codes ",") next.0 next.1 ∷ marking (marks_of next.2.now)) }
    ensures first { IfSome result (λ next. next.0 < largest_size) }
    ensures second { IfSome result (λ next. next.1 < largest_size) }
    ensures behind { IfSome result (λ next. All (λ c. c.position < largest_size) next.2.now) }
    ensures fewer { IfSome result (λ next. length next.2.now < length cells.now) }
{
    let Some((first, behind)) = next_mark(cells) else {
        return None;
    };
    let Some((second, rest)) = next_mark(behind) else {
        return Some((first, first, behind));
    };
    Some((first, second, rest))
}

/// Clears the mark of a first position that has none. Returns the number of places that this takes.
fn punch_clearing(columns: &mut Columns, stretch: &[Cell]) -> usize
    requires below { All (λ c. c.position < largest_size) stretch.now }
    requires room { length columns.old + INSTRUCTION_LENGTH ≤ card_columns }
    ensures punched { columns.new ≡ columns.old ++ concat (clearing stretch.now) }
    ensures length { length columns.new
        ≡ length columns.old + INSTRUCTION_LENGTH * length (clearing stretch.now) }
    ensures count { result ≡ length (clearing stretch.now) }
{
    let [first, ..] = stretch else {
        return 0;
    };
    if first.marked {
        return 0;
    }
    let position = first.position as u16;
    columns.punch_instruction(b')', position, position);
    1
}

/// Sets the marks of some positions, two in each place. Returns the number of places that this
/// takes.
fn punch_marking(columns: &mut Columns, cells: &[Cell]) -> usize
    requires below { All (λ c. c.position < largest_size) cells.now }
    requires room { length columns.old + INSTRUCTION_LENGTH * length (marking (marks_of cells.now))
        ≤ card_columns }
    ensures punched { columns.new ≡ columns.old ++ concat (marking (marks_of cells.now)) }
    ensures length { length columns.new
        ≡ length columns.old + INSTRUCTION_LENGTH * length (marking (marks_of cells.now)) }
    ensures count { result ≡ length (marking (marks_of cells.now)) }
{
    let mut count = 0;
    let mut rest = cells;
    while let Some((first, second, behind)) = next_pair(rest) {
        columns.punch_instruction(b',', first, second);
        rest = behind;
        count += 1;
    }
    count
}

/// Fills the places after the first `used` with the unused instruction.
fn punch_unused(columns: &mut Columns, used: usize)
    requires used { used ≤ PLACES }
    requires room { length columns.old + INSTRUCTION_LENGTH * (PLACES - used) ≤ card_columns }
    ensures punched { columns.new ≡ columns.old ++ concat (replicate (PLACES - used) unused) }
    ensures length { length columns.new
        ≡ length columns.old + INSTRUCTION_LENGTH * (PLACES - used) }
{
    for _ in used..PLACES {
        columns.punch_text(UNUSED);
    }
}

/// Fills the three places of a stretch.
pub(crate) fn punch_places(columns: &mut Columns, stretch: &[Cell])
    requires below { All (λ c. c.position < largest_size) stretch.now }
    requires lawful { is_lawful stretch.now ≡ true }
    requires room { length columns.old + INSTRUCTION_LENGTH * PLACES ≤ card_columns }
    ensures punched { columns.new ≡ columns.old ++ three (filled_places stretch.now) }
    ensures length { length columns.new ≡ length columns.old + INSTRUCTION_LENGTH * PLACES }
{
    let cleared = punch_clearing(columns, stretch);
    let marked = punch_marking(columns, behind_first(stretch));
    punch_unused(columns, cleared + marked);
}
