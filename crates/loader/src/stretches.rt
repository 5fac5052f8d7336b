//! The stretches of an image: what one card carries.

ghost use Rattle.std.specs.Prelude.{◌≡◌, ◌+◌, ◌<◌, ◌≤◌, ◌==◌, ◌∷◌, true, length, count_by, take, drop};
ghost use Rattle.loader.specs.Stretches.{is_contiguous, mark_limit, is_lawful, stretches_of};

use autocoder_layout::Cell;

/// The greatest number of characters that a card carries.
pub const MOST_CHARACTERS: usize = 39;

/// The greatest number of marks after the first position that a card sets, if that position is
/// marked.
pub const MOST_MARKS: usize = 6;

/// The greatest number of marks after the first position that a card sets, if that position is
/// unmarked: one place is needed to clear its mark.
pub const MOST_MARKS_UNMARKED: usize = 4;

/// Whether a position is the one after another.
fn is_next(after: &Cell, before: &Cell) -> bool
    ensures { result ≡ (after.now.position == before.now.position + 1) }
{
    match after.position.checked_sub(1) {
        Some(previous) => before.position == previous,
        None => false,
    }
}

/// Whether each position is the one after the position before it.
fn is_contiguous(cells: &[Cell]) -> bool
    ensures { result ≡ is_contiguous cells.now }
{
    for index in 1..cells.len() {
        if !is_next(&cells[index], &cells[index - 1]) {
            return false;
        }
    }
    true
}

/// The positions after the first.
pub(crate) fn behind_first(cells: &[Cell]) -> &[Cell]
    ensures { result.now ≡ drop 1 cells.now }
{
    match cells {
        [] => cells,
        [_, behind @ ..] => behind,
    }
}

/// The number of marked positions.
fn count_marks(cells: &[Cell]) -> usize
    ensures { result ≡ count_by (λ c. c.marked) cells.now }
{
    cells.iter().filter(|cell| cell.marked).count()
}

/// The number of marks after the first position for which a card has places.
fn mark_limit(cells: &[Cell]) -> usize
    ensures { result ≡ mark_limit cells.now }
{
    match cells {
        [] => MOST_MARKS,
        [first, ..] => {
            if first.marked {
                MOST_MARKS
            } else {
                MOST_MARKS_UNMARKED
            }
        }
    }
}

/// Whether a card can carry these positions.
#[tactic(auto, unfolding(crate::specs::Stretches::is_lawful), using(crate::proofs::StretchLemmas::marks_counted))]
fn is_lawful(cells: &[Cell]) -> bool
    ensures { result ≡ is_lawful cells.now }
{
    is_contiguous(cells)
        && (cells.len() <= MOST_CHARACTERS && count_marks(behind_first(cells)) <= mark_limit(cells))
}

/// The number of these positions, from the first on, that one card carries: as many as it can.
pub(crate) fn longest(cells: &[Cell]) -> usize
    requires { 0 < length cells.now }
    ensures some { 0 < result }
    ensures within { result ≤ length cells.now }
    ensures lawful { is_lawful (take result cells.now) ≡ true }
    ensures split { stretches_of cells.now
        ≡ take result cells.now ∷ stretches_of (drop result cells.now) }
{
    for end in 1..cells.len() {
        if !is_lawful(&cells[..end + 1]) {
            return end;
        }
    }
    cells.len()
}
