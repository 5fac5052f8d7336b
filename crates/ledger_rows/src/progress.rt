//! The progress of a machine, from four columns of its state.

ghost use Rattle.std.specs.Prelude.{◌≡◌, ◌≤◌, Some, ◌↔◌, IfSome, IsTrue};
ghost use Rattle.units.specs.Units.{most_cards, most_lines};
ghost use Rattle.machine.specs.{Ranges.{IsInRange}, Run.{State}};
ghost use Rattle.ledger_rows.specs.{
  Columns.{state_row},
  Progress.{progress_cells, progress_of, IsReached},
};
ghost use Rattle.ledger_tables.specs.Listed.{progress_row};

use crate::numbers::read_standing;
use core_store::LARGEST_SIZE;
use ledger_tables::ProgressRow;
use machine::Standing;
use units::{MOST_CARDS, MOST_LINES};

/// The progress of a machine: register I, its counts and its standing.
#[derive(Clone, Copy)]
pub struct Progress {
    pub standing: Standing,
    /// Register I: at a halt the address at which a start continues, at a check that of the
    /// instruction.
    pub i: u16,
    /// The number of cards punched.
    pub cards: u32,
    /// The number of lines printed.
    pub lines: u32,
}

/// Whether a machine can have made as many cards and lines as this row says.
fn can_be_made(row: &ProgressRow) -> bool
    ensures { IsTrue result ↔ (row.now.cards ≤ most_cards) × (row.now.lines ≤ most_lines) }
{
    row.cards as usize <= MOST_CARDS && row.lines as usize <= MOST_LINES
}

/// The progress in this row, if a machine may be at it.
pub fn read_progress(row: &ProgressRow) -> Option<Progress>
    ensures all { (it : Progress) → IsReached it → row.now ≡ progress_cells it
        → result ≡ Some it }
    ensures only { IfSome result (λ it. (progress_cells it ≡ row.now) × IsReached it) }
    ensures picture { (m : State) → IsInRange m
        → row.now ≡ progress_row (state_row m) → result ≡ Some (progress_of m) }
{
    let Ok(i) = u16::try_from(row.i) else {
        return None;
    };
    let Some(standing) = read_standing(row.standing) else {
        return None;
    };
    if i >= LARGEST_SIZE || !can_be_made(row) {
        return None;
    }
    Some(Progress {
        standing,
        i,
        cards: row.cards,
        lines: row.lines,
    })
}
