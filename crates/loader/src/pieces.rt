//! The cards that load a program, one by one.

ghost use Rattle.std.specs.Prelude.{◌≡◌, ◌+◌, ◌<◌, ◌≤◌, ◌++◌, true, length, map, All};
ghost use Rattle.core_store.specs.Storage.{largest_size};
ghost use Rattle.cards.specs.Decks.{card_columns};
ghost use Rattle.loader.specs.{
  Stretches.{is_lawful, most_characters},
  Cards.{boot_card, moving, load_card, start_card},
};

use crate::columns::{Columns, INSTRUCTION_LENGTH};
use crate::places::punch_places;
use crate::stretches::MOST_CHARACTERS;
use autocoder_layout::Cell;
use cards::Card;

/// The columns of the boot card: it sets the marks that the cards after it need, and reads the
/// first of them.
const BOOT: &[u8] = b",008015,022029,036040,047054,061068,072)008015)022029)036036N0000001040";

/// Reads the next card, and continues at the instruction that moves its characters.
const READING: &[u8] = b"1040";

/// The last position that the last card clears: 080, the end of the read area.
const LAST_CLEARED: u16 = 80;

/// The card with which a machine without a program can begin.
#[tactic(auto, unfolding(crate::specs::Cards::boot_card))]
pub(crate) fn boot_card() -> Card
    ensures { result ≡ boot_card }
{
    let mut columns = Columns::blank();
    columns.punch_text(BOOT);
    columns.card()
}

/// Fills the next columns with the characters of a stretch.
fn punch_characters(columns: &mut Columns, stretch: &[Cell])
    requires { length columns.old + length stretch.now ≤ card_columns }
    ensures punched { columns.new ≡ columns.old ++ map (λ c. c.code) stretch.now }
    ensures length { length columns.new ≡ length columns.old + length stretch.now }
{
    for cell in stretch {
        columns.punch(&[cell.code]);
    }
}

/// Moves the characters of a stretch to their place, and marks the first of them.
#[tactic(auto, unfolding(crate::specs::Cards::last_position))]
fn punch_move(columns: &mut Columns, stretch: &[Cell])
    requires some { 0 < length stretch.now }
    requires limit { length stretch.now ≤ most_characters }
    requires below { All (λ c. c.position < largest_size) stretch.now }
    requires room { length columns.old + INSTRUCTION_LENGTH ≤ card_columns }
    ensures punched { columns.new ≡ columns.old ++ moving stretch.now }
    ensures length { length columns.new ≡ length columns.old + INSTRUCTION_LENGTH }
{
    let count = stretch.len();
    let last = stretch[count - 1].position;
    columns.punch_instruction(b'L', count as u16, last as u16);
}

/// The card that loads a stretch.
#[tactic(auto, unfolding(crate::specs::Cards::load_card))]
pub(crate) fn load_card(stretch: &[Cell]) -> Card
    requires some { 0 < length stretch.now }
    requires lawful { is_lawful stretch.now ≡ true }
    requires below { All (λ c. c.position < largest_size) stretch.now }
    ensures { result ≡ load_card stretch.now }
{
    let mut columns = Columns::blank();
    punch_characters(&mut columns, stretch);
    columns.skip_to(MOST_CHARACTERS);
    punch_move(&mut columns, stretch);
    punch_places(&mut columns, stretch);
    columns.punch_text(READING);
    columns.card()
}

/// The card that starts a program.
#[tactic(auto, unfolding(crate::specs::Cards::start_card))]
pub(crate) fn start_card(start: u16) -> Card
    requires { start < largest_size }
    ensures { result ≡ start_card start }
{
    let mut columns = Columns::blank();
    columns.skip_to(MOST_CHARACTERS);
    columns.punch_instruction(b'/', start, LAST_CLEARED);
    columns.card()
}
