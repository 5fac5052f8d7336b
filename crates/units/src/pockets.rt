//! The pockets of the punch.

ghost use Rattle.std.specs.Prelude.{◌≡◌};
ghost use Rattle.units.specs.Pockets.{pocket_of, pocket_number, chosen_after};

use bcd::Code;

/// The pocket into which a card is punched.
#[derive(Clone, Copy)]
pub enum Pocket {
    /// The pocket of the cards for which no other was chosen.
    Normal,
    /// Pocket 4.
    Four,
    /// Pocket 8.
    Eight,
}

impl Pocket {
    /// The pocket of a character: `4` and `8` name those; `1` and `2` name the normal one, which
    /// leaves the choice as it is. `None` for any other character.
    #[tactic(auto, unfolding(crate::specs::Pockets::pocket_of))]
    pub fn of_code(code: Code) -> Option<Pocket>
        ensures { result ≡ pocket_of code }
    {
        match code.glyph() {
            b'1' => Some(Pocket::Normal),
            b'2' => Some(Pocket::Normal),
            b'4' => Some(Pocket::Four),
            b'8' => Some(Pocket::Eight),
            _ => None,
        }
    }

    /// The pocket's number: 0 the normal one, 4 and 8.
    pub fn number(self) -> u32
        ensures { result ≡ pocket_number self }
    {
        match self {
            Pocket::Normal => 0,
            Pocket::Four => 4,
            Pocket::Eight => 8,
        }
    }

    /// The pocket that is chosen after this one is selected, where `old` was chosen before.
    pub(crate) fn chosen_after(self, old: Pocket) -> Pocket
        ensures { result ≡ chosen_after self old }
    {
        match self {
            Pocket::Normal => old,
            Pocket::Four => Pocket::Four,
            Pocket::Eight => Pocket::Eight,
        }
    }
}
