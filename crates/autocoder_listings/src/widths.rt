//! The widths of a listing with code.

ghost use Rattle.std.specs.Prelude.{◌≡◌};
ghost use Rattle.autocoder_listings.specs.Names.{users_on_line};

/// How wide a listing with code is.
#[derive(Clone, Copy, Debug, PartialEq, Eq)]
pub enum Width {
    /// The code stands behind the card, from column 93 on.
    Wide,
    /// The code stands below the card.
    Narrow,
}

impl Width {
    /// How many cards that use a name stand on a line.
    pub(crate) fn users_on_line(self) -> usize
        ensures { result ≡ users_on_line self }
    {
        match self {
            Width::Wide => 20,
            Width::Narrow => 10,
        }
    }
}
