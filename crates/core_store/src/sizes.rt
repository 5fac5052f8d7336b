//! The sizes of storage.

ghost use Rattle.std.specs.Prelude.{◌≡◌, ◌≢◌, ◌≤◌, IfSome, IfNone};
ghost use Rattle.core_store.specs.Storage.{positions_of, size_numbered, largest_size};

/// The sizes of storage that a machine may have.
#[derive(Clone, Copy, Debug, PartialEq, Eq)]
pub enum Size {
    Positions1400,
    Positions2000,
    Positions4000,
    Positions8000,
    Positions12000,
    Positions16000,
}

impl Size {
    /// The number of positions of the storage.
    pub fn positions(self) -> u16
        ensures positions { result ≡ positions_of self }
        ensures limit { result ≤ largest_size }
    {
        match self {
            Size::Positions1400 => 1400,
            Size::Positions2000 => 2000,
            Size::Positions4000 => 4000,
            Size::Positions8000 => 8000,
            Size::Positions12000 => 12_000,
            Size::Positions16000 => 16_000,
        }
    }

    /// The size with this number of positions, if there is one.
    pub fn of_positions(positions: u32) -> Option<Size>
        ensures size { result ≡ size_numbered positions }
        ensures found { IfSome result (λ size. positions_of size ≡ positions) }
        ensures missing { IfNone result ((size : Size) → positions_of size ≢ positions) }
    {
        match positions {
            1400 => Some(Size::Positions1400),
            2000 => Some(Size::Positions2000),
            4000 => Some(Size::Positions4000),
            8000 => Some(Size::Positions8000),
            12_000 => Some(Size::Positions12000),
            16_000 => Some(Size::Positions16000),
            _ => None,
        }
    }
}
