//! Laws of all operations of the units.

ghost use Rattle.std.specs.Prelude.{◌≡◌, ℕ, length, Ok};
ghost use Rattle.core_store.specs.Storage.{Storage};
ghost use Rattle.units.specs.{
  declared.carriage.CarriageOrder.{CarriageOrder},
  declared.devices.Devices.{Devices},
  declared.pockets.Pocket.{Pocket},
  declared.units.Units.{Units},
  Carriages.{carriage_moved},
  Listing.{IsRising},
  Pockets.{pocket_chosen},
  Printed.{Printed},
  Ranges.{AreUnits, HasPrinted, OnlyAdds},
  Stacked.{Stacked},
  Units.{operated},
};

/// The law of the ranges: units in range stay in range after every operation and every order to the
/// carriage.
pub fn operating_stays_in_range()
    ensures operation { (devices : Devices) (s t : Storage) (u after : Units) → AreUnits u →
        operated devices s u ≡ Ok (t, after) → AreUnits after }
    ensures carriage { (order : CarriageOrder) (before : ℕ) (p after : Printed) →
        HasPrinted before p → carriage_moved order p ≡ Ok after → HasPrinted before after }
{}

/// The law of what was made: an operation keeps the deck, the switches, the profile, the counts of
/// what was made before, and the size of the storage. The cards and lines that it found are the
/// first of those that it leaves. An order to the carriage keeps all lines, a selection of a pocket
/// all cards and the profile.
pub fn operating_only_adds()
    ensures operation { (devices : Devices) (s t : Storage) (u after : Units) →
        operated devices s u ≡ Ok (t, after) → OnlyAdds u after }
    ensures storage { (devices : Devices) (s t : Storage) (u after : Units) →
        operated devices s u ≡ Ok (t, after) → length t ≡ length s }
    ensures carriage { (order : CarriageOrder) (p after : Printed) →
        carriage_moved order p ≡ Ok after → after.lines ≡ p.lines }
    ensures pocket { (pocket : Pocket) (p after : Stacked) → pocket_chosen pocket p ≡ Ok after →
        (after.cards ≡ p.cards) × (after.profile ≡ p.profile) }
{}

/// The law of the lines: the lines of a printer in range rise by form and line, so `render` returns
/// their listing.
pub fn lines_in_range_rise()
    ensures { (before : ℕ) (p : Printed) → HasPrinted before p → IsRising p.lines }
{}
