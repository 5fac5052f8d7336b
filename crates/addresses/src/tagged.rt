//! An address as a number and an index location.

ghost use Rattle.std.specs.Prelude.{◌≡◌, ◌<◌, ℕ, IfSome};
ghost use Rattle.core_store.specs.Storage.{largest_size};
ghost use Rattle.bcd.specs.Table.{zone_of};
ghost use Rattle.addresses.specs.{
  Addresses.{location_of, tagged, decoded},
  Effective.{units_position},
};

use crate::tables::{UNREADABLE, base};
use bcd::{Code, Zone};
use std::marker::Model;

/// The three index locations of storage, whose numbers are added to the addresses that name them.
#[derive(Clone, Copy, Debug, PartialEq, Eq)]
pub enum IndexLocation {
    /// 087-089, named by zone A.
    First,
    /// 092-094, named by zone B.
    Second,
    /// 097-099, named by zone AB.
    Third,
}

/// An address that was read: its base, always below 16000, and its index location.
#[derive(Clone, Copy, Debug, PartialEq, Eq)]
pub struct Tagged {
    /// The number spelled by its digits and by the zones of its first and third character.
    pub base: u16,
    /// The index location named by the zone of its second character.
    pub index: Option<IndexLocation>,
}

impl Model for Tagged {
    ghost use Rattle.std.specs.Prelude.{◌<◌};
    ghost use Rattle.core_store.specs.Storage.{largest_size};
    ghost use Rattle.addresses.specs.Addresses.{Tagged};

    ghost Value = { Tagged };

    ghost view = { λ address. record { base = address.base; index = address.index } };

    ghost invariant = { λ address. address.base < largest_size };

    ghost inverse = { λ address. record { base = address.base; index = address.index } };
}

impl IndexLocation {
    /// The position of its last character.
    pub fn units_position(self) -> u16
        ensures { result ≡ units_position self }
    {
        match self {
            IndexLocation::First => 89,
            IndexLocation::Second => 94,
            IndexLocation::Third => 99,
        }
    }

    /// The index location named by the zone of an address's second character.
    #[inline(always)]
    pub fn of_zone(zone: Zone) -> Option<IndexLocation>
        ensures { result ≡ location_of zone }
    {
        match zone {
            Zone::Bare => None,
            Zone::A => Some(IndexLocation::First),
            Zone::B => Some(IndexLocation::Second),
            Zone::AB => Some(IndexLocation::Third),
        }
    }
}

/// Reads three characters as an address. `None` if one of them has no numeric value.
#[tactic(auto, unfolding(crate::specs::Addresses::tagged))]
pub fn decode(codes: [Code; 3]) -> Option<Tagged>
    ensures address { result ≡ decoded codes }
    ensures below { IfSome result (λ address. address.base < largest_size) }
{
    let [first, second, third] = codes;
    let base = base(first, second, third);
    if base < UNREADABLE {
        Some(Tagged {
            base,
            index: IndexLocation::of_zone(second.zone()),
        })
    } else {
        None
    }
}
