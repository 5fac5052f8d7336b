//! Characters as zone and numeric part.

ghost use Rattle.std.specs.Prelude.{◌≡◌, ◌<◌, ◌≤◌, ℕ};
ghost use Rattle.bcd.specs.{Table.{zone_number}, declared.Zone.{Zone}};
ghost use Rattle.moves.specs.Characters.{part_of, of_parts, bare, IsOfParts};

use bcd::{Code, Zone};

/// The bits 8, 4, 2 and 1 of a character.
#[inline(always)]
pub fn part_of(code: Code) -> u8
    ensures part { result ≡ part_of code }
    ensures below { result < 16 }
{
    code.number() % 16
}

/// The character of a zone and a numeric part.
#[inline(always)]
pub fn of_parts(zone: Zone, part: u8) -> Code
    requires { part < 16 }
    ensures { result ≡ of_parts zone part }
{
    Code::from_number(16 * zone.bits() + part).unwrap()
}

/// A character without its zone.
#[inline(always)]
pub fn bare(code: Code) -> Code
    ensures { result ≡ bare code }
{
    of_parts(Zone::Bare, part_of(code))
}

/// The law of zones and numeric parts: the character made of a zone and a part is one of the 64,
/// and its zone and part are these two.
pub fn parts_are_read()
    ensures { (zone : Zone) (part : ℕ) → part < 16 → IsOfParts zone part (of_parts zone part) }
{}
