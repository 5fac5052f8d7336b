//! The 64 characters of the IBM 1401: their numbers, glyphs, punches and ranks.
//!
//! A character is six bits, B A 8 4 2 1. Its number is `32*B + 16*A` and the value of the bits 8 4
//! 2 1, which are its numeric part. The bits and the card codes are those of the IBM 1401 Reference
//! Manual (A24-1403); the glyphs of the rarer characters and the order of ranks are this project's.
//! No call takes memory.
//!
//! The contract for the layers above: the maps are those of `specs/Table.antt`, and no two of the
//! 64 characters have the same glyph, punches or rank.
#![tactic(auto)]

ghost use Rattle.std.specs.Prelude.{◌≡◌, ◌≢◌, ◌<◌, ◌≤◌, ◌↔◌, ℕ, IsSome, IsNone, IfSome};
ghost use Rattle.bcd.specs.Table.{glyph_of, rank_of, punches_of, digit_of, zone_of, zone_number, IsOneToOne};

use std::marker::Model;

/// One of the 64 characters, by its number.
#[derive(Clone, Copy, Debug, PartialEq, Eq)]
pub struct Code {
    number: u8,
}

impl Model for Code {
    ghost use Rattle.std.specs.Prelude.{ℕ, ◌<◌};

    ghost Value = { ℕ };

    ghost view = { λ c. c.number };

    ghost invariant = { λ c. c.number < 64 };

    ghost inverse = { λ n. record { number = n } };
}

/// The zone bits of a character.
#[derive(Clone, Copy, Debug, PartialEq, Eq)]
pub enum Zone {
    /// Neither zone bit.
    Bare,
    /// The A bit alone, punched in row 0.
    A,
    /// The B bit alone, punched in row 11; the sign of a minus field.
    B,
    /// Both bits, punched in row 12.
    AB,
}

impl Zone {
    /// The bits B and A as a number, 0 to 3.
    #[inline(always)]
    pub fn bits(self) -> u8
        ensures bits { result ≡ zone_number self }
        ensures most { result ≤ 3 }
    {
        match self {
            Zone::Bare => 0,
            Zone::A => 1,
            Zone::B => 2,
            Zone::AB => 3,
        }
    }
}

/// The glyphs in the order of their numbers.
const GLYPHS: [u8; 64] = *b" 1234567890#@:>\"^/STUVWXYZ|,%=\\+-JKLMNOPQR!$*];_&ABCDEFGHI?.)[<}";

/// The number of the character of each glyph, and 0 for every other byte.
const NUMBERS: [u8; 256] = [
    0, 0, 0, 0, 0, 0, 0, 0, 0, 0, 0, 0, 0, 0, 0, 0, 0, 0, 0, 0, 0, 0, 0, 0, 0, 0, 0, 0, 0, 0, 0, 0,
    0, 42, 15, 11, 43, 28, 48, 0, 0, 60, 44, 31, 27, 32, 59, 17, 10, 1, 2, 3, 4, 5, 6, 7, 8, 9, 13,
    46, 62, 29, 14, 58, 12, 49, 50, 51, 52, 53, 54, 55, 56, 57, 33, 34, 35, 36, 37, 38, 39, 40, 41,
    18, 19, 20, 21, 22, 23, 24, 25, 61, 30, 45, 16, 47, 0, 0, 0, 0, 0, 0, 0, 0, 0, 0, 0, 0, 0, 0,
    0, 0, 0, 0, 0, 0, 0, 0, 0, 0, 0, 0, 0, 0, 26, 63, 0, 0, 0, 0, 0, 0, 0, 0, 0, 0, 0, 0, 0, 0, 0,
    0, 0, 0, 0, 0, 0, 0, 0, 0, 0, 0, 0, 0, 0, 0, 0, 0, 0, 0, 0, 0, 0, 0, 0, 0, 0, 0, 0, 0, 0, 0, 0,
    0, 0, 0, 0, 0, 0, 0, 0, 0, 0, 0, 0, 0, 0, 0, 0, 0, 0, 0, 0, 0, 0, 0, 0, 0, 0, 0, 0, 0, 0, 0, 0,
    0, 0, 0, 0, 0, 0, 0, 0, 0, 0, 0, 0, 0, 0, 0, 0, 0, 0, 0, 0, 0, 0, 0, 0, 0, 0, 0, 0, 0, 0, 0, 0,
    0, 0, 0, 0, 0, 0, 0, 0, 0, 0, 0, 0, 0, 0, 0, 0, 0, 0, 0,
];

/// The place of each character in the order of comparison.
const RANKS: [u8; 64] = [
    0, 55, 56, 57, 58, 59, 60, 61, 62, 63, 54, 20, 21, 22, 23, 24, 19, 13, 46, 47, 48, 49, 50, 51,
    52, 53, 45, 14, 15, 16, 17, 18, 12, 36, 37, 38, 39, 40, 41, 42, 43, 44, 35, 7, 8, 9, 10, 11, 6,
    26, 27, 28, 29, 30, 31, 32, 33, 34, 25, 1, 2, 3, 4, 5,
];

/// The rows punched for each character, row 12 the highest of twelve bits.
const PUNCHES: [u16; 64] = [
    0x000, 0x100, 0x080, 0x040, 0x020, 0x010, 0x008, 0x004, 0x002, 0x001, 0x200, 0x042, 0x022,
    0x012, 0x00a, 0x006, 0x082, 0x300, 0x280, 0x240, 0x220, 0x210, 0x208, 0x204, 0x202, 0x201,
    0x282, 0x242, 0x222, 0x212, 0x20a, 0x206, 0x400, 0x500, 0x480, 0x440, 0x420, 0x410, 0x408,
    0x404, 0x402, 0x401, 0x600, 0x442, 0x422, 0x412, 0x40a, 0x406, 0x800, 0x900, 0x880, 0x840,
    0x820, 0x810, 0x808, 0x804, 0x802, 0x801, 0xa00, 0x842, 0x822, 0x812, 0x80a, 0x806,
];

impl Code {
    /// The blank: no bit, no punch, the lowest rank.
    pub fn blank() -> Self
        ensures { result ≡ 0 }
    {
        Code { number: 0 }
    }

    /// The character of a number, if the number is below 64.
    pub fn from_number(number: u8) -> Option<Self>
        ensures valid { IsSome result ↔ (number < 64) }
        ensures value { IfSome result (λ code. code ≡ number) }
    {
        if number < 64 {
            Some(Code { number })
        } else {
            None
        }
    }

    /// The character's number, 0 to 63.
    pub fn number(self) -> u8
        ensures same { result ≡ self }
        ensures below { result < 64 }
    {
        self.number
    }

    /// The zone bits.
    #[tactic(auto, unfolding(crate::specs::Table::zone_of))]
    pub fn zone(self) -> Zone
        ensures { result ≡ zone_of self }
    {
        match self.number / 16 {
            0 => Zone::Bare,
            1 => Zone::A,
            2 => Zone::B,
            _ => Zone::AB,
        }
    }

    /// The numeric value, 0 to 9. `None` for the numeric parts 11 to 15.
    #[tactic(auto, unfolding(crate::specs::Table::digit_of))]
    pub fn digit(self) -> Option<u8>
        ensures value { result ≡ digit_of self }
        ensures below { IfSome result (λ digit. digit < 10) }
    {
        match self.number % 16 {
            10 => Some(0),
            part @ 0..=9 => Some(part),
            _ => None,
        }
    }

    /// The ASCII character that represents it in decks and listings. The lozenge is `)` and the
    /// record mark is `|`.
    pub fn glyph(self) -> u8
        ensures { result ≡ glyph_of self }
    {
        GLYPHS[self.number as usize]
    }

    /// The character with this glyph, if there is one.
    pub fn from_glyph(glyph: u8) -> Option<Self>
        ensures found { IfSome result (λ code. glyph_of code ≡ glyph) }
        ensures below { IfSome result (λ code. code < 64) }
        ensures missing { IsNone result → (n : ℕ) → n < 64 → glyph_of n ≢ glyph }
    {
        let code = Code {
            number: NUMBERS[glyph as usize],
        };
        if code.glyph() == glyph {
            Some(code)
        } else {
            None
        }
    }

    /// The place in the order of comparison: 0 for the blank, the lowest, to 63 for `9`.
    pub fn rank(self) -> u8
        ensures rank { result ≡ rank_of self }
        ensures below { result < 64 }
    {
        RANKS[self.number as usize]
    }

    /// The rows punched in a column, row 12 the highest of twelve bits and row 9 the lowest.
    pub fn punches(self) -> u16
        ensures { result ≡ punches_of self }
    {
        PUNCHES[self.number as usize]
    }

    /// The character with these punches in its column, if there is one.
    pub fn of_punches(pattern: u16) -> Option<Self>
        ensures found { IfSome result (λ code. punches_of code ≡ pattern) }
        ensures below { IfSome result (λ code. code < 64) }
        ensures missing { IsNone result → (n : ℕ) → n < 64 → punches_of n ≢ pattern }
    {
        for number in 0..64 {
            let code = Code { number };
            if code.punches() == pattern {
                return Some(code);
            }
        }
        None
    }
}

/// The law of the tables: no two characters have the same glyph, punches or rank. Hence the ranks
/// are a total order, and a glyph or a pattern of punches is read as at most one character.
pub fn codes_differ()
    ensures glyphs { IsOneToOne glyph_of }
    ensures punches { IsOneToOne punches_of }
    ensures ranks { IsOneToOne rank_of }
{}
