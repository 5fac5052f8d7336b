//! Steps that are drawn by lot, with both kinds of storage.
//!
//! A drawn row is a case of `Steps`: an operation on two fields, and some more after it, in a
//! storage that is full of characters. The first two fields end near the beginning of the storage,
//! near its end, or close to each other, and have as many characters as 16, 32 and 64 lanes, or
//! about as many.

use crate::sheets::with_both;
use crate::steps::Steps;
use addresses::encode;
use core_store::LARGEST_SIZE;
use std::alloc::{AllocError, Global};
use std::test::Fail;

/// The operations that have two addresses, and work on the fields or the positions there.
const FIRST: &[u8] = b"ASC?!#MLZEDY,)";
/// The operations that need no address.
const NEXT: &[u8] = b"ASC?!MLZEDY/";
/// How many characters a field has before its last one.
const BEFORE: &[u16] = &[
    0, 1, 2, 5, 13, 14, 15, 16, 17, 30, 31, 32, 47, 48, 62, 63, 64, 65, 80, 129,
];
/// How many of a hundred characters have a mark, beside those that begin the two fields.
const MARKED: &[u16] = &[0, 0, 1, 4, 30];

/// Numbers that look random, each made from the one before.
#[derive(Drop)]
struct Draws(u64);

impl Draws {
    /// A number below `count`.
    fn below(&mut self, count: u64) -> u16 {
        let mixed = self.0.wrapping_mul(6_364_136_223_846_793_005);
        self.0 = mixed.wrapping_add(1_442_695_040_888_963_407);
        u16::try_from((self.0 >> 33) % count.max(1)).unwrap_or(0)
    }

    /// One of some numbers.
    fn number_of(&mut self, numbers: &[u16]) -> u16 {
        let place = self.below(numbers.len() as u64);
        numbers.get(place as usize).copied().unwrap_or(0)
    }

    /// One of some glyphs.
    fn glyph_of(&mut self, glyphs: &[u8]) -> char {
        let place = self.below(glyphs.len() as u64);
        glyphs.get(place as usize).copied().unwrap_or(b' ') as char
    }

    /// An address near the beginning of so many positions, near their end, or past 200.
    fn address(&mut self, positions: u16) -> u16 {
        self.number_of(&[0, 200, 200, positions.saturating_sub(80)])
            .saturating_add(self.below(80))
    }

    /// An address close to another one, or any.
    fn second_address(&mut self, positions: u16, first: u16) -> u16 {
        if self.below(2) == 0 {
            return self.address(positions);
        }
        let above = first.saturating_add(self.below(80));
        above.saturating_sub(40).min(positions.saturating_sub(1))
    }

    /// Where the field that ends at an address begins.
    fn first_of(&mut self, address: u16) -> u16 {
        address.saturating_sub(self.number_of(BEFORE))
    }

    /// The glyphs of a storage: numbers with some signs, the characters of a control field, what a
    /// suppression meets, or all.
    fn glyphs(&mut self) -> &'static [u8] {
        match self.below(6) {
            0..=2 => b"012345678901234567899999?AIJR!S",
            3 => b"0    ,.$*-&CR5?",
            4 => b"00000 ,,0 1?&",
            _ => b" 1234567890#@:>\"^/STUVWXYZ,%=\\+-JKLMNOPQR!$*];_&ABCDEFGHI?.)[<}",
        }
    }
}

/// What a storage is filled with: the glyphs, how many of a hundred are marked, and two positions
/// that are.
#[derive(Drop)]
struct Filling {
    glyphs: &'static [u8],
    marked: u16,
    first: u16,
    second: u16,
}

/// Adds a place of `Steps` with the characters from a position on.
fn push_characters(
    row: &mut String,
    draws: &mut Draws,
    filling: &Filling,
    from: u16,
    end: u16,
) -> Result<(), AllocError> {
    for position in from..end {
        let begins = position == filling.first || position == filling.second;
        if begins || draws.below(100) < filling.marked {
            row.push('~')?;
        }
        row.push(draws.glyph_of(filling.glyphs))?;
    }
    row.push('|')
}

/// The program of a row: the operation with its addresses, and some operations without.
fn push_program(
    row: &mut String,
    draws: &mut Draws,
    operation: u8,
    addresses: [u16; 2],
) -> Result<(), AllocError> {
    row.push('~')?;
    row.push(operation as char)?;
    for address in addresses {
        if address < LARGEST_SIZE {
            for code in encode(address) {
                row.push(code.glyph() as char)?;
            }
        }
    }
    for _ in 0..3 {
        row.push('~')?;
        row.push(draws.glyph_of(NEXT))?;
    }
    row.push_str("~|")
}

/// A drawn row that begins with an operation, of a storage of so many positions.
fn row(
    alloc: Global,
    draws: &mut Draws,
    positions: u16,
    operation: u8,
) -> Result<String, AllocError> {
    let a = draws.address(positions);
    let b = draws.second_address(positions, a);
    let filling = Filling {
        glyphs: draws.glyphs(),
        marked: draws.number_of(MARKED),
        first: draws.first_of(a),
        second: draws.first_of(b),
    };
    let steps = draws.number_of(&[1, 1, 2, 4]);
    let mut row = format!(in alloc; "{positions} positions, {steps} steps, A 0 B 0|")?;
    push_program(&mut row, draws, operation, [a, b])?;
    row.push_str("0 ")?;
    push_characters(&mut row, draws, &filling, 0, 320)?;
    let first = positions.saturating_sub(220);
    write!(&mut row, "{first} ")?;
    push_characters(&mut row, draws, &filling, first, positions)?;
    Ok(row)
}

/// Whether the steps of a drawn row end without a check. Fails if the two kinds of storage differ.
fn goes_on(alloc: Global, draws: &mut Draws, positions: u16, operation: u8) -> Result<bool, Fail> {
    let row = row(alloc, draws, positions, operation)?;
    let outcome = with_both::<Steps>(alloc, &row)?;
    if outcome.contains(" BUT ") {
        return Err(Fail::new(format_args!("{row} -> {outcome}")));
    }
    Ok(!outcome.starts_with("Check"))
}

/// Draws so many rows for each operation. Fails if the two kinds of storage differ, or if few rows
/// of an operation end without a check.
fn step_alike(alloc: Global, positions: u16, rows: u16) -> Result<(), Fail> {
    for operation in FIRST {
        let mut draws = Draws(u64::from(*operation));
        let mut done = 0u16;
        for _ in 0..rows {
            if goes_on(alloc, &mut draws, positions, *operation)? {
                done = done.saturating_add(1);
            }
        }
        if done < rows / 5 {
            return Err(Fail::new(format_args!("few steps of {operation}: {done}")));
        }
    }
    Ok(())
}

#[test]
fn both_storages_step_alike(rt: HostRuntime) -> Result<(), Fail> {
    step_alike(rt.alloc(), 1400, 50)
}

#[test]
fn larger_storages_step_alike(rt: HostRuntime) -> Result<(), Fail> {
    for positions in [2000, 4000, 8000, 12_000, 16_000] {
        step_alike(rt.alloc(), positions, 15)?;
    }
    Ok(())
}
