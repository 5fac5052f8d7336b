//! Storage: a character and a word mark at each position, and the registers beside it.
//!
//! `Core` is the storage that the machine's instructions use. Its contract is the list of cells:
//! each call is an equation on that list by the definitions of `specs/Storage.antt`, so everything
//! built over a `Core` is proved once for every representation of the marks. `FlagCore` keeps the
//! list itself. `PlaneCore` keeps characters and marks apart, and finds marks faster. After `blank`
//! no call takes memory.
//!
//! What several operations share is here too: how far a field or a cut of characters reaches,
//! whether operands overlap, how registers are lowered (`specs/Operands.antt`), and how some of
//! sixteen characters are replaced.
//!
//! By [`nearest_marks`] the definitions of the nearest marks are the greatest marked position that
//! is not above another, and the least among a number of positions after it.
#![tactic(auto)]

mod checks;
mod flags;
mod lanes;
mod operands;
mod pages;
mod planes;
mod registers;
mod sizes;

ghost use Rattle.std.specs.{
  Prelude.{◌≡◌, ◌+◌, ◌-◌, ◌<◌, ◌≤◌, ℕ, All, List, Bool, true, false, length, replicate, None, IfOk, IfSome, if◌then◌else◌},
  Int.{w64, from_le_bytes},
  Simd.Lanes.{mask_l},
};
ghost use Rattle.core_store.specs.{
  Storage.{blank_cell, blank_storage, cells_ending, code_at, codes_ending, codes_from, is_marked, marks_from, put, put_cells, put_codes, with_mark, greatest_mark, largest_size, least_mark, GreatestMark, LeastMark, Storage, positions_of},
  Operands.{is_overlapping, near_length, shared_length},
};

use bcd::Code;
pub use checks::Check;
pub use flags::FlagCore;
pub use lanes::{last_of, replace_lanes};
pub use operands::{
    are_clear, are_inside, check_inside, cut_length, field_length, is_minus, overlaps,
};
pub use pages::{PAGE_SIZE, changed_pages};
pub use planes::PlaneCore;
pub use registers::{Compared, Registers, lower};
pub use sizes::Size;
use std::alloc::{AllocError, Global};
use std::simd::prelude::*;

/// The largest size of a storage, in positions. Every address is below this number.
pub const LARGEST_SIZE: u16 = 16000;

/// A storage of a fixed size: a character and a word mark at each position.
pub trait Core: Sized + Drop {
    /// The cells from position 0 on.
    ghost cells: { Self → List (ℕ × Bool) };

    /// Returns a storage in which every position is blank and unmarked. The only call that takes
    /// memory; fails only if there is none.
    fn blank(alloc: Global, size: Size) -> Result<Self, AllocError>
        ensures { IfOk result (λ core. cells core ≡ blank_storage (positions_of size)) };

    /// Makes this storage equal to another of its size.
    fn copy_from(&mut self, other: &Self)
        requires { length (cells self.old) ≡ length (cells other.now) }
        ensures { cells self.new ≡ cells other.now };

    /// The number of positions.
    fn size(&self) -> u16
        ensures size { result ≡ length (cells self.now) }
        ensures limit { result ≤ largest_size };

    /// The character at a position.
    fn get(&self, position: u16) -> Code
        requires { position < length (cells self.now) }
        ensures { result ≡ code_at (cells self.now) position };

    /// The character `count` positions after a position.
    fn get_after(&self, position: u16, count: u16) -> Code
        requires { position + count < length (cells self.now) }
        ensures { result ≡ code_at (cells self.now) (position + count) };

    /// The characters of eight positions as one number, that of the position itself lowest.
    fn eight_codes(&self, position: u16) -> u64
        requires { position + 8 ≤ length (cells self.now) }
        ensures codes { result ≡ from_le_bytes w64 (codes_from (cells self.now) position 8) }
        ensures below { All (λ code. code < 64) (codes_from (cells self.now) position 8) };

    /// Whether a position has a word mark.
    fn is_marked(&self, position: u16) -> bool
        requires { position < length (cells self.now) }
        ensures { result ≡ is_marked (cells self.now) position };

    /// Writes a character. The mark stays.
    fn put(&mut self, position: u16, code: Code)
        requires { position < length (cells self.old) }
        ensures { cells self.new ≡ put (cells self.old) position code };

    /// The sixteen characters that end at a position, the leftmost first.
    fn near_codes(&self, position: u16) -> u8x16
        requires within { position < length (cells self.now) }
        requires room { 15 ≤ position }
        ensures codes { result ≡ codes_ending (cells self.now) position 16 }
        ensures below { All (λ code. code < 64) result };

    /// Writes the sixteen characters that end at a position, the leftmost first. Marks stay.
    fn put_near_codes(&mut self, position: u16, codes: u8x16)
        requires within { position < length (cells self.old) }
        requires room { 15 ≤ position }
        requires sixteen { length codes ≡ 16 }
        requires below { All (λ code. code < 64) codes }
        ensures { cells self.new ≡ put_codes (cells self.old) (position - 15) codes };

    /// Sets a word mark. The character stays.
    fn set_mark(&mut self, position: u16)
        requires { position < length (cells self.old) }
        ensures { cells self.new ≡ with_mark (cells self.old) position true };

    /// Clears a word mark. The character stays.
    fn clear_mark(&mut self, position: u16)
        requires { position < length (cells self.old) }
        ensures { cells self.new ≡ with_mark (cells self.old) position false };

    /// Copies `count` characters, which end at one position, to those that end at another. Marks
    /// stay. No character is overwritten before it is copied.
    fn move_codes(&mut self, from: u16, to: u16, count: u16)
        requires from_in { from < length (cells self.old) }
        requires to_in { to < length (cells self.old) }
        requires from_room { count ≤ from + 1 }
        requires to_room { count ≤ to + 1 }
        requires apart { is_overlapping from to count ≡ false }
        ensures { cells self.new ≡ put_codes (cells self.old) (to + 1 - count)
            (codes_ending (cells self.old) from count) };

    /// Copies `count` characters with their marks, in the same way as `move_codes`.
    fn move_cells(&mut self, from: u16, to: u16, count: u16)
        requires from_in { from < length (cells self.old) }
        requires to_in { to < length (cells self.old) }
        requires from_room { count ≤ from + 1 }
        requires to_room { count ≤ to + 1 }
        requires apart { is_overlapping from to count ≡ false }
        ensures { cells self.new ≡ put_cells (cells self.old) (to + 1 - count)
            (cells_ending (cells self.old) from count) };

    /// Makes the positions from `first` to `last` blank, without marks.
    fn clear(&mut self, first: u16, last: u16)
        requires order { first ≤ last }
        requires inside { last < length (cells self.old) }
        ensures { cells self.new
            ≡ put_cells (cells self.old) first (replicate (last + 1 - first) blank_cell) };

    /// The greatest marked position at or below a position: the first one of the field that ends
    /// there.
    fn mark_at_or_below(&self, position: u16) -> Option<u16>
        requires { position < length (cells self.now) }
        ensures mark { result ≡ greatest_mark (cells self.now) position }
        ensures within { IfSome result (λ found. found ≤ position) };

    /// The number of characters from the nearest mark at or below a position up to that position,
    /// or 17 if none of the last sixteen characters is marked.
    fn near_length(&self, position: u16) -> u16
        requires within { position < length (cells self.now) }
        requires room { 15 ≤ position }
        ensures length { result ≡ near_length (cells self.now) position }
        ensures some { 1 ≤ result };

    /// The number of characters that two fields share: counted from A and from B side by side, up to
    /// the first mark in either. `None` if one of the two passes position 000 before.
    fn shared_length(&self, a: u16, b: u16) -> Option<u16>
        requires a_in { a < length (cells self.now) }
        requires b_in { b < length (cells self.now) }
        ensures length { result ≡ shared_length (cells self.now) a b };

    /// The word marks of nine positions as bits, that of the position itself lowest.
    fn nine_marks(&self, position: u16) -> u64
        requires { position + 16 ≤ length (cells self.now) }
        ensures { result ≡ mask_l (marks_from (cells self.now) position 9) };

    /// The least marked position among the next eight positions, at which an instruction ends.
    fn mark_after(&self, position: u16) -> Option<u16>
        requires { position < length (cells self.now) }
        ensures mark { result ≡ least_mark (cells self.now) (position + 1) 8 }
        ensures within { IfSome result (λ found. (position < found) × (found ≤ position + 8)
            × (found < length (cells self.now))) };

    /// The end of the word that begins at a position: its next mark, among the next eight
    /// positions. `None` if there is none, or if the position itself has no mark.
    fn word_end(&self, position: u16) -> Option<u16>
        requires { position < length (cells self.now) }
        ensures end { result ≡ (if is_marked (cells self.now) position
            then least_mark (cells self.now) (position + 1) 8 else None) }
        ensures within { IfSome result (λ found. (position < found) × (found ≤ position + 8)
            × (found < length (cells self.now))) };
}

/// The law of the two searches: the first returns the greatest mark that is not above the position,
/// the second the least mark among the positions searched. Each returns `None` only if there is
/// none.
pub fn nearest_marks()
    ensures greatest { (s : Storage) (p : ℕ) → GreatestMark s p (greatest_mark s p) }
    ensures least { (s : Storage) (p count : ℕ) → LeastMark s p count (least_mark s p count) }
{}
