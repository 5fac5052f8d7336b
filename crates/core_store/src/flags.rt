//! Storage as a vector of cells: the simplest representation, used by tests and for comparison.

ghost use Rattle.std.specs.Prelude.{◌≡◌, ◌+◌, ◌<◌, ◌≤◌, ℕ, List, Bool, true, false, length, IfOk};

use crate::{Core, Size};
use bcd::Code;
use std::alloc::{AllocError, Global};
use std::marker::Model;
use std::simd::prelude::*;

/// A storage as a vector of pairs, a character and its word mark.
#[derive(Drop)]
pub struct FlagCore {
    cells: Vec<(Code, bool)>,
}

impl Model for FlagCore {
    ghost use Rattle.std.specs.Prelude.{ℕ, ◌≤◌, List, Bool, length};
    ghost use Rattle.core_store.specs.Storage.{largest_size};

    ghost Value = { List (ℕ × Bool) };

    ghost view = { λ a. a.cells.items };

    ghost invariant = { λ a. length a.cells.items ≤ largest_size };
}

impl Core for FlagCore {
    ghost cells = { λ core. core };

    fn blank(alloc: Global, size: Size) -> Result<Self, AllocError> {
        let cells = vec![in alloc; (Code::blank(), false); size.positions() as usize]?;
        Ok(FlagCore { cells })
    }

    fn copy_from(&mut self, other: &Self) {
        self.cells.copy_from_slice(&other.cells);
    }

    fn size(&self) -> u16 {
        self.cells.len() as u16
    }

    fn get(&self, position: u16) -> Code {
        self.cells[position as usize].0
    }

    fn get_after(&self, position: u16, count: u16) -> Code {
        self.cells[position as usize + count as usize].0
    }

    fn eight_codes(&self, position: u16) -> u64 {
        let mut codes = [0; 8];
        for place in 0..8 {
            codes[place as usize] = self.get_after(position, place).number();
        }
        u64::from_le_bytes(codes)
    }

    fn is_marked(&self, position: u16) -> bool {
        self.cells[position as usize].1
    }

    fn put(&mut self, position: u16, code: Code) {
        self.cells[position as usize].0 = code;
    }

    fn near_codes(&self, position: u16) -> u8x16 {
        let mut codes = [0; 16];
        for place in 0..16 {
            codes[place as usize] = self.get(position - 15 + place).number();
        }
        u8x16::from_array(codes)
    }

    fn put_near_codes(&mut self, position: u16, codes: u8x16) {
        let codes = codes.to_array();
        for place in (0..16).rev() {
            let code = Code::from_number(codes[place as usize]).unwrap();
            self.put(position - 15 + place, code);
        }
    }

    fn set_mark(&mut self, position: u16) {
        self.cells[position as usize].1 = true;
    }

    fn clear_mark(&mut self, position: u16) {
        self.cells[position as usize].1 = false;
    }

    fn move_codes(&mut self, from: u16, to: u16, count: u16) {
        for i in 0..count {
            let code = self.get(from - i);
            self.put(to - i, code);
        }
    }

    fn move_cells(&mut self, from: u16, to: u16, count: u16) {
        for i in 0..count {
            let cell = self.cells[(from - i) as usize];
            self.cells[(to - i) as usize] = cell;
        }
    }

    fn clear(&mut self, first: u16, last: u16) {
        for p in (first as usize..last as usize + 1).rev() {
            self.cells[p] = (Code::blank(), false);
        }
    }

    fn mark_at_or_below(&self, position: u16) -> Option<u16> {
        for p in (0..position as usize + 1).rev() {
            let p = p as u16;
            if self.is_marked(p) {
                return Some(p);
            }
        }
        None
    }

    fn near_length(&self, position: u16) -> u16 {
        for count in 0..16 {
            if self.is_marked(position - count) {
                return count + 1;
            }
        }
        17
    }

    fn shared_length(&self, a: u16, b: u16) -> Option<u16> {
        for count in 0..self.size() {
            if count > a.min(b) {
                return None;
            }
            if self.is_marked(a - count) || self.is_marked(b - count) {
                return Some(count + 1);
            }
        }
        None
    }

    fn nine_marks(&self, position: u16) -> u64 {
        let mut marks = 0;
        for place in (0..9).rev() {
            let (_, marked) = self.cells[position as usize + place];
            marks = 2 * marks + u64::from(marked);
        }
        marks
    }

    fn mark_after(&self, position: u16) -> Option<u16> {
        let size = self.size();
        let end = size.min(position + 9);
        for p in position + 1..end {
            if self.is_marked(p) {
                return Some(p);
            }
        }
        None
    }

    fn word_end(&self, position: u16) -> Option<u16> {
        if self.is_marked(position) {
            self.mark_after(position)
        } else {
            None
        }
    }
}
