//! The instructions in a storage.

ghost use Rattle.std.specs.Prelude.{◌≡◌, ◌<◌, ◌≤◌, length, IfSome};

use crate::positions::FIRST_FREE;
use crate::statements::{Statement, statement_of};
use crate::stored::codes_from;
use addresses::Tagged;
use core_store::Core;

/// An instruction in a storage.
#[derive(Drop)]
pub(crate) struct Instruction {
    /// Its statement.
    pub(crate) statement: Statement,
    /// The glyph of its operation.
    pub(crate) operation: u8,
    /// The position behind it.
    pub(crate) end: u16,
}

/// Whether an address, if there is one, is below a size.
fn is_below(address: &Option<Tagged>, size: u16) -> bool {
    match address {
        None => true,
        Some(address) => address.base < size,
    }
}

/// The instruction at a position: its word ends before a mark, has a statement, and its addresses
/// are in the storage.
pub(crate) fn instruction_at<C: Core>(core: &C, position: u16) -> Option<Instruction>
    ensures { IfSome result (λ found. (position < found.end)
        × (found.end < length (C.cells core.now))) }
{
    if position < FIRST_FREE || position >= core.size() {
        return None;
    }
    let end = core.word_end(position)?;
    let count = end - position;
    let codes = codes_from(core, position, count);
    let statement = statement_of(&codes[..usize::from(count)])?;
    if !is_below(&statement.first, core.size()) || !is_below(&statement.second, core.size()) {
        return None;
    }
    Some(Instruction {
        statement,
        operation: core.get(position).glyph(),
        end,
    })
}

impl Instruction {
    /// Where control may go on, if the first address is to branch to and names no index location.
    pub(crate) fn target(&self) -> Option<u16> {
        let Some(first) = &self.statement.first else {
            return None;
        };
        if first.index.is_some() || !self.branches() {
            return None;
        }
        Some(first.base)
    }

    /// Whether the first address, where there is one, is to branch to.
    fn branches(&self) -> bool {
        match self.operation {
            b'B' | b'V' | b'1'..=b'7' | b'.' => true,
            b'/' => self.statement.second.is_some(),
            _ => false,
        }
    }

    /// Whether control goes to the first address alone.
    pub(crate) fn turns(&self) -> bool {
        match self.operation {
            b'B' => self.statement.name == *b"B    ",
            b'V' => false,
            _ => self.statement.first.is_some() && self.branches(),
        }
    }
}
