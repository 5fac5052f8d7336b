//! Storage as bytes.

ghost use Rattle.std.specs.Prelude.{◌≡◌, ◌≢◌, ◌+◌, ◌<◌, ◌≤◌, ◌↔◌, length, slice_set, IfOk, IfSome, IsSome, IsNone, IsTrue};
ghost use Rattle.core_store.specs.{
  Pages.{cells_of},
  Storage.{Storage, largest_size, positions_of},
  declared.sizes.Size.{Size},
};
ghost use Rattle.machine.specs.Ranges.{HasSize};
ghost use Rattle.ledger_rows.specs.{
  Columns.{byte_of, storage_bytes, HoldsCharacters},
  Pages.{AreCells, cell_of, with_bytes},
};

use bcd::Code;
use core_store::{Core, PlaneCore, Size};
use std::alloc::{AllocError, Global};

/// Added to the byte of a position if it is marked.
const MARK: u8 = 64;

/// The character at a position, and whether it is marked.
#[derive(Clone, Copy)]
pub(crate) struct Cell {
    pub(crate) code: Code,
    pub(crate) marked: bool,
}

/// The byte of a position.
pub(crate) fn cell_byte(cell: Cell) -> u8
    ensures { result ≡ byte_of (cell.code, cell.marked) }
{
    let number = cell.code.number();
    if cell.marked { MARK + number } else { number }
}

/// The cell of a byte, if the byte is one of a cell.
fn read_cell(byte: u8) -> Option<Cell>
    ensures is { IfSome result (λ cell. (cell.code, cell.marked) ≡ cell_of byte) }
    ensures below { IsSome result → byte < 128 }
    ensures none { IsNone result → 128 ≤ byte }
{
    let marked = byte >= MARK;
    let number = if marked { byte - MARK } else { byte };
    match Code::from_number(number) {
        Some(code) => Some(Cell { code, marked }),
        None => None,
    }
}

/// The size of a storage with this number of bytes, if there is one.
fn size_of(bytes: &[u8]) -> Option<Size>
    ensures found { IfSome result (λ size. positions_of size ≡ length bytes.now) }
    ensures missing { IsNone result → (size : Size) → positions_of size ≢ length bytes.now }
{
    let Ok(positions) = u32::try_from(bytes.len()) else {
        return None;
    };
    Size::of_positions(positions)
}

/// Writes a position.
fn put_cell<C: Core>(core: &mut C, position: u16, cell: Cell)
    requires { position < length (C.cells core.old) }
    ensures { C.cells core.new ≡ slice_set (C.cells core.old) position (cell.code, cell.marked) }
{
    core.put(position, cell.code);
    if cell.marked {
        core.set_mark(position);
    } else {
        core.clear_mark(position);
    }
}

/// Writes the cells of these bytes from a position on. Returns whether each byte is one of a cell.
pub(crate) fn put_cells<C: Core>(core: &mut C, first: u16, bytes: &[u8]) -> bool
    requires room { first + length bytes.now ≤ length (C.cells core.old) }
    requires limit { length (C.cells core.old) ≤ largest_size }
    ensures size { length (C.cells core.new) ≡ length (C.cells core.old) }
    ensures cells { IsTrue result ↔ AreCells bytes.now }
    ensures put { IsTrue result
        → C.cells core.new ≡ with_bytes (C.cells core.old) first bytes.now }
{
    for place in 0..bytes.len() {
        let Some(cell) = read_cell(bytes[place]) else {
            return false;
        };
        put_cell(core, first + place as u16, cell);
    }
    true
}

/// Returns the storage of these bytes, if they are a storage's. Fails only if there is no memory.
pub fn read_storage<C: Core>(alloc: Global, bytes: &[u8]) -> Result<Option<C>, AllocError>
    ensures all { IfOk result (λ read. (s : Storage) → HasSize s → HoldsCharacters s
        → bytes.now ≡ storage_bytes s → IfSome read (λ core. C.cells core ≡ s) × IsSome read) }
    ensures only { IfOk result (λ read. IfSome read
        (λ core. (storage_bytes (C.cells core) ≡ bytes.now) × HasSize (C.cells core)
        × HoldsCharacters (C.cells core))) }
{
    let Some(size) = size_of(bytes) else {
        return Ok(None);
    };
    let mut core = C::blank(alloc, size)?;
    if !put_cells(&mut core, 0, bytes) {
        return Ok(None);
    }
    Ok(Some(core))
}

/// The law of what storage holds: a character at each position.
pub fn storage_holds_characters(core: &PlaneCore)
    ensures { HoldsCharacters (cells_of core.now) }
{}
