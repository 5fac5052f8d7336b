//! The image of a program beside a storage.

ghost use Rattle.std.specs.Prelude.{◌≡◌, ◌<◌, ◌≤◌, ◌↔◌, All, length, slice_set, IfOk, IsTrue};
ghost use Rattle.core_store.specs.Storage.{blank_storage, cell_at, largest_size, positions_of, with_mark};
ghost use Rattle.loader.specs.Loading.{filled_with};
ghost use Rattle.disassembly.specs.Sources.{HaveSameCode, IsImageOf};

use crate::positions::FIRST_FREE;
use autocoder::Program;
use autocoder_layout::Cell;
use core_store::{Core, FlagCore, Size};
use moves::put_mark;
use std::alloc::{AllocError, Global};

/// Fills a position of a storage.
fn fill<C: Core>(core: &mut C, cell: &Cell)
    requires within { cell.now.position < length (C.cells core.old) }
    requires size { length (C.cells core.old) ≤ largest_size }
    ensures { C.cells core.new ≡ slice_set (C.cells core.old) cell.now.position
        (cell.now.code, cell.now.marked) }
{
    let position = cell.position as u16;
    core.put(position, cell.code);
    put_mark(core, position, cell.marked);
}

/// A storage with an image in it, blank else.
fn filled<C: Core>(alloc: Global, size: Size, image: &[Cell]) -> Result<C, AllocError>
    requires { All (λ c. c.position < positions_of size) image.now }
    ensures image { IfOk result (λ core. C.cells core
        ≡ filled_with (blank_storage (positions_of size)) image.now) }
    ensures size { IfOk result (λ core. length (C.cells core) ≡ positions_of size) }
{
    let mut core = C::blank(alloc, size)?;
    for cell in image {
        fill(&mut core, cell);
    }
    Ok(core)
}

/// Whether two storages have the same character and the same mark at a position.
fn is_same_at<C: Core, D: Core>(core: &C, other: &D, position: u16) -> bool
    requires inside { position < length (C.cells core.now) }
    requires within { position < length (D.cells other.now) }
    ensures { IsTrue result ↔
        (cell_at (D.cells other.now) position ≡ cell_at (C.cells core.now) position) }
{
    core.get(position) == other.get(position)
        && core.is_marked(position) == other.is_marked(position)
}

/// Whether two storages have the same characters and marks from the first position on that a source
/// may fill.
fn have_same_code<C: Core, D: Core>(core: &C, other: &D) -> bool
    requires { length (D.cells other.now) ≡ length (C.cells core.now) }
    ensures { IsTrue result ↔ HaveSameCode (C.cells core.now) (D.cells other.now) }
{
    for position in FIRST_FREE..core.size() {
        if !is_same_at(core, other, position) {
            return false;
        }
    }
    true
}

/// Whether the image of a program is in a storage.
pub(crate) fn is_code<C: Core>(
    alloc: Global,
    core: &C,
    program: &Program,
) -> Result<bool, AllocError>
    ensures { IfOk result (λ is_same. IsTrue is_same ↔ IsImageOf (C.cells core.now)
        (positions_of program.now.size) program.now.image) }
{
    if program.size().positions() != core.size() {
        return Ok(false);
    }
    let other: FlagCore = filled(alloc, program.size(), program.image())?;
    Ok(have_same_code(core, &other))
}
