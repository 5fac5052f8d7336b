//! Pages of storage as rows.

ghost use Rattle.std.specs.Prelude.{◌≡◌, ◌<◌, ◌≤◌, ◌↔◌, All, bytes_eq, length, IsTrue};
ghost use Rattle.core_store.specs.{Pages.{page_count, page_size}, Storage.{largest_size}};
ghost use Rattle.ledger_tables.specs.Cells.{blank_bytes};
ghost use Rattle.ledger_rows.specs.Pages.{IsPageOf, page_bytes, with_page, with_pages};

use crate::storage::{Cell, cell_byte, put_cells};
use core_store::{Core, PAGE_SIZE};
use ledger_tables::PageRow;

/// The bytes of a page of storage.
pub fn page_bytes<C: Core>(core: &C, page: u16) -> [u8; 100]
    requires page { page < page_count (C.cells core.now) }
    requires limit { length (C.cells core.now) ≤ largest_size }
    ensures { result ≡ page_bytes (C.cells core.now) page }
{
    let first = page * PAGE_SIZE;
    let mut bytes = [0; 100];
    for place in 0..100u16 {
        let position = first + place;
        bytes[place as usize] = cell_byte(Cell {
            code: core.get(position),
            marked: core.is_marked(position),
        });
    }
    bytes
}

/// Whether the bytes of a page are those of blanks without marks.
pub fn is_blank_page(bytes: &[u8; 100]) -> bool
    ensures { result ≡ bytes_eq bytes.now blank_bytes }
{
    *bytes == [0; 100]
}

/// Whether a row has the number and the size of a page, of which there are so many.
fn names_page(row: &PageRow, count: u16) -> bool
    ensures { IsTrue result ↔ (row.now.page < count) × (length row.now.storage ≡ page_size) }
{
    row.page < u32::from(count) && row.storage.len() == PAGE_SIZE as usize
}

/// Writes the page of a row. Returns whether the row is that of a page.
fn put_page<C: Core>(core: &mut C, row: &PageRow) -> bool
    requires { length (C.cells core.old) ≤ largest_size }
    ensures size { length (C.cells core.new) ≡ length (C.cells core.old) }
    ensures is { IsTrue result ↔ IsPageOf (page_count (C.cells core.old)) row.now }
    ensures put { IsTrue result → C.cells core.new ≡ with_page (C.cells core.old) row.now }
{
    if !names_page(row, core.size() / PAGE_SIZE) {
        return false;
    }
    put_cells(core, row.page as u16 * PAGE_SIZE, &row.storage)
}

/// Writes the pages of these rows. Returns whether each row is that of a page.
pub(crate) fn put_pages<C: Core>(core: &mut C, rows: &[PageRow]) -> bool
    requires { length (C.cells core.old) ≤ largest_size }
    ensures size { length (C.cells core.new) ≡ length (C.cells core.old) }
    ensures are { IsTrue result ↔ All (IsPageOf (page_count (C.cells core.old))) rows.now }
    ensures put { IsTrue result → C.cells core.new ≡ with_pages (C.cells core.old) rows.now }
{
    for row in rows {
        if !put_page(core, row) {
            return false;
        }
    }
    true
}
