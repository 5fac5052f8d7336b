//! The table of the positions that are filled.

ghost use Rattle.std.specs.Prelude.{◌≡◌, [], length, None, is_some, slice_index_or, IfOk};
ghost use Rattle.autocoder_layout.specs.Tables.{IsTableOf, is_taken, filled_with, filled_table, cells_in};

use crate::cells::Cell;
use std::alloc::{AllocError, Global};

/// A table of `size` positions, none of them filled.
pub(crate) fn empty_table(alloc: Global, size: u16) -> Result<Vec<Option<Cell>>, AllocError>
    ensures empty { IfOk result (λ table. IsTableOf size table.items []) }
    ensures size { IfOk result (λ table. length table.items ≡ size) }
{
    let mut table = Vec::new(alloc);
    for _ in 0..size {
        table.push(None)?;
    }
    Ok(table)
}

/// Whether a position is filled.
fn is_taken_at(table: &[Option<Cell>], position: u32) -> bool
    ensures { result ≡ is_some (slice_index_or table.now position None) }
{
    let position = position as usize;
    if position < table.len() {
        table[position].is_some()
    } else {
        false
    }
}

/// Whether a position of one of the cells is filled.
pub(crate) fn is_taken(table: &[Option<Cell>], cells: &[Cell]) -> bool
    ensures { result ≡ is_taken table.now cells.now }
{
    cells.iter().any(|cell| is_taken_at(table, cell.position))
}

/// Fills a position, if it is not filled already.
fn fill_one(table: &mut [Option<Cell>], cell: Cell)
    ensures { table.new ≡ filled_with table.old cell }
{
    if is_taken_at(table, cell.position) {
        return;
    }
    let position = cell.position as usize;
    if position < table.len() {
        table[position] = Some(cell);
    }
}

/// Fills the positions of the cells, each if it is not filled already.
pub(crate) fn fill(table: &mut [Option<Cell>], cells: &[Cell])
    ensures { table.new ≡ filled_table table.old cells.now }
{
    for cell in cells {
        fill_one(table, *cell);
    }
}

/// The cells of a table, in order of position.
pub(crate) fn cells_in(alloc: Global, table: &[Option<Cell>]) -> Result<Vec<Cell>, AllocError>
    ensures { IfOk result (λ cells. cells.items ≡ cells_in table.now) }
{
    let mut cells = Vec::new(alloc);
    for entry in table {
        let Some(cell) = *entry else {
            continue;
        };
        cells.push(cell)?;
    }
    Ok(cells)
}
