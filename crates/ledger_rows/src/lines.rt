//! Printed lines as rows.

ghost use Rattle.std.specs.Prelude.{◌≡◌, IfOk};
ghost use Rattle.ledger_rows.specs.Columns.{line_cells, IsLine};

use crate::codes::{read_codes, write_numbers};
use crate::from_cells::FromCells;
use bcd::Code;
use ledger_tables::LineRow;
use std::alloc::{AllocError, Global};
use units::{LINE_LENGTH, Line};

/// The bytes of a printed line, one for each character.
pub fn line_bytes(line: &Line) -> [u8; LINE_LENGTH]
    ensures bytes { result ≡ line.now.codes }
    ensures line { IsLine line.now }
{
    let _line = line.line;
    let mut bytes = [0; LINE_LENGTH];
    write_numbers(&line.codes, &mut bytes);
    bytes
}

/// Returns a printed line as a row. Fails only if there is no memory.
pub fn line_row(alloc: Global, line: &Line) -> Result<LineRow, AllocError>
    ensures row { IfOk result (λ row. row ≡ line_cells line.now) }
    ensures line { IfOk result (λ row. IsLine line.now) }
{
    Ok(LineRow {
        form: line.form,
        line: line.line as u32,
        image: Vec::from_slice(alloc, &line_bytes(line))?,
    })
}

impl FromCells<LineRow> for Line {
    ghost cells = { line_cells };

    ghost IsHeld = { IsLine };

    fn from_cells(row: &LineRow) -> Option<Line> {
        if row.image.len() != LINE_LENGTH {
            return None;
        }
        let mut codes = [Code::blank(); LINE_LENGTH];
        if !read_codes(&row.image, &mut codes) {
            return None;
        }
        let Ok(line) = u8::try_from(row.line) else {
            return None;
        };
        Some(Line {
            form: row.form,
            line,
            codes,
        })
    }
}
