//! Rows of the tables, read as values.

ghost use Rattle.std.specs.Prelude.{◌≡◌, List, All, map, Some, IfOk, IfSome, IsSome};

use std::alloc::{AllocError, Global};

/// A value that a row of a table can hold.
pub trait FromCells<R>: Drop {
    // The row of a value.
    ghost cells: { Self → R };

    // Whether a row can hold the value.
    ghost IsHeld: { Self → Type 0 };

    /// Returns the value of this row, if it is the row of one.
    fn from_cells(row: &R) -> Option<Self>
        ensures all { (it : Self) → IsHeld it → row.now ≡ cells it → result ≡ Some it }
        ensures only { IfSome result (λ it. (cells it ≡ row.now) × IsHeld it) };
}

/// Returns the values of these rows, or `None` if a row is not the row of one. Fails only if there
/// is no memory.
pub fn read_rows<R, T: FromCells<R>>(
    alloc: Global,
    rows: &[R],
) -> Result<Option<Vec<T>>, AllocError>
    ensures all { IfOk result (λ read. (things : List T)
        → All T.IsHeld things → rows.now ≡ map T.cells things
        → IfSome read (λ made. made.items ≡ things) × IsSome read) }
    ensures only { IfOk result (λ read. IfSome read (λ made.
        (map T.cells made.items ≡ rows.now) × All T.IsHeld made.items)) }
{
    let mut things = Vec::with_capacity(alloc, rows.len())?;
    for row in rows {
        let Some(thing) = T::from_cells(row) else {
            return Ok(None);
        };
        things.push_reserved(thing);
    }
    Ok(Some(things))
}
