//! Writing the pages of a job's storage.

ghost use Rattle.std.specs.Prelude.{◌≡◌, Some, length, IfOk};
ghost use Rattle.core_store.specs.{Pages.{cells_of}, Storage.{blank_storage}};
ghost use Rattle.machine.specs.Ranges.{HasSize};
ghost use Rattle.ledger_tables.specs.{
  Named.{with_page_of},
  Cells.{unless_blank},
  Steps.{ChangesAny, IsStep},
};
ghost use Rattle.ledger.specs.Saving.{HasNoPages, HasPageOf, HasPages, with_storage};

use core_store::{Core, PlaneCore, Size, changed_pages};
use ledger_rows::{is_blank_page, page_bytes};
use ledger_tables::{Fault, OpenTables};
use sqlite::Alter;
use std::alloc::{AllocError, Global};
use texts::JobName;

/// Writes a page that had the earlier bytes: its row, or none if it is blank.
fn write_page<S: Alter>(
    tables: &mut OpenTables<'_, '_, S>,
    name: JobName<'_>,
    page: u32,
    earlier: &[u8; 100],
    bytes: &[u8; 100],
) -> Result<(), Fault>
    ensures step { IsStep S.Store tables.old tables.new result }
    ensures written { ChangesAny S.Store tables.old tables.new result
        (HasPageOf name.entry page earlier.now)
        (with_page_of name.entry page (unless_blank (Some bytes.now))) }
{
    if is_blank_page(bytes) {
        tables.clear_page(name, page)
    } else if is_blank_page(earlier) {
        tables.insert_page(name, page, bytes)
    } else {
        tables.replace_page(name, page, bytes)
    }
}

/// Writes the pages of a job's storage that are no longer as they were.
pub fn save_pages<S: Alter>(
    tables: &mut OpenTables<'_, '_, S>,
    name: JobName<'_>,
    earlier: &PlaneCore,
    core: &PlaneCore,
) -> Result<(), Fault>
    requires { length (cells_of earlier.now) ≡ length (cells_of core.now) }
    ensures step { IsStep S.Store tables.old tables.new result }
    ensures saved { ChangesAny S.Store tables.old tables.new result
        (HasPages name.entry (cells_of earlier.now)) (with_storage name.entry (cells_of core.now)) }
{
    let changed = changed_pages(tables.alloc, earlier, core)?;
    for place in 0..changed.len() {
        let page = changed[place];
        let before = page_bytes(earlier, page);
        let bytes = page_bytes(core, page);
        write_page(tables, name, u32::from(page), &before, &bytes)?;
    }
    Ok(())
}

/// A blank storage of the size of this one.
fn blank_like(alloc: Global, core: &PlaneCore) -> Result<PlaneCore, AllocError>
    requires { HasSize (cells_of core.now) }
    ensures { IfOk result
        (λ blank. cells_of blank ≡ blank_storage (length (cells_of core.now))) }
{
    match Size::of_positions(u32::from(core.size())) {
        Some(size) => PlaneCore::blank(alloc, size),
        None => unreachable!(),
    }
}

/// A copy of a storage.
pub fn copy_of(alloc: Global, core: &PlaneCore) -> Result<PlaneCore, AllocError>
    requires { HasSize (cells_of core.now) }
    ensures { IfOk result (λ copy. cells_of copy ≡ cells_of core.now) }
{
    let mut copy = blank_like(alloc, core)?;
    copy.copy_from(core);
    Ok(copy)
}

/// Inserts the pages of a job's storage that are not blank, if it has none yet.
pub fn insert_pages<S: Alter>(
    tables: &mut OpenTables<'_, '_, S>,
    name: JobName<'_>,
    core: &PlaneCore,
) -> Result<(), Fault>
    requires { HasSize (cells_of core.now) }
    ensures step { IsStep S.Store tables.old tables.new result }
    ensures added { ChangesAny S.Store tables.old tables.new result
        (HasNoPages name.entry) (with_storage name.entry (cells_of core.now)) }
{
    let blank = blank_like(tables.alloc, core)?;
    save_pages(tables, name, &blank, core)
}
