//! Making a new bureau's file of a part of the bureau whose file is at a path.

ghost use Rattle.std.specs.Prelude.{OnOk};
ghost use Rattle.sqlite.specs.{Held.{state}, State.{HasCleanDisk}, Tree.{Trees}};

use crate::copying::{Comparison, read_back};
use crate::new_files::{check_name, close_new, end, reserve};
use ledger_files::{CopyFault, Part, Place, Source, open_new};
use sqlite::{Alter, Connection, Unknown};
use std::alloc::Global;

/// What is put into a new bureau's file, whatever the stores are.
pub trait Filling {
    /// Writes into a new bureau, which has no jobs, what it is to have of the file's; both are
    /// open. The file is only read. Returns whether it is done; it keeps why not.
    fn fill<S: Alter, T: Alter>(
        &mut self,
        alloc: Global,
        file: &mut Connection<S>,
        new: &mut Connection<T>,
    ) -> bool
        ensures left { HasCleanDisk (state S.Store file.new) → (db : Trees)
            → (state S.Store file.new).may_leave db → (state S.Store file.old).may_leave db };
}

/// Fills a new bureau, and hands it on if that is done.
// It is over any store, so that `fill_part`, which names a store in files, makes one call only.
fn filled<S: Alter, T: Alter + Drop, P: Filling>(
    alloc: Global,
    file: &mut Connection<S>,
    mut new: Connection<T>,
    parting: &mut P,
) -> Option<Connection<T>> {
    if parting.fill(alloc, file, &mut new) {
        return Some(new);
    }
    None
}

/// Makes a bureau in an empty file, fills it and closes it, so that all of it is in this one file.
fn fill_part<S: Alter, P: Filling>(
    rt: &HostRuntime,
    file: &mut Connection<S>,
    part: &Place,
    parting: &mut P,
) -> Result<(), CopyFault> {
    let new = match open_new(rt, &part.file, Unknown) {
        Ok(new) => new,
        Err(fault) => return Err(CopyFault::Copy(fault)),
    };
    match filled(rt.alloc(), file, new, parting) {
        Some(new) => close_new(rt, part, new),
        None => Err(CopyFault::NotFilled),
    }
}

/// Makes the file of a part, and compares it with the file, which is open. Hands the file's store
/// back.
fn try_part<S: Alter + Drop, P: Filling + Comparison>(
    rt: &HostRuntime,
    file: Connection<S>,
    part: &Place,
    parting: &mut P,
) -> (Result<(), CopyFault>, S) {
    let mut file = file;
    match fill_part(rt, &mut file, part, parting) {
        Ok(()) => read_back(rt, file, part, parting),
        Err(fault) => (Err(fault), file.into_store()),
    }
}

/// Makes an empty file beside a path, for what is made of a bureau's file.
fn reserve_for(rt: &HostRuntime, source: &Source, new: &str) -> Result<Part, CopyFault> {
    let mode = source.mode(rt)?;
    reserve(rt, new, mode)
}

/// Makes a part of a bureau's file beside a path while the file is open, so that no other program
/// has it, and gives it its name if it is found to be the part. Hands the file's store back.
fn make_part<S: Alter + Drop, P: Filling + Comparison>(
    rt: &HostRuntime,
    source: &Source,
    file: Connection<S>,
    new: &str,
    parting: &mut P,
) -> (Result<u64, CopyFault>, S)
    ensures { OnOk result.0 (P.Comparison.found_same parting.new) }
{
    let part = match reserve_for(rt, source, new) {
        Ok(part) => part,
        Err(fault) => return (Err(fault), file.into_store()),
    };
    let (made, store) = try_part(rt, file, part.place(), parting);
    let is_same = parting.is_same();
    (end(rt, part, new, made, is_same), store)
}

/// Makes a new bureau's file at a path, of a part of the bureau whose file is at another path.
/// Returns how many bytes it has. It is made under another name beside its path, filled, closed,
/// opened again and compared, and gets its name only if it is found to be the part: so it is there
/// whole or not at all, even if the program is stopped. Whatever fails, the file and its log are
/// after it what they were, and nothing that was there is replaced.
pub fn part<P: Filling + Comparison>(
    rt: &HostRuntime,
    path: &str,
    new: &str,
    parting: &mut P,
) -> Result<u64, CopyFault>
    ensures { OnOk result (P.Comparison.found_same parting.new) }
{
    check_name(rt, new)?;
    match Source::open(rt, path) {
        Ok((source, file)) => {
            let (parted, store) = make_part(rt, &source, file, new, parting);
            source.release(rt, store);
            parted
        }
        Err(fault) => Err(CopyFault::File(fault)),
    }
}
