//! Copying the bureau whose file is at a path into a new file, which is read back.

ghost use Rattle.std.specs.Prelude.{IsTrue, OnOk};

use crate::new_files::{check_name, close_new, end, open_part, release_part, reserve};
use ledger_files::{CopyFault, Part, Place, Source};
use sqlite::{Alter, Connection};

/// The comparison of a copy with its file, whatever the stores are. It keeps what it has found.
pub trait Comparison {
    // The copy was compared, and is the same as the file.
    ghost found_same: { Self → Type 0 };

    /// Compares a copy with the file, both of which are open, and hands both stores back, the
    /// file's first. It writes nothing.
    fn compare<S: Alter + Drop, T: Alter + Drop>(
        &mut self,
        file: Connection<S>,
        copy: Connection<T>,
    ) -> (S, T);

    /// Whether the copy was compared, and is the same as the file.
    fn is_same(&self) -> bool
        ensures { IsTrue result → found_same self.now };
}

/// Makes a copy beside a path, under a name that no other file has.
fn make_part(rt: &HostRuntime, source: &Source, new: &str) -> Result<Part, CopyFault> {
    let mode = source.mode(rt)?;
    let part = reserve(rt, new, mode)?;
    match source.copy_to(rt, part.place(), mode) {
        Ok(()) => Ok(part),
        Err(error) => {
            part.remove(rt);
            Err(CopyFault::of(&error))
        }
    }
}

/// Opens a copy that has a log as a bureau, and closes it, so that all of it is in its one file.
fn settle(rt: &HostRuntime, part: &Place) -> Result<(), CopyFault> {
    if part.log_length(rt).is_none() {
        return Ok(());
    }
    match open_part(rt, part) {
        Ok(copy) => close_new(rt, part, copy),
        Err(fault) => Err(fault),
    }
}

/// Compares a new file with the one that it was made of, which is open. The log that an open of the
/// new file makes is removed. Hands the store of the other back.
pub(crate) fn read_back<S: Alter + Drop, C: Comparison>(
    rt: &HostRuntime,
    file: Connection<S>,
    part: &Place,
    comparison: &mut C,
) -> (Result<(), CopyFault>, S) {
    match open_part(rt, part) {
        Ok(copy) => {
            let (store, copy) = comparison.compare(file, copy);
            release_part(rt, part, copy);
            (Ok(()), store)
        }
        Err(fault) => (Err(fault), file.into_store()),
    }
}

/// Makes one file of a copy, and compares it with the file, which is open. Hands the file's store
/// back.
fn try_part<S: Alter + Drop, C: Comparison>(
    rt: &HostRuntime,
    file: Connection<S>,
    part: &Place,
    comparison: &mut C,
) -> (Result<(), CopyFault>, S) {
    match settle(rt, part) {
        Ok(()) => read_back(rt, file, part, comparison),
        Err(fault) => (Err(fault), file.into_store()),
    }
}

/// Makes a copy of a bureau's file beside a path while the file is open, so that no other program
/// has it, and gives it its name if it is found to be the same. Hands the file's store back.
fn make_copy<S: Alter + Drop, C: Comparison>(
    rt: &HostRuntime,
    source: &Source,
    file: Connection<S>,
    new: &str,
    comparison: &mut C,
) -> (Result<u64, CopyFault>, S)
    ensures { OnOk result.0 (C.found_same comparison.new) }
{
    let part = match make_part(rt, source, new) {
        Ok(part) => part,
        Err(fault) => return (Err(fault), file.into_store()),
    };
    let (made, store) = try_part(rt, file, part.place(), comparison);
    let is_same = comparison.is_same();
    (end(rt, part, new, made, is_same), store)
}

/// Copies the bureau whose file is at a path, with its log, into one new file at another path.
/// Returns how many bytes that file has. The copy is made under another name beside it, opened and
/// compared, and gets its name only if it is found to be the same: so it is there whole or not
/// at all, even if the program is stopped. Whatever fails, the file and its log are after it what
/// they were, and nothing that was there is replaced.
pub fn copy<C: Comparison>(
    rt: &HostRuntime,
    path: &str,
    new: &str,
    comparison: &mut C,
) -> Result<u64, CopyFault>
    ensures { OnOk result (C.found_same comparison.new) }
{
    check_name(rt, new)?;
    match Source::open(rt, path) {
        Ok((source, file)) => {
            let (copied, store) = make_copy(rt, &source, file, new, comparison);
            source.release(rt, store);
            copied
        }
        Err(fault) => Err(CopyFault::File(fault)),
    }
}
