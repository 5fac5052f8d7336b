//! Making one new bureau's file of the two whose files are at two paths.

ghost use Rattle.std.specs.Prelude.{IsTrue, OnOk};
ghost use Rattle.sqlite.specs.{Held.{state}, State.{HasCleanDisk}, Tree.{Trees}};

use crate::new_files::{check_name, close_new, end, open_part, release_part, reserve};
use ledger_files::{CopyFault, Kept, Part, Place, Source, are_one_file, open_new};
use sqlite::{Alter, Connection, Unknown};
use std::alloc::Global;

/// The filling of a new bureau with the jobs of two others, and its comparison with these, whatever
/// the stores are. It keeps what it has found.
pub trait Joining {
    // The new bureau was compared, and is what the two make.
    ghost found_joined: { Self → Type 0 };

    /// Writes the jobs of two bureaus into a new one, which has no jobs; all three are open. The
    /// two are only read. Returns whether it is done; it keeps why not.
    fn fill<S: Alter, T: Alter, U: Alter>(
        &mut self,
        alloc: Global,
        first: &mut Connection<S>,
        second: &mut Connection<T>,
        new: &mut Connection<U>,
    ) -> bool
        ensures left { HasCleanDisk (state S.Store first.new) → (db : Trees)
            → (state S.Store first.new).may_leave db → (state S.Store first.old).may_leave db }
        ensures second_left { HasCleanDisk (state T.Store second.new) → (db : Trees)
            → (state T.Store second.new).may_leave db
            → (state T.Store second.old).may_leave db };

    /// Compares the new bureau with the two, all of which are open, and hands the stores back in
    /// this order: the first one's, the second one's and the new one's. It writes nothing.
    fn compare<S: Alter + Drop, T: Alter + Drop, U: Alter + Drop>(
        &mut self,
        first: Connection<S>,
        second: Connection<T>,
        joined: Connection<U>,
    ) -> (S, T, U);

    /// Whether the new bureau was compared, and is what the two make.
    fn is_joined(&self) -> bool
        ensures { IsTrue result → found_joined self.now };
}

/// Fills a new bureau, and hands it on if that is done.
// It is over any store, so that `fill_part`, which names a store in files, makes one call only.
fn filled<S: Alter, T: Alter, U: Alter + Drop, J: Joining>(
    alloc: Global,
    first: &mut Connection<S>,
    second: &mut Connection<T>,
    mut new: Connection<U>,
    joining: &mut J,
) -> Option<Connection<U>> {
    if joining.fill(alloc, first, second, &mut new) {
        return Some(new);
    }
    None
}

/// Makes a bureau in an empty file, fills it and closes it, so that all of it is in this one file.
fn fill_part<S: Alter, T: Alter, J: Joining>(
    rt: &HostRuntime,
    first: &mut Connection<S>,
    second: &mut Connection<T>,
    part: &Place,
    joining: &mut J,
) -> Result<(), CopyFault> {
    let new = match open_new(rt, &part.file, Unknown) {
        Ok(new) => new,
        Err(fault) => return Err(CopyFault::Copy(fault)),
    };
    match filled(rt.alloc(), first, second, new, joining) {
        Some(new) => close_new(rt, part, new),
        None => Err(CopyFault::NotFilled),
    }
}

/// Compares a new file with the two, which are open. The log that an open of the new file makes is
/// removed. Hands the stores of the two back.
fn read_joined<S: Alter + Drop, T: Alter + Drop, J: Joining>(
    rt: &HostRuntime,
    first: Connection<S>,
    second: Connection<T>,
    part: &Place,
    joining: &mut J,
) -> (Result<(), CopyFault>, S, T) {
    match open_part(rt, part) {
        Ok(joined) => {
            let (store, other, joined) = joining.compare(first, second, joined);
            release_part(rt, part, joined);
            (Ok(()), store, other)
        }
        Err(fault) => (Err(fault), first.into_store(), second.into_store()),
    }
}

/// Makes the new file, and compares it with the two, which are open. Hands their stores back.
fn try_part<S: Alter + Drop, T: Alter + Drop, J: Joining>(
    rt: &HostRuntime,
    first: Connection<S>,
    second: Connection<T>,
    part: &Place,
    joining: &mut J,
) -> (Result<(), CopyFault>, S, T) {
    let mut first = first;
    let mut second = second;
    match fill_part(rt, &mut first, &mut second, part, joining) {
        Ok(()) => read_joined(rt, first, second, part, joining),
        Err(fault) => (Err(fault), first.into_store(), second.into_store()),
    }
}

/// Makes an empty file beside a path. Those may read and write it who may do so with both files.
fn reserve_for(
    rt: &HostRuntime,
    first: &Source,
    second: &Source,
    new: &str,
) -> Result<Part, CopyFault> {
    let mode = first.mode(rt)? & second.mode(rt)?;
    reserve(rt, new, mode)
}

/// Joins two bureaus' files beside a path while both are open, so that no other program has them,
/// and gives the new file its name if it is found to be what they make. Hands their stores back.
// Both have one type of store: for two, `join`, which names stores in files, gets no proof, since the
// prover runs out of steps.
fn make_join<S: Alter + Drop, J: Joining>(
    rt: &HostRuntime,
    first: (&Source, Connection<S>),
    second: (&Source, Connection<S>),
    new: &str,
    joining: &mut J,
) -> (Result<u64, CopyFault>, S, S)
    ensures { OnOk result.0 (J.found_joined joining.new) }
{
    let part = match reserve_for(rt, first.0, second.0, new) {
        Ok(part) => part,
        Err(fault) => return (Err(fault), first.1.into_store(), second.1.into_store()),
    };
    let (made, store, other) = try_part(rt, first.1, second.1, part.place(), joining);
    let is_joined = joining.is_joined();
    (end(rt, part, new, made, is_joined), store, other)
}

/// Makes a new bureau's file at a path, with the jobs of the two bureaus whose files are at two
/// other paths. Returns how many bytes it has. It is made under another name beside its path,
/// filled, closed, opened again and compared, and gets its name only if it is found to be what the
/// two make: so it is there whole or not at all, even if the program is stopped. Whatever fails, the
/// two files and their logs are after it what they were, and nothing that was there is replaced.
pub fn join<J: Joining>(
    rt: &HostRuntime,
    first: &str,
    second: &str,
    new: &str,
    joining: &mut J,
) -> Result<u64, CopyFault>
    ensures { OnOk result (J.found_joined joining.new) }
{
    check_name(rt, new)?;
    if are_one_file(rt, first, second) {
        return Err(CopyFault::OneFile);
    }
    let (first, file) = match Source::open(rt, first) {
        Ok(opened) => opened,
        Err(fault) => return Err(CopyFault::File(fault)),
    };
    match Source::open(rt, second) {
        Ok((second, other)) => {
            let (made, store, other) = make_join(
                rt,
                (&first, file),
                (&second, other),
                new,
                joining,
            );
            second.release(rt, other);
            first.release(rt, store);
            made
        }
        Err(fault) => {
            first.release_kept(rt, Kept::Connection(file));
            Err(CopyFault::Second(fault))
        }
    }
}
