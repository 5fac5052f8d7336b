//! What is printed where a new file is not made of a bureau's, or of two.

use crate::faults::{tell_no_memory, tell_unopened};
use command_line::Status;
use job_archives::Compared;
use ledger_files::CopyFault;
use ledger_tables::{Fault, OpenFault};
use std::io;
use std::io::Write;

/// What a comparison by the rows of all tables found, or what hindered it; before it nothing.
pub(crate) type Found = Option<Result<Compared, Fault>>;

/// Why a new file was not filled.
#[derive(Drop)]
pub(crate) enum Unfilled<'a> {
    /// This customer, who was named, has no job in the bureau.
    Unknown(&'a str),
    /// This customer has jobs in both bureaus.
    Shared(String),
    /// There was no memory, or a file failed.
    Failed(Fault),
}

/// Why a new file was not filled, where putting jobs into it failed.
pub(crate) fn failed(put: Result<(), Fault>) -> Option<Unfilled<'static>> {
    match put {
        Ok(()) => None,
        Err(fault) => Some(Unfilled::Failed(fault)),
    }
}

/// A new file, which is made of others.
#[derive(Clone, Copy)]
pub(crate) struct Made<'a> {
    /// The path of the bureau's file, or of the first of two.
    pub(crate) file: &'a str,
    /// The path of the second of two, or that of the file again.
    pub(crate) second: &'a str,
    /// The path of the new file.
    pub(crate) new: &'a str,
}

/// Prints that a path cannot be that of a new file, and the way out.
fn tell_name<E: Write>(new: &str, words: &str, errors: &mut E) -> io::Result<Status> {
    writeln!(errors, "{new}: {words}; give the new file another name")?;
    Ok(Status::Unusable)
}

/// Prints why a new file cannot be made, and the way out.
pub(crate) fn tell_unmade<E: Write>(
    new: &str,
    fault: OpenFault,
    words: &str,
    errors: &mut E,
) -> io::Result<Status> {
    match fault {
        OpenFault::NoMemory => tell_no_memory(new, errors),
        _ => {
            writeln!(errors, "{new}: fault 2: {words}")?;
            Ok(Status::Unusable)
        }
    }
}

/// Prints what may say more of a new file: a check of each file that it is made of.
fn tell_checks<E: Write>(made: Made<'_>, errors: &mut E) -> io::Result<()> {
    let Made { file, second, .. } = made;
    write!(errors, "try operator check {file}")?;
    if second != file {
        write!(errors, " and operator check {second}")?;
    }
    writeln!(errors)
}

/// Prints a fault of a new file that may come of those that it is made of: that there is no memory,
/// or else these words, and what may say more.
fn tell_made<E: Write>(
    made: Made<'_>,
    fault: OpenFault,
    words: &str,
    errors: &mut E,
) -> io::Result<Status> {
    let new = made.new;
    match fault {
        OpenFault::NoMemory => tell_no_memory(new, errors),
        _ => {
            write!(errors, "{new}: fault 2: {words}")?;
            tell_checks(made, errors)?;
            Ok(Status::Unusable)
        }
    }
}

/// Prints that two paths are of one file, and the way out.
fn tell_one_file<E: Write>(made: Made<'_>, errors: &mut E) -> io::Result<Status> {
    let Made { file, second, .. } = made;
    writeln!(
        errors,
        "{second}: this is the file {file} itself; name another one"
    )?;
    Ok(Status::Unusable)
}

/// Prints why a new file was not filled, and the way out.
fn tell_unfilled<E: Write>(
    made: Made<'_>,
    unfilled: &Option<Unfilled<'_>>,
    errors: &mut E,
) -> io::Result<Status> {
    let Made { file, second, .. } = made;
    match unfilled {
        Some(Unfilled::Unknown(name)) => {
            writeln!(
                errors,
                "{file}: there is no job of {name}; `operator jobs {file}` lists them"
            )?;
            Ok(Status::NotDone)
        }
        Some(Unfilled::Shared(name)) => {
            writeln!(
                errors,
                "{second}: {name} has jobs here and in {file}; part them first: \
                 `operator part {second} NEW --others {name}`"
            )?;
            Ok(Status::NotDone)
        }
        Some(Unfilled::Failed(fault)) => tell_made(made, OpenFault::from(*fault), UNFILLED, errors),
        None => tell_made(made, OpenFault::Store, UNFILLED, errors),
    }
}

/// Prints why a new file was not found to be what it should be.
fn tell_difference<E: Write>(made: Made<'_>, found: &Found, errors: &mut E) -> io::Result<Status> {
    let new = made.new;
    match found {
        Some(
            Ok(
                Compared {
                    other: Some(table),
                    ..
                },
            ),
        ) => {
            let table = table.name();
            write!(
                errors,
                "{new}: the rows of {table} differ, so it is not kept; "
            )?;
            tell_checks(made, errors)?;
            Ok(Status::NotDone)
        }
        Some(Err(Fault::NoMemory)) => tell_no_memory(new, errors),
        _ => tell_made(made, OpenFault::Store, UNCOMPARED, errors),
    }
}

/// What is said where a new file cannot be made.
const UNMADE: &str = "no file can be made there: its folder is missing or may not be written to, \
                      or its disk is full; ls -ld and df show which";

/// What is said where a new file cannot get its name. It gets it by a hard link, since nothing that
/// is there may be replaced.
const LINKLESS: &str = "this disk knows no hard links, as an exFAT or FAT stick and many a share, \
                        so no file gets its name there; make it on another disk, and copy it";

/// What is said where a new file cannot be filled.
const UNFILLED: &str = "it cannot be filled: its disk is full, which df shows; or ";

/// What is said where a new file does not open: what it is made of was damaged where the opening of
/// that did not look, or a disk is.
const UNREAD: &str = "it was made and does not open, so it is not kept; ";

/// What is said where a new file cannot be compared.
const UNCOMPARED: &str = "it cannot be compared, so it is not kept; ";

/// Prints why a new file is not made, and the way out.
pub(crate) fn tell_copy_fault<E: Write>(
    rt: &HostRuntime,
    made: Made<'_>,
    fault: CopyFault,
    unfilled: &Option<Unfilled<'_>>,
    found: &Found,
    errors: &mut E,
) -> io::Result<Status> {
    let Made { file, second, new } = made;
    match fault {
        CopyFault::File(fault) => tell_unopened(rt, file, fault, errors),
        CopyFault::Second(fault) => tell_unopened(rt, second, fault, errors),
        CopyFault::OneFile => tell_one_file(made, errors),
        CopyFault::Name => tell_name(new, "this is the name of another file's log", errors),
        CopyFault::Taken => tell_name(
            new,
            "there is something of this name, or a log or a journal beside it",
            errors,
        ),
        CopyFault::Copy(fault) => tell_unmade(new, fault, UNMADE, errors),
        CopyFault::Linkless => tell_unmade(new, OpenFault::Store, LINKLESS, errors),
        CopyFault::NotFilled => tell_unfilled(made, unfilled, errors),
        CopyFault::Unread(fault) => tell_made(made, fault, UNREAD, errors),
        CopyFault::NotSame => tell_difference(made, found, errors),
    }
}

/// How many jobs a new file has, by its comparison.
pub(crate) fn jobs_found(found: &Found) -> usize {
    match found {
        Some(Ok(found)) => found.jobs,
        _ => 0,
    }
}
