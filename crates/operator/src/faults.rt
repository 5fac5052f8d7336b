//! What is printed of a bureau's file that cannot be used, and of what failed.

use command_line::Status;
use ledger_files::{Hindrance, find_hindrance};
use ledger_tables::OpenFault;
use std::io;
use std::io::Write;

/// Prints that there is no memory, and the way out.
pub(crate) fn tell_no_memory<E: Write>(path: &str, errors: &mut E) -> io::Result<Status> {
    let told = Hindrance::NoMemory;
    writeln!(errors, "{path}: fault 1: {told}")?;
    Ok(Status::NotDone)
}

/// Prints why a bureau's file was not opened, and the way out.
pub(crate) fn tell_unopened<E: Write>(
    rt: &HostRuntime,
    path: &str,
    fault: OpenFault,
    errors: &mut E,
) -> io::Result<Status> {
    if let OpenFault::NoMemory = fault {
        return tell_no_memory(path, errors);
    }
    let number = fault.number();
    let told = find_hindrance(rt, path, fault);
    writeln!(errors, "{path}: fault {number}: {told}")?;
    Ok(Status::Unusable)
}

/// The status of what was done. If it failed, the error is printed behind a name.
pub(crate) fn done_or_told<E: Write>(
    done: io::Result<Status>,
    name: &str,
    errors: &mut E,
) -> io::Result<Status> {
    match done {
        Ok(status) => Ok(status),
        Err(error) => {
            writeln!(errors, "{name}: {error}")?;
            Ok(Status::NotDone)
        }
    }
}

/// What a look into a bureau's tables found, or what hindered it.
pub(crate) fn found<T: Drop>(
    looked: Result<(), OpenFault>,
    found: Option<Result<T, OpenFault>>,
) -> Result<T, OpenFault> {
    looked?;
    found.ok_or(OpenFault::Store)?
}
