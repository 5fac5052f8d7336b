//! The subcommand `part`.

use crate::copy_faults::{Unfilled, failed};
use crate::copying::{Copied, RowComparison};
use command_line::Status;
use file_copies::{Filling, part};
use job_archives::{Customers, copy_jobs, first_unknown};
use ledger_tables::Fault;
use sqlite::{Alter, Connection};
use std::alloc::Global;
use std::io;
use std::io::Write;

/// Why a part is not filled: a customer who is named has no job, or this could not be found.
fn unknown_in<'a>(known: Result<Option<&'a str>, Fault>) -> Option<Unfilled<'a>> {
    match known {
        Ok(None) => None,
        Ok(Some(name)) => Some(Unfilled::Unknown(name)),
        Err(fault) => Some(Unfilled::Failed(fault)),
    }
}

impl Filling for RowComparison<'_> {
    fn fill<S: Alter, T: Alter>(
        &mut self,
        alloc: Global,
        file: &mut Connection<S>,
        new: &mut Connection<T>,
    ) -> bool {
        self.unfilled = unknown_in(first_unknown(file, self.customers));
        if self.unfilled.is_some() {
            return false;
        }
        self.unfilled = failed(copy_jobs(alloc, file, new, self.customers));
        self.unfilled.is_none()
    }
}

/// Makes a new bureau's file at a path, of the jobs that some customers have in the bureau's file
/// at another path, and prints what came of it.
pub(crate) fn part_file<W: Write, E: Write>(
    rt: &HostRuntime,
    file: &str,
    new: &str,
    customers: Customers<'_>,
    output: &mut W,
    errors: &mut E,
) -> io::Result<Status> {
    let mut parting = RowComparison::of(customers);
    let made = part(rt, file, new, &mut parting);
    let whose = "their rows";
    parting.tell(rt, Copied { file, new, whose }, made, output, errors)
}
