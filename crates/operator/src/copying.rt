//! The subcommand `copy`.

ghost use Rattle.std.specs.Prelude.{IsNone, IsOkAnd, IsSomeAnd};

use crate::copy_faults::{Found, Made, Unfilled, jobs_found, tell_copy_fault};
use command_line::Status;
use file_copies::{Comparison, copy};
use job_archives::{Compared, Customers, compare_files};
use ledger_files::CopyFault;
use sqlite::{Alter, Connection};
use std::io;
use std::io::Write;

/// A copy of a file, or a part of it.
#[derive(Clone, Copy)]
pub(crate) struct Copied<'a> {
    /// The path of the file.
    pub(crate) file: &'a str,
    /// The path of the copy.
    pub(crate) new: &'a str,
    /// Which rows are the same, in words.
    pub(crate) whose: &'static str,
}

/// The comparison of a copy with its file, or of a part with what some customers have of it, by the
/// rows of all tables.
#[derive(Drop)]
pub(crate) struct RowComparison<'a> {
    /// The customers whose rows are compared.
    pub(crate) customers: Customers<'a>,
    /// Why a part was not filled, if it was not.
    pub(crate) unfilled: Option<Unfilled<'a>>,
    /// What was found, or what hindered the comparison.
    pub(crate) found: Found,
}

impl RowComparison<'_> {
    /// A comparison of these customers' rows that has not begun.
    pub(crate) fn of(customers: Customers<'_>) -> RowComparison<'_> {
        RowComparison {
            customers,
            unfilled: None,
            found: None,
        }
    }

    /// Prints what came of the copy or part of a file: whose rows it has, or why it is not made,
    /// and the way out.
    pub(crate) fn tell<W: Write, E: Write>(
        &self,
        rt: &HostRuntime,
        copied: Copied<'_>,
        made: Result<u64, CopyFault>,
        output: &mut W,
        errors: &mut E,
    ) -> io::Result<Status> {
        let Copied { file, new, whose } = copied;
        let fault = match made {
            Ok(bytes) => {
                let jobs = jobs_found(&self.found);
                writeln!(
                    output,
                    "{new}: jobs {jobs}, {bytes} bytes, {whose} as in {file}"
                )?;
                output.flush()?;
                return Ok(Status::Done);
            }
            Err(fault) => fault,
        };
        let second = file;
        let made = Made { file, second, new };
        tell_copy_fault(rt, made, fault, &self.unfilled, &self.found, errors)
    }
}

impl Comparison for RowComparison<'_> {
    ghost found_same = { λ it.
        IsSomeAnd it.found (λ found. IsOkAnd found (λ told. IsNone told.other)) };

    fn compare<S: Alter + Drop, T: Alter + Drop>(
        &mut self,
        file: Connection<S>,
        copy: Connection<T>,
    ) -> (S, T) {
        let (found, store, copied) = compare_files(file, copy, self.customers);
        self.found = Some(found);
        (store, copied)
    }

    fn is_same(&self) -> bool {
        matches!(self.found, Some(Ok(Compared { other: None, .. })))
    }
}

/// Copies the bureau's file at a path, with its log, into one new file, and prints what came of it.
pub(crate) fn copy_file<W: Write, E: Write>(
    rt: &HostRuntime,
    file: &str,
    new: &str,
    output: &mut W,
    errors: &mut E,
) -> io::Result<Status> {
    let mut comparison = RowComparison::of(Customers::All);
    let made = copy(rt, file, new, &mut comparison);
    let whose = "every row";
    comparison.tell(rt, Copied { file, new, whose }, made, output, errors)
}
