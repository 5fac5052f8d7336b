//! The subcommand `join`.

ghost use Rattle.std.specs.Prelude.{IsNone, IsOkAnd, IsSomeAnd, IsTrue};
ghost use Rattle.sqlite.specs.Held.{state};
ghost use Rattle.job_checks.specs.Tables.{LeavesLess};

use crate::copy_faults::{Found, Made, Unfilled, failed, jobs_found, tell_copy_fault};
use command_line::Status;
use file_copies::{Joining, join};
use job_archives::{Compared, Customers, compare_join, copy_jobs, first_shared};
use ledger_tables::Fault;
use sqlite::{Alter, Connection};
use std::alloc::Global;
use std::io;
use std::io::Write;

/// The jobs of two bureaus in a new one, and their comparison by the rows of all tables.
#[derive(Drop)]
struct RowJoin {
    /// A customer who has jobs in both, if there is one, or what hindered the search; before it
    /// nothing.
    shared: Option<Result<Option<String>, Fault>>,
    /// Why the new bureau was not filled, if it was not, though no customer has jobs in both.
    unfilled: Option<Unfilled<'static>>,
    /// What was found, or what hindered the comparison.
    found: Found,
}

impl RowJoin {
    /// Whether a search was made, and no customer has jobs in both.
    fn is_apart(&self) -> bool
        ensures { IsTrue result → IsSomeAnd self.now.shared (λ shared. IsOkAnd shared IsNone) }
    {
        matches!(self.shared, Some(Ok(None)))
    }

    /// Whether a comparison was made, and all rows are the same.
    fn has_same_rows(&self) -> bool
        ensures { IsTrue result → IsSomeAnd self.now.found
            (λ found. IsOkAnd found (λ told. IsNone told.other)) }
    {
        matches!(self.found, Some(Ok(Compared { other: None, .. })))
    }
}

/// Puts all jobs of two bureaus into a new one.
fn copy_both<S: Alter, T: Alter, U: Alter>(
    alloc: Global,
    first: &mut Connection<S>,
    second: &mut Connection<T>,
    new: &mut Connection<U>,
) -> Result<(), Fault>
    ensures left { LeavesLess (state S.Store first.old) (state S.Store first.new) }
    ensures second_left { LeavesLess (state T.Store second.old) (state T.Store second.new) }
{
    copy_jobs(alloc, first, new, Customers::All)?;
    copy_jobs(alloc, second, new, Customers::All)
}

impl Joining for RowJoin {
    ghost found_joined = { λ it.
        IsSomeAnd it.shared (λ shared. IsOkAnd shared IsNone)
        × IsSomeAnd it.found (λ found. IsOkAnd found (λ told. IsNone told.other)) };

    fn fill<S: Alter, T: Alter, U: Alter>(
        &mut self,
        alloc: Global,
        first: &mut Connection<S>,
        second: &mut Connection<T>,
        new: &mut Connection<U>,
    ) -> bool {
        self.shared = Some(first_shared(alloc, first, second));
        if !self.is_apart() {
            return false;
        }
        self.unfilled = failed(copy_both(alloc, first, second, new));
        self.unfilled.is_none()
    }

    fn compare<S: Alter + Drop, T: Alter + Drop, U: Alter + Drop>(
        &mut self,
        first: Connection<S>,
        second: Connection<T>,
        joined: Connection<U>,
    ) -> (S, T, U) {
        let (found, store, other, copied) = compare_join(first, second, joined);
        self.found = Some(found);
        (store, other, copied)
    }

    fn is_joined(&self) -> bool {
        self.is_apart() && self.has_same_rows()
    }
}

/// Why a new bureau was not filled, by the search for a customer who has jobs in both, or else for
/// another reason.
fn unfilled_by(
    shared: Option<Result<Option<String>, Fault>>,
    other: Option<Unfilled<'static>>,
) -> Option<Unfilled<'static>> {
    match shared {
        Some(Ok(Some(customer))) => Some(Unfilled::Shared(customer)),
        Some(Err(fault)) => Some(Unfilled::Failed(fault)),
        _ => other,
    }
}

/// Makes a new bureau's file at a path, of all jobs of the bureaus whose files are at two other
/// paths, and prints what came of it.
pub(crate) fn join_files<W: Write, E: Write>(
    rt: &HostRuntime,
    made: Made<'_>,
    output: &mut W,
    errors: &mut E,
) -> io::Result<Status> {
    let Made { file, second, new } = made;
    let mut joining = RowJoin {
        shared: None,
        unfilled: None,
        found: None,
    };
    match join(rt, file, second, new, &mut joining) {
        Ok(bytes) => {
            let jobs = jobs_found(&joining.found);
            writeln!(
                output,
                "{new}: jobs {jobs}, {bytes} bytes, every row as in {file} or {second}"
            )?;
            output.flush()?;
            Ok(Status::Done)
        }
        Err(fault) => {
            let RowJoin {
                shared,
                unfilled,
                found,
            } = joining;
            tell_copy_fault(
                rt,
                made,
                fault,
                &unfilled_by(shared, unfilled),
                &found,
                errors,
            )
        }
    }
}
