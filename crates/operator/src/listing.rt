//! The subcommand `jobs`.

ghost use Rattle.std.specs.Prelude.{IsSome};

use crate::faults::{found, tell_unopened};
use command_line::Status;
use file_copies::{Look, look_into};
use job_archives::list_jobs;
use ledger_tables::OpenFault;
use sqlite::{Alter, Connection};
use std::alloc::Global;
use std::io;
use std::io::Write;

/// The look of a list into a bureau's tables: the list, or what hindered it.
#[derive(Drop)]
struct JobsLook<'a> {
    customer: Option<&'a str>,
    listed: Option<Result<Vec<u8>, OpenFault>>,
}

impl Look for JobsLook<'_> {
    ghost looked = { λ old new. IsSome new.listed };

    fn look<S: Alter + Drop>(&mut self, alloc: Global, conn: Connection<S>) -> S {
        let (listed, store) = list_jobs(alloc, conn, self.customer);
        self.listed = Some(listed);
        store
    }
}

/// Prints a line for each job of the bureau's file at a path, or for each of one customer's.
pub(crate) fn show_jobs<W: Write, E: Write>(
    rt: &HostRuntime,
    file: &str,
    customer: Option<&str>,
    output: &mut W,
    errors: &mut E,
) -> io::Result<Status> {
    let mut look = JobsLook {
        customer,
        listed: None,
    };
    let looked = look_into(rt, file, &mut look);
    match found(looked, look.listed) {
        Ok(text) => {
            output.write_all(&text)?;
            output.flush()?;
            Ok(Status::Done)
        }
        Err(fault) => tell_unopened(rt, file, fault, errors),
    }
}
