//! The subcommand `check`.

ghost use Rattle.std.specs.Prelude.{IsSome};

use crate::faults::{found, tell_unopened};
use command_line::Status;
use file_copies::{Look, look_into};
use job_archives::own_connection;
use job_checks::{Report, check, hand_back, report_text};
use ledger_tables::OpenFault;
use sqlite::{Alter, Connection};
use std::alloc::Global;
use std::io;
use std::io::Write;

/// The look of a check into a bureau's tables: the report, or what hindered it.
#[derive(Drop)]
struct CheckLook {
    checked: Option<Result<Report, OpenFault>>,
}

impl Look for CheckLook {
    ghost looked = { λ old new. IsSome new.checked };

    fn look<S: Alter + Drop>(&mut self, alloc: Global, conn: Connection<S>) -> S {
        let own = match own_connection(alloc) {
            Ok(own) => own,
            Err(fault) => {
                self.checked = Some(Err(OpenFault::from(fault)));
                let (_sound, store) = hand_back(conn);
                return store;
            }
        };
        let (checked, store) = check(alloc, conn, own.schema());
        self.checked = Some(checked.map_err(OpenFault::from));
        store
    }
}

/// Prints a report. The status tells whether anything differs.
fn show<W: Write>(rt: &HostRuntime, report: &Report, output: &mut W) -> io::Result<Status> {
    let text = report_text(rt.alloc(), report)?;
    output.write_all(&text)?;
    output.flush()?;
    if report.has_no_difference() {
        Ok(Status::Done)
    } else {
        Ok(Status::NotDone)
    }
}

/// Runs each job of the bureau's file at a path again, and prints what differs.
pub(crate) fn check_file<W: Write, E: Write>(
    rt: &HostRuntime,
    path: &str,
    output: &mut W,
    errors: &mut E,
) -> io::Result<Status> {
    let mut look = CheckLook { checked: None };
    let looked = look_into(rt, path, &mut look);
    match found(looked, look.checked) {
        Ok(report) => show(rt, &report, output),
        Err(fault) => tell_unopened(rt, path, fault, errors),
    }
}
