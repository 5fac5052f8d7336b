//! How work with a bureau ends.

ghost use Rattle.std.specs.Prelude.{◌≡◌, IfOk};
ghost use Rattle.bureau_work.specs.Outcomes.{HasShown, closing_with, status_of};

use command_line::Status;
use ledger_tables::OpenFault;
use std::io;
use std::io::Write;

/// How a subcommand on a bureau's file ended.
#[derive(Clone, Copy, Debug, PartialEq, Eq)]
pub enum Outcome {
    /// Everything was done.
    Done,
    /// What went wrong is already on the output: a refusal, a bad line, or no memory.
    Shown,
    /// The script ended with fault 2, after this number of commands was acknowledged.
    Stopped(usize),
    /// The job was refused, for the reason with this number.
    Refused(u8),
    /// There was no memory, or the bureau's file could not be used.
    Fault(OpenFault),
    /// Another file, the port, or the output could not be used.
    Device,
}

impl Outcome {
    /// The outcome if the bureau's file could not be used then. A fault that came before is told,
    /// and no other.
    pub fn then_fault(self, fault: OpenFault) -> Outcome
        ensures { result ≡ closing_with fault self }
    {
        match self {
            Outcome::Fault(_) | Outcome::Stopped(_) => self,
            Outcome::Done | Outcome::Shown | Outcome::Refused(_) | Outcome::Device => {
                Outcome::Fault(fault)
            }
        }
    }

    /// How the program ends.
    pub fn status(self) -> Status
        ensures { result ≡ status_of self }
    {
        match self {
            Outcome::Done => Status::Done,
            Outcome::Shown | Outcome::Refused(_) | Outcome::Device => Status::NotDone,
            Outcome::Fault(OpenFault::NoMemory) => Status::NotDone,
            Outcome::Fault(_) | Outcome::Stopped(_) => Status::Unusable,
        }
    }
}

/// Prints what went wrong, if it is not printed yet. An error is the writer's.
pub fn show_outcome<E: Write>(errors: &mut E, outcome: Outcome) -> io::Result<Status>
    ensures { IfOk result (λ status. (status ≡ status_of outcome)
        × HasShown outcome (E.contents errors.old) (E.contents errors.new)) }
{
    match outcome {
        Outcome::Done | Outcome::Shown => {}
        Outcome::Stopped(acknowledged) => writeln!(errors, "acknowledged {acknowledged}")?,
        Outcome::Refused(number) => writeln!(errors, "refused {number}")?,
        Outcome::Fault(fault) => {
            let number = fault.number();
            writeln!(errors, "fault {number}")?
        }
        Outcome::Device => writeln!(errors, "fault device")?,
    }
    Ok(outcome.status())
}
