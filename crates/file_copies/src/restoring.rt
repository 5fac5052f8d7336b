//! Making a new bureau's file of jobs that are handed in, such as those of a shelf.

ghost use Rattle.std.specs.Prelude.{IfOk};

use crate::new_files::{check_name, close_new, end, reserve};
use ledger_files::{CopyFault, NEW_FILE_MODE, Place, open_new};
use sqlite::Unknown;

/// The handing in of jobs to a new bureau, and the comparison of the bureau with what the jobs were.
pub trait Restoring {
    /// What came of the jobs.
    type Sum: Drop;

    /// Why they could not all be handed in and compared.
    type Fault: Drop;

    // This came of the jobs: they were handed in, and then compared.
    ghost found_restored: { Self → Self.Sum → Type 0 };

    /// Hands the jobs in to the bureau without jobs whose file is at a path, and compares them
    /// afterwards. The file is closed before it, and again after it.
    fn restore(&mut self, rt: &HostRuntime, path: &str) -> Result<Self::Sum, Self::Fault>
        ensures { IfOk result (found_restored self.new) };
}

/// Why there is no new file with the jobs.
pub enum NotRestored<F> {
    /// The new file cannot be made, or cannot get its name.
    File(CopyFault),
    /// The jobs could not all be handed in and compared.
    Jobs(F),
}

impl<F> From<CopyFault> for NotRestored<F> {
    ghost use Rattle.std.specs.Prelude.{◌≡◌};
    ghost use Rattle.file_copies.specs.declared.restoring.NotRestored.TheVariants.{File};

    ghost from_gives = { λ fault it. it ≡ File fault };

    fn from(fault: CopyFault) -> NotRestored<F> {
        NotRestored::File(fault)
    }
}

/// Makes a bureau without jobs in an empty file, and closes it.
fn make_empty(rt: &HostRuntime, part: &Place) -> Result<(), CopyFault> {
    match open_new(rt, &part.file, Unknown) {
        Ok(new) => close_new(rt, part, new),
        Err(fault) => Err(CopyFault::Copy(fault)),
    }
}

/// Makes a bureau in an empty file, and hands the jobs in to it.
fn fill<R: Restoring>(
    rt: &HostRuntime,
    part: &Place,
    restoring: &mut R,
) -> Result<R::Sum, NotRestored<R::Fault>>
    ensures { IfOk result (R.found_restored restoring.new) }
{
    make_empty(rt, part)?;
    match restoring.restore(rt, &part.file) {
        Ok(sum) => Ok(sum),
        Err(fault) => Err(NotRestored::Jobs(fault)),
    }
}

/// Makes a new bureau's file at a path, and hands jobs in to it. It is made under another name beside
/// its path, and gets its name only if the jobs were handed in and compared: so it is there whole or
/// not at all, even if the program is stopped. Nothing that was there is replaced.
pub fn restore<R: Restoring>(
    rt: &HostRuntime,
    new: &str,
    restoring: &mut R,
) -> Result<R::Sum, NotRestored<R::Fault>>
    ensures { IfOk result (R.found_restored restoring.new) }
{
    check_name(rt, new)?;
    let part = reserve(rt, new, NEW_FILE_MODE)?;
    match fill(rt, part.place(), restoring) {
        Ok(sum) => {
            end(rt, part, new, Ok(()), true)?;
            Ok(sum)
        }
        Err(fault) => {
            part.remove(rt);
            Err(fault)
        }
    }
}
