//! Telling what came of a migration of a bureau's file.

ghost use Rattle.std.specs.Prelude.{OnOk};
ghost use Rattle.bureau_work.specs.Outcomes.{IsLine};
ghost use Rattle.bureau.specs.Migrating.{TellsMigrated, version_words};

use bureau_work::Outcome;
use ledger_files::{Migrated, Unfinished};
use ledger_tables::VERSION;
use sqlite_disk::Disk;
use std::io;
use std::io::Write;

/// Prints of which version a file was found, and of which it is now.
fn print_version<W: Write>(output: &mut W, found: u32) -> io::Result<()>
    ensures { OnOk result (IsLine (version_words found)
        (W.contents output.old) (W.contents output.new)) }
{
    if found == VERSION {
        writeln!(output, "version {found}")?;
    } else {
        writeln!(output, "version {found} to {VERSION}")?;
    }
    output.flush()
}

/// Prints what came of a migration: of which version the file was. Returns the outcome.
pub fn tell_migrated<D: Disk, W: Write>(
    output: &mut W,
    migrated: &Result<Migrated<D>, Unfinished<D>>,
) -> Outcome
    ensures { TellsMigrated migrated.now result (W.contents output.old) (W.contents output.new) }
{
    match migrated {
        Ok(done) => match print_version(output, done.version()) {
            Ok(()) => Outcome::Done,
            Err(_) => Outcome::Device,
        },
        Err(left) => Outcome::Fault(left.fault()),
    }
}
