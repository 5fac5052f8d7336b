//! Files that are not whole yet, under names of their own.

ghost use Rattle.std.specs.Prelude.{IfErr};
ghost use Rattle.ledger_tables.specs.Versions.{IsKnown};

use super::{Place, fault_of, is_free, is_one_file, make_file, remove};
use ledger_tables::OpenFault;
use std::fs;
use std::fs::Metadata;
use std::io::ErrorKind;
use std::os::unix::fs::MetadataExt;
use texts::MOST_PARTS;

/// A file that this program has made beside a path, under a name that no other file has. It alone
/// may be removed with its log, whatever is in it.
#[derive(Drop)]
pub struct Part {
    place: Place,
}

impl Part {
    /// Makes an empty file of a mode beside a path: `PATH.N.part`.
    pub fn reserve(rt: &HostRuntime, path: &str, mode: u32) -> Result<Part, OpenFault>
        ensures { IfErr result IsKnown }
    {
        for number in 1..=MOST_PARTS {
            let place = Place::at(part_name(rt, path, number)?, rt)?;
            if is_free(rt, &place.log) {
                match make_file(rt, &place.file, mode) {
                    Ok(()) => return Ok(Part { place }),
                    Err(error) if error.kind() == ErrorKind::AlreadyExists => {}
                    Err(error) => return Err(fault_of(&error)),
                }
            }
        }
        Err(OpenFault::Store)
    }

    /// Where it is.
    pub fn place(&self) -> &Place {
        &self.place
    }

    /// Removes it, and its log.
    pub fn remove(self, rt: &HostRuntime) {
        remove(rt, &self.place.log);
        remove(rt, &self.place.file);
    }
}

/// The name of a file that is not whole yet, beside a path.
fn part_name(rt: &HostRuntime, path: &str, number: u16) -> Result<String, OpenFault>
    ensures { IfErr result IsKnown }
{
    match texts::part_name(rt.alloc(), path, number) {
        Ok(name) => Ok(name),
        Err(_) => Err(OpenFault::NoMemory),
    }
}

/// Whether this is what is at a path.
fn is_at(rt: &HostRuntime, file: &Metadata, path: &str) -> bool {
    match fs::symlink_metadata(rt, path) {
        Ok(found) => is_one_file(file, &found),
        Err(_) => false,
    }
}

/// Removes the second name of the file at a path, `PATH.N.part`, if it has one: so it is if the
/// program that made the file was stopped at the end.
pub fn remove_second_name(rt: &HostRuntime, path: &str) -> Result<(), OpenFault>
    ensures { IfErr result IsKnown }
{
    let Ok(file) = fs::symlink_metadata(rt, path) else {
        return Ok(());
    };
    if !file.is_file() || file.nlink() == 1 {
        return Ok(());
    }
    for number in 1..=MOST_PARTS {
        let name = part_name(rt, path, number)?;
        if is_at(rt, &file, &name) {
            remove(rt, &name);
            return Ok(());
        }
    }
    Ok(())
}
