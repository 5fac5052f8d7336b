//! Replacing a file.

ghost use Rattle.std.specs.Prelude.{IfErr};
ghost use Rattle.local_runs.specs.Put.{IsWritingFault};

use command_line::Fault;
use std::fs::{File, OpenFile, OpenOptions, Permissions};
use std::io::{ErrorKind, Write};
use std::{fs, io};
use texts::{MOST_PARTS, part_name};

/// Makes a file beside the one at a path, under a name that no file has.
fn made_beside(rt: &HostRuntime, path: &str) -> io::Result<(String, File)> {
    for number in 1..=MOST_PARTS {
        let name = part_name(rt.alloc(), path, number)?;
        let made = OpenOptions::new()
            .write(true)
            .create_new(true)
            .open(rt, &name);
        match made {
            Ok(file) => return Ok((name, file)),
            Err(error) if error.kind() == ErrorKind::AlreadyExists => {}
            Err(error) => return Err(error),
        }
    }
    Err(io::Error::from(ErrorKind::AlreadyExists))
}

/// Writes all bytes to a new file, and gives it the permissions of the one that it replaces.
fn fill(mut file: File, bytes: &[u8], permissions: Option<Permissions>) -> io::Result<()> {
    if let Some(permissions) = permissions {
        file.set_permissions(permissions)?;
    }
    file.write_all(bytes)?;
    file.sync_all()
}

/// Writes bytes to a file beside a path, and then renames it to the path. If that fails, the file
/// at the path stays as it was, and the other file is removed.
fn put_by_name(
    rt: &HostRuntime,
    path: &str,
    bytes: &[u8],
    permissions: Option<Permissions>,
) -> io::Result<()> {
    let (name, file) = made_beside(rt, path)?;
    let mut put = fill(file, bytes, permissions);
    if put.is_ok() {
        put = fs::rename(rt, &name, path);
    }
    if put.is_err() {
        let _ = fs::remove_file(rt, &name);
    }
    put
}

/// Writes bytes to the file at a path, as [`put_file`] does. The error is that of the call that
/// failed.
pub fn replace_file(rt: &HostRuntime, path: &str, bytes: &[u8]) -> io::Result<()> {
    match fs::symlink_metadata(rt, path) {
        Ok(found) if found.is_file() => {
            OpenOptions::new().write(true).open(rt, path)?;
            put_by_name(rt, path, bytes, Some(found.permissions()))
        }
        Ok(_) => fs::write(rt, path, bytes),
        Err(error) if error.kind() == ErrorKind::NotFound => put_by_name(rt, path, bytes, None),
        Err(error) => Err(error),
    }
}

/// Writes bytes to the file at a path, replacing its contents.
///
/// If there is a writable regular file at the path, or none, the file has all the bytes in the end,
/// or stays as it was. Anything else (a device, a pipe, a link to a file) is written directly, and
/// may be left with a part of the bytes if that fails. Fails with [`Fault::Memory`] if there is no
/// memory, and with [`Fault::Device`] if the file cannot be written.
pub fn put_file(rt: &HostRuntime, path: &str, bytes: &[u8]) -> Result<(), Fault>
    ensures { IfErr result IsWritingFault }
{
    match replace_file(rt, path, bytes) {
        Ok(()) => Ok(()),
        Err(error) => Err(Fault::of_writing(&error)),
    }
}
