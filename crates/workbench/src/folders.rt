//! The files that paths name, where a path may be that of a folder.

use crate::files::{Access, tell_failed};
use crate::process::Process;
use std::alloc::AllocError;
use std::fs::DirEntry;
use std::io::{ErrorKind, Write};
use std::{fs, io};

/// The files that were found.
#[derive(Drop)]
pub(crate) struct Found {
    /// The path of each.
    pub paths: Vec<String>,
    /// Whether all were found that are there.
    pub whole: bool,
}

/// Whether there is a folder at a path.
fn is_folder(rt: &HostRuntime, path: &str) -> bool {
    match fs::metadata(rt, path) {
        Ok(metadata) => metadata.is_dir(),
        Err(_) => false,
    }
}

/// Whether a link leads to a folder or to what is no file. One that leads nowhere does not.
fn leads_away(rt: &HostRuntime, path: &str) -> bool {
    match fs::metadata(rt, path) {
        Ok(metadata) => !metadata.is_file(),
        Err(_) => false,
    }
}

/// What is in a folder.
enum Kind {
    /// A file, or a link to one.
    File,
    /// A folder.
    Folder,
    /// A link to a folder, or a device.
    Other,
}

/// What something in a folder is. What cannot be known is told when it is read, as of a file.
fn kind_of(rt: &HostRuntime, entry: &DirEntry) -> Kind {
    let Ok(kind) = entry.file_type() else {
        return Kind::File;
    };
    if kind.is_dir() {
        return Kind::Folder;
    }
    if kind.is_file() {
        return Kind::File;
    }
    if !kind.is_symlink() || leads_away(rt, entry.path().as_str()) {
        return Kind::Other;
    }
    Kind::File
}

/// Adds the path of what a folder has to the files or to the folders that are still to be read.
fn take_entry(
    rt: &HostRuntime,
    found: &mut Found,
    folders: &mut Vec<String>,
    entry: &DirEntry,
) -> Result<(), AllocError> {
    let path = String::from_str(rt.alloc(), entry.path().as_str())?;
    match kind_of(rt, entry) {
        Kind::File => found.paths.push(path)?,
        Kind::Folder => folders.push(path)?,
        Kind::Other => {}
    }
    Ok(())
}

/// What is said where something in a folder is not taken.
fn words_of(kind: ErrorKind) -> &'static str {
    match kind {
        ErrorKind::InvalidFilename => "a name in it is no UTF-8 text; rename the file",
        _ => "not all of the folder can be read",
    }
}

/// Adds the paths of the files in a folder, and the folders in it to those still to be read. What
/// cannot be read of it is told.
fn take_folder<W: Write, E: Write>(
    process: &mut Process<W, E>,
    found: &mut Found,
    folders: &mut Vec<String>,
    path: &str,
) -> io::Result<()> {
    let entries = match fs::read_dir(&process.rt, path) {
        Ok(entries) => entries,
        Err(error) => {
            found.whole = false;
            return tell_failed(&mut process.errors, path, Access::Read, &error);
        }
    };
    for entry in entries {
        match entry {
            Ok(entry) => take_entry(&process.rt, found, folders, &entry)?,
            Err(error) => {
                found.whole = false;
                process.tell(path, words_of(error.kind()))?;
            }
        }
    }
    Ok(())
}

/// Adds the paths of the files in a folder and in the folders below it.
fn take_folders<W: Write, E: Write>(
    process: &mut Process<W, E>,
    found: &mut Found,
    path: &str,
) -> io::Result<()> {
    let mut folders = Vec::new(process.alloc());
    folders.push(String::from_str(process.alloc(), path)?)?;
    for _folder in 0..u64::MAX {
        let Some(folder) = folders.pop() else {
            return Ok(());
        };
        take_folder(process, found, &mut folders, folder.as_str())?;
    }
    Ok(())
}

/// The files that paths name, each once and sorted by their names: of a folder all files in it and
/// below it. What cannot be read of a folder is told.
pub(crate) fn files_of<W: Write, E: Write>(
    process: &mut Process<W, E>,
    paths: &[&str],
) -> io::Result<Found> {
    let mut found = Found {
        paths: Vec::new(process.alloc()),
        whole: true,
    };
    for path in paths {
        if *path != "-" && is_folder(&process.rt, path) {
            take_folders(process, &mut found, path)?;
        } else {
            found.paths.push(String::from_str(process.alloc(), path)?)?;
        }
    }
    found.paths.sort()?;
    found.paths.dedup();
    Ok(found)
}
