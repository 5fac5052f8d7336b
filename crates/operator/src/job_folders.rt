//! The folders of archived jobs, each a bag: each is written whole, or compared and left as it is.

ghost use Rattle.std.specs.Prelude.{◌≡◌, true};
ghost use Rattle.texts.specs.Names.{is_customer};

use crate::bag_files::PAYLOAD;
use crate::page_files::{PAGE, is_hindered};
use job_archives::{Bag, BagFile};
use std::alloc::AllocError;
use std::fs::{File, OpenOptions};
use std::io::{ErrorKind, Write};
use std::{fs, io};

/// What is at a path: itself, and not what a link there leads to.
#[derive(Drop)]
pub(crate) enum Place {
    Nothing,
    Folder,
    /// A file, a link or a device.
    Other,
}

/// The folder of the payload in a bag.
const DATA: &str = "data";

/// What the paths of the payload begin with.
const IN_DATA: &str = "data/";

/// How many bytes more than a file of a bag has one of its name may have, and still be read: the
/// line of another version of the program may be longer.
const MOST_MORE: u64 = 4_096;

/// What came of the archive of a job.
#[derive(Drop)]
pub(crate) enum Filed {
    /// Its folder was written.
    Written,
    /// Its folder is there, with these files and no others.
    Same,
    /// Its folder is there, and differs in what has these names.
    Differs(Vec<String>),
    /// Its folder is there, and no bag: its files stand in it as an older version wrote them.
    Older,
    /// What is at this path is no folder.
    Hindered(String),
}

/// What is at a path.
pub(crate) fn place_at(rt: &HostRuntime, path: &str) -> io::Result<Place> {
    match fs::symlink_metadata(rt, path) {
        Ok(found) if found.is_dir() => Ok(Place::Folder),
        Ok(_) => Ok(Place::Other),
        Err(error) if error.kind() == ErrorKind::NotFound => Ok(Place::Nothing),
        Err(error) => Err(error),
    }
}

/// Has the names in a folder, or a file's bytes, written to the disk.
pub(crate) fn settle(rt: &HostRuntime, path: &str) -> io::Result<()> {
    File::open(rt, path)?.sync_all()
}

/// Writes a new file.
pub(crate) fn write_new(rt: &HostRuntime, path: &str, bytes: &[u8]) -> io::Result<()> {
    let mut made = OpenOptions::new()
        .write(true)
        .create_new(true)
        .open(rt, path)?;
    made.write_all(bytes)?;
    made.sync_all()
}

/// Makes a new folder with the files of a bag.
fn fill(rt: &HostRuntime, path: &str, bag: &Bag) -> io::Result<()> {
    fs::create_dir(rt, path)?;
    let data = format!(in rt.alloc(); "{path}/data")?;
    fs::create_dir(rt, &data)?;
    for file in bag.files() {
        let name = file.path;
        let at = format!(in rt.alloc(); "{path}/{name}")?;
        write_new(rt, &at, file.bytes)?;
    }
    settle(rt, &data)?;
    settle(rt, path)
}

/// Whether what is at a path is a folder.
pub(crate) fn is_folder(rt: &HostRuntime, path: &str) -> io::Result<bool> {
    match place_at(rt, path)? {
        Place::Folder => Ok(true),
        Place::Nothing | Place::Other => Ok(false),
    }
}

/// What came of removing something: that it could not be removed is told by what is there then.
fn removed(done: io::Result<()>) -> io::Result<()> {
    match done {
        Err(error) if error.kind() == ErrorKind::OutOfMemory => Err(error),
        _ => Ok(()),
    }
}

/// Removes a folder that a killed run has left, with the files that are a bag's. Returns whether it
/// is gone: it stays if there is anything else in it. Nothing is removed behind a link.
fn remove_part(rt: &HostRuntime, part: &str, bag: &Bag) -> io::Result<bool> {
    let data = format!(in rt.alloc(); "{part}/data")?;
    let has_data = is_folder(rt, &data)?;
    for file in bag.files() {
        if has_data || !file.path.starts_with(IN_DATA) {
            let name = file.path;
            let path = format!(in rt.alloc(); "{part}/{name}")?;
            removed(fs::remove_file(rt, &path))?;
        }
    }
    if has_data {
        removed(fs::remove_dir(rt, &data))?;
    }
    Ok(fs::remove_dir(rt, part).is_ok())
}

/// Writes the folder of a job under another name, and then renames it. What a killed run has left
/// under the other name is replaced. If the folder cannot be written, nothing is left of it.
fn write_folder(rt: &HostRuntime, customer: &str, path: &str, bag: &Bag) -> io::Result<Filed> {
    let part = format!(in rt.alloc(); "{path}.part")?;
    let is_free = match place_at(rt, &part)? {
        Place::Nothing => true,
        Place::Folder => remove_part(rt, &part, bag)?,
        Place::Other => false,
    };
    if !is_free {
        return Ok(Filed::Hindered(part));
    }
    let mut filed = fill(rt, &part, bag);
    if filed.is_ok() {
        filed = fs::rename(rt, &part, path);
    }
    if filed.is_err() {
        // What cannot be removed is told of by the next archive.
        let _ = remove_part(rt, &part, bag);
    }
    filed?;
    settle(rt, customer)?;
    Ok(Filed::Written)
}

/// Whether a folder has a file of a bag, whichever version of the program wrote it.
fn has_same(rt: &HostRuntime, folder: &str, bag: &Bag, file: BagFile<'_>) -> io::Result<bool> {
    let name = file.path;
    let path = format!(in rt.alloc(); "{folder}/{name}")?;
    let Ok(found) = fs::symlink_metadata(rt, &path) else {
        return Ok(false);
    };
    let most = (file.bytes.len() as u64).saturating_add(MOST_MORE);
    if !found.is_file() || found.len() > most {
        return Ok(false);
    }
    match fs::read(rt, &path) {
        Ok(read) => Ok(bag.is_same(file, &read)),
        Err(error) if error.kind() == ErrorKind::OutOfMemory => Err(error),
        Err(_) => Ok(false),
    }
}

/// Whether a bag has this name in its folder, where its page stands too, or, behind what these paths
/// begin with, in `data`.
fn has_name(bag: &Bag, begun: &str, name: &str) -> bool {
    for file in bag.files() {
        if matches!(file.path.strip_prefix(begun), Some(rest) if rest == name) {
            return true;
        }
    }
    begun.is_empty() && (name == DATA || name == PAGE)
}

/// Adds a name.
fn push_name(rt: &HostRuntime, names: &mut Vec<String>, name: &str) -> Result<(), AllocError> {
    let name = String::from_str(rt.alloc(), name)?;
    names.push(name)?;
    Ok(())
}

/// Adds the names in a folder that a bag has not. The paths of its files there begin so.
fn push_others(
    rt: &HostRuntime,
    names: &mut Vec<String>,
    path: &str,
    begun: &str,
    bag: &Bag,
) -> io::Result<()> {
    for entry in fs::read_dir(rt, path)? {
        match entry {
            Ok(entry) if has_name(bag, begun, entry.file_name()) => {}
            Ok(entry) => {
                let name = entry.file_name();
                names.push(format!(in rt.alloc(); "{begun}{name}")?)?;
            }
            Err(error) if error.kind() == ErrorKind::InvalidFilename => {
                push_name(rt, names, "a name that is no text")?
            }
            Err(error) => return Err(error),
        }
    }
    Ok(())
}

/// Compares the folder of a job with its bag. A page beside the files of the bag may be any file.
pub(crate) fn compare_folder(rt: &HostRuntime, path: &str, bag: &Bag) -> io::Result<Filed> {
    let mut names = Vec::new(rt.alloc());
    let data = format!(in rt.alloc(); "{path}/data")?;
    let has_data = is_folder(rt, &data)?;
    if !has_data {
        push_name(rt, &mut names, DATA)?;
    }
    for file in bag.files() {
        let is_there = has_data || !file.path.starts_with(IN_DATA);
        if is_there && !has_same(rt, path, bag, file)? {
            push_name(rt, &mut names, file.path)?;
        }
    }
    if is_hindered(rt, path)? {
        push_name(rt, &mut names, PAGE)?;
    }
    push_others(rt, &mut names, path, "", bag)?;
    if has_data {
        push_others(rt, &mut names, &data, IN_DATA, bag)?;
    }
    if names.is_empty() {
        Ok(Filed::Same)
    } else {
        Ok(Filed::Differs(names))
    }
}

/// Whether there is nothing at a path.
pub(crate) fn has_nothing(rt: &HostRuntime, path: &str) -> io::Result<bool> {
    match place_at(rt, path)? {
        Place::Nothing => Ok(true),
        Place::Folder | Place::Other => Ok(false),
    }
}

/// Whether a folder is of the older form: it has no declaration of a bag, and a file of a payload
/// stands in it and not in `data`.
pub(crate) fn is_older(rt: &HostRuntime, path: &str) -> io::Result<bool> {
    let declaration = format!(in rt.alloc(); "{path}/bagit.txt")?;
    if !has_nothing(rt, &declaration)? {
        return Ok(false);
    }
    for file in PAYLOAD {
        if let Some(name) = file.strip_prefix(IN_DATA) {
            let older = format!(in rt.alloc(); "{path}/{name}")?;
            if !has_nothing(rt, &older)? {
                return Ok(true);
            }
        }
    }
    Ok(false)
}

/// Makes a folder, unless there is one. Returns whether there is a folder then.
fn make_folder(rt: &HostRuntime, folder: &str, path: &str) -> io::Result<bool> {
    match place_at(rt, path)? {
        Place::Nothing => {
            fs::create_dir(rt, path)?;
            settle(rt, folder)?;
            Ok(true)
        }
        Place::Folder => Ok(true),
        Place::Other => Ok(false),
    }
}

/// Files the bag of a job in a folder, as `CUSTOMER/NUMBER`: the customer's name is no path. A
/// folder of this name is compared with it and stays as it is.
pub(crate) fn file_job(
    rt: &HostRuntime,
    folder: &str,
    customer: &str,
    number: u32,
    bag: &Bag,
) -> io::Result<Filed>
    requires { is_customer customer.now ≡ true }
{
    let customer = format!(in rt.alloc(); "{folder}/{customer}")?;
    if !make_folder(rt, folder, &customer)? {
        return Ok(Filed::Hindered(customer));
    }
    let path = format!(in rt.alloc(); "{customer}/{number}")?;
    match place_at(rt, &path)? {
        Place::Nothing => write_folder(rt, &customer, &path, bag),
        Place::Folder => {
            if is_older(rt, &path)? {
                return Ok(Filed::Older);
            }
            compare_folder(rt, &path, bag)
        }
        Place::Other => Ok(Filed::Hindered(path)),
    }
}
