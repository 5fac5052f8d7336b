//! The page that `class` writes, once or again and again.

use crate::job_folders::{Place, place_at, settle, write_new};
use std::fs::File;
use std::io::{ErrorKind, Write};
use std::{fs, io};
use texts::read_up_to;

/// What is said where somebody else has the page's name.
const FOREIGN: &str = "this is not the page that was written last; give the page another name";

/// What is said where a page cannot be written.
const UNWRITTEN: &str = "no page can be written there: its folder is missing or may not be written \
                         to, or its disk is full or knows no hard links; ls -ld and df -T show which";

/// What is at the path of a page.
enum PagePlace {
    Nothing,
    /// The page as it was written last.
    Own,
    /// What somebody else put there, and what stays.
    Foreign,
}

/// The file of a page, which is written once or again and again.
#[derive(Drop)]
pub(crate) struct PageFile<'a> {
    path: &'a str,
    /// What was written last.
    last: Option<Vec<u8>>,
}

/// Whether a file has these bytes and no others.
fn has(rt: &HostRuntime, path: &str, bytes: &[u8]) -> io::Result<bool> {
    let most = (bytes.len() as u64).saturating_add(1);
    let there = read_up_to(rt.alloc(), File::open(rt, path)?, most)?;
    Ok(there.as_slice() == bytes)
}

/// Gives a new page its name, unless something has it. Its other name is removed.
fn publish(rt: &HostRuntime, part: &str, new: &str) -> io::Result<()> {
    fs::hard_link(rt, part, new)?;
    fs::remove_file(rt, part)?;
    match new.rsplit_once('/') {
        Some(("", _)) => settle(rt, "/"),
        Some((folder, _)) => settle(rt, folder),
        None => settle(rt, "."),
    }
}

impl<'a> PageFile<'a> {
    /// The file of a page that is not written yet, where there is to be one.
    pub(crate) fn at(path: Option<&'a str>) -> Option<PageFile<'a>> {
        let path = path?;
        Some(PageFile { path, last: None })
    }

    /// What is at the path now.
    fn place(&self, rt: &HostRuntime) -> io::Result<PagePlace> {
        let found = match fs::symlink_metadata(rt, self.path) {
            Ok(found) => found,
            Err(error) if error.kind() == ErrorKind::NotFound => return Ok(PagePlace::Nothing),
            Err(error) => return Err(error),
        };
        match &self.last {
            Some(last) if found.is_file() && has(rt, self.path, last)? => Ok(PagePlace::Own),
            _ => Ok(PagePlace::Foreign),
        }
    }

    /// Gives a page that was written under another name its own. Returns whether it has it.
    fn publish(&self, rt: &HostRuntime, part: &str) -> io::Result<bool> {
        match self.place(rt)? {
            PagePlace::Nothing => publish(rt, part, self.path)?,
            PagePlace::Own => fs::rename(rt, part, self.path)?,
            PagePlace::Foreign => return Ok(false),
        }
        Ok(true)
    }

    /// Writes the page under another name, and then gives it its own. Returns whether it has it;
    /// else nothing of it is left.
    fn write(&mut self, rt: &HostRuntime, page: Vec<u8>) -> io::Result<bool> {
        let path = self.path;
        let part = format!(in rt.alloc(); "{path}.part")?;
        let part = part.as_str();
        let done = match write_new(rt, part, &page) {
            Err(error) if error.kind() == ErrorKind::AlreadyExists => return Err(error),
            Err(error) => Err(error),
            Ok(()) => self.publish(rt, part),
        };
        if let Ok(true) = &done {
            self.last = Some(page);
            return done;
        }
        // What cannot be removed is told of by the next call.
        let _ = fs::remove_file(rt, part);
        done
    }

    /// Writes the page. Returns whether it was written; that it was not is told, and the way out.
    pub(crate) fn write_or_tell<E: Write>(
        &mut self,
        rt: &HostRuntime,
        page: Vec<u8>,
        errors: &mut E,
    ) -> io::Result<bool> {
        let path = self.path;
        match self.write(rt, page) {
            Ok(true) => return Ok(true),
            Ok(false) => writeln!(errors, "{path}: {FOREIGN}")?,
            Err(error) if error.kind() == ErrorKind::OutOfMemory => return Err(error),
            Err(error) => writeln!(errors, "{path}: {error}: {UNWRITTEN}")?,
        }
        Ok(false)
    }
}

/// Whether something is at a path, or nothing can be; then that is told.
fn is_taken<E: Write>(
    rt: &HostRuntime,
    path: &str,
    words: &str,
    errors: &mut E,
) -> io::Result<bool> {
    match place_at(rt, path) {
        Ok(Place::Nothing) => return Ok(false),
        Ok(_) => writeln!(errors, "{path}: {words}")?,
        Err(error) if error.kind() == ErrorKind::OutOfMemory => return Err(error),
        Err(error) => writeln!(errors, "{path}: {error}")?,
    }
    Ok(true)
}

/// Whether something has the name of a page or of what it is written as; then that is told.
pub(crate) fn is_page_taken<E: Write>(
    rt: &HostRuntime,
    page: &str,
    errors: &mut E,
) -> io::Result<bool> {
    let part = format!(in rt.alloc(); "{page}.part")?;
    let is_taken_itself = is_taken(rt, page, "it is there; give the page another name", errors)?;
    Ok(is_taken_itself || is_taken(rt, &part, "a class left it; remove it", errors)?)
}
