//! The page of an archived job: a file in the job's folder, beside those of its bag.

use crate::job_folders::{has_nothing, settle, write_new};
use std::io::ErrorKind;
use std::{fs, io};

/// The name of a page in its job's folder.
pub(crate) const PAGE: &str = "page.html";

/// Where a page is to be written: its path, and its name until it is whole.
#[derive(Drop)]
pub(crate) struct PagePlace {
    folder: String,
    path: String,
    part: String,
}

/// What there is of the page of a job.
#[derive(Drop)]
pub(crate) enum PageFound {
    /// Nothing: it may be written there.
    Missing(PagePlace),
    /// A page.
    Kept,
    /// What is at this path is in the way.
    Hindered(String),
}

/// Whether there is a file at a path, and no link to one.
fn has_file(rt: &HostRuntime, path: &str) -> io::Result<bool> {
    match fs::symlink_metadata(rt, path) {
        Ok(found) => Ok(found.is_file()),
        Err(error) if error.kind() == ErrorKind::NotFound => Ok(false),
        Err(error) => Err(error),
    }
}

/// Whether something is at a path that is no file: a folder, a link or a device.
fn is_taken(rt: &HostRuntime, path: &str) -> io::Result<bool> {
    Ok(!has_nothing(rt, path)? && !has_file(rt, path)?)
}

/// Whether something is in the way of a page in a job's folder.
pub(crate) fn is_hindered(rt: &HostRuntime, folder: &str) -> io::Result<bool> {
    is_taken(rt, &format!(in rt.alloc(); "{folder}/{PAGE}")?)
}

/// What there is of the page in a job's folder. What a killed run has left of it beside the folder
/// is removed.
pub(crate) fn page_at(rt: &HostRuntime, folder: &str) -> io::Result<PageFound> {
    let path = format!(in rt.alloc(); "{folder}/{PAGE}")?;
    let part = format!(in rt.alloc(); "{folder}.page.part")?;
    if is_taken(rt, &path)? {
        return Ok(PageFound::Hindered(path));
    }
    if has_file(rt, &path)? {
        return Ok(PageFound::Kept);
    }
    if is_taken(rt, &part)? {
        return Ok(PageFound::Hindered(part));
    }
    if has_file(rt, &part)? {
        fs::remove_file(rt, &part)?;
    }
    let folder = String::from_str(rt.alloc(), folder)?;
    Ok(PageFound::Missing(PagePlace { folder, path, part }))
}

/// Writes a page under another name, and then renames it. If it cannot be written, nothing is left
/// of it.
pub(crate) fn write_page(rt: &HostRuntime, place: &PagePlace, page: &[u8]) -> io::Result<()> {
    let mut written = write_new(rt, &place.part, page);
    if written.is_ok() {
        written = fs::rename(rt, &place.part, &place.path);
    }
    if written.is_err() {
        // What cannot be removed is told of by the next archive.
        let _ = fs::remove_file(rt, &place.part);
    }
    written?;
    settle(rt, &place.folder)
}
