//! The files of a bag as they are on the disk, and the digests that its manifests have of them.

use crate::job_folders::{Place, place_at};
use std::alloc::{AllocError, Global};
use std::{fs, io};
use texts::push_digest;

/// The most bytes of a file of a bag: more than 20,000 lines or cards make.
const MOST_BYTES: u64 = 16_000_000;

/// The files of the payload, in the order of the manifest.
pub(crate) const PAYLOAD: [&str; 6] = [
    "data/cards.punch",
    "data/cards.text",
    "data/deck.text",
    "data/lines.text",
    "data/loaded.text",
    "data/record",
];

/// The files of which the tag manifest has digests.
const TAGS: [&str; 3] = ["bag-info.txt", "bagit.txt", "manifest-sha256.txt"];

/// The bytes of a file of a bag, or what is wrong with it.
pub(crate) fn file_in(
    rt: &HostRuntime,
    folder: &str,
    name: &str,
) -> io::Result<Result<Vec<u8>, &'static str>> {
    let path = format!(in rt.alloc(); "{folder}/{name}")?;
    match place_at(rt, &path)? {
        Place::Nothing => return Ok(Err("is missing")),
        Place::Folder => return Ok(Err("is a folder")),
        Place::Other => {}
    }
    let found = fs::symlink_metadata(rt, &path)?;
    if !found.is_file() {
        return Ok(Err("is no file"));
    }
    if found.len() > MOST_BYTES {
        return Ok(Err("is larger than a file of a bag"));
    }
    Ok(Ok(fs::read(rt, &path)?))
}

/// Whether a manifest has the digest of bytes at the path of their file.
fn has_digest(
    alloc: Global,
    manifest: &[u8],
    name: &str,
    bytes: &[u8],
) -> Result<bool, AllocError> {
    let mut line = Vec::new(alloc);
    push_digest(alloc, &mut line, bytes)?;
    line.extend_from_slice(b"  ")?;
    line.extend_from_slice(name.as_bytes())?;
    let mut lines = manifest.split(|byte| *byte == b'\n');
    Ok(lines.any(|other| other == line.as_slice()))
}

/// Adds what is wrong with files by a manifest: one is missing, or its digest is not there.
fn compare_manifest(
    rt: &HostRuntime,
    folder: &str,
    manifest: &str,
    names: &[&str],
    told: &mut Vec<String>,
) -> io::Result<()> {
    let text = match file_in(rt, folder, manifest)? {
        Ok(text) => text,
        Err(wrong) => {
            told.push(format!(in rt.alloc(); "{manifest} {wrong}")?)?;
            return Ok(());
        }
    };
    for name in names {
        match file_in(rt, folder, name)? {
            Ok(bytes) if has_digest(rt.alloc(), &text, name, &bytes)? => {}
            Ok(_) => told.push(format!(in rt.alloc(); "{name} is not what {manifest} says")?)?,
            Err(wrong) => told.push(format!(in rt.alloc(); "{name} {wrong}")?)?,
        }
    }
    Ok(())
}

/// What is wrong with the files of a bag by its two manifests; nothing where they are whole.
pub(crate) fn faults_of(rt: &HostRuntime, folder: &str) -> io::Result<Vec<String>> {
    let mut told = Vec::new(rt.alloc());
    compare_manifest(rt, folder, "tagmanifest-sha256.txt", &TAGS, &mut told)?;
    compare_manifest(rt, folder, "manifest-sha256.txt", &PAYLOAD, &mut told)?;
    Ok(told)
}
