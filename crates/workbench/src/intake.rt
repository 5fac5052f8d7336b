//! The subcommand `intake`.

use crate::files::{Access, TOO_LONG, bytes_at, tell_failed};
use crate::folders::files_of;
use crate::manifests::{hindrance_of, lines_of};
use crate::process::{Process, status_if};
use crate::taking::{copy_of, push_taken, taken};
use crate::undone::Undone;
use card_forms::{Form, read_images};
use card_texts::{Reading, Rules, Signs};
use card_tools::manifest_line;
use command_line::Status;
use local_runs::replace_file;
use std::alloc::{AllocError, Global};
use std::io::{ErrorKind, Write};
use std::path::PathBuf;
use std::{fs, io};
use workbench_arguments::Intake;

/// What became of the files so far.
#[derive(Drop)]
struct Tally {
    /// The lines of those that were refused.
    refused: Vec<u8>,
    /// The new lines of the manifest.
    digests: Vec<u8>,
    /// How many were taken.
    taken: u64,
    /// How many decks were there already.
    there: u64,
    /// How many were refused.
    refusals: u64,
}

impl Tally {
    /// No file was looked at.
    fn empty(alloc: Global) -> Self {
        Tally {
            refused: Vec::new(alloc),
            digests: Vec::new(alloc),
            taken: 0,
            there: 0,
            refusals: 0,
        }
    }

    /// Begins the line of a file that is refused. The reason is to follow.
    fn refuse(&mut self, path: &str) -> Result<(), AllocError> {
        self.refusals = self.refusals.saturating_add(1);
        self.refused.extend_from_slice(path.as_bytes())?;
        self.refused.extend_from_slice(b": refused: ")
    }

    /// Adds the line of a file that is refused.
    fn push_refused(&mut self, path: &str, why: &[u8]) -> Result<(), AllocError> {
        self.refuse(path)?;
        self.refused.extend_from_slice(why)
    }

    /// Adds the line of a file that is refused for this.
    fn push_refused_line(&mut self, path: &str, why: &str) -> Result<(), AllocError> {
        self.push_refused(path, why.as_bytes())?;
        self.refused.extend_from_slice(b"\n")
    }

    /// The line with the counts.
    fn sum(&self, alloc: Global) -> io::Result<String> {
        let (taken, there, refusals) = (self.taken, self.there, self.refusals);
        Ok(format!(in alloc; "taken {taken} there {there} refused {refusals}\n")?)
    }
}

/// Where a deck goes: the path of its file, the path of its text, and the lines that the manifest
/// has already.
#[derive(Clone, Copy)]
struct Destination<'a> {
    /// The path of the file.
    path: &'a str,
    /// The path of the deck's text.
    target: &'a str,
    /// The lines of the manifest.
    known: &'a [&'a [u8]],
}

/// What is at the path of a deck's text.
enum Place {
    /// Nothing.
    Free,
    /// This very text.
    Same,
    /// Another one.
    Other,
    /// No file.
    NoFile,
}

/// What is at the path of a deck's text.
fn place_at(rt: &HostRuntime, target: &str, text: &[u8]) -> io::Result<Place> {
    match fs::symlink_metadata(rt, target) {
        Err(error) if error.kind() == ErrorKind::NotFound => return Ok(Place::Free),
        Err(error) => return Err(error),
        Ok(_) => {}
    }
    if !fs::metadata(rt, target)?.is_file() {
        return Ok(Place::NoFile);
    }
    match bytes_at(rt, target)? {
        Some(bytes) if bytes.as_slice() == text => Ok(Place::Same),
        _ => Ok(Place::Other),
    }
}

/// Writes a deck's text to a path where no file is, with the folders that it wants.
fn put(rt: &HostRuntime, target: &str, text: &[u8]) -> io::Result<()> {
    if let Some((folder, _)) = target.rsplit_once('/') {
        fs::create_dir_all(rt, folder)?;
    }
    replace_file(rt, target, text)
}

/// Adds the line of a deck to the new ones of the manifest, unless the manifest has it. A deck's
/// own text is read, if there is memory.
fn push_digest(
    alloc: Global,
    tally: &mut Tally,
    place: Destination<'_>,
    text: &[u8],
) -> Result<(), Undone> {
    let Ok(deck) = read_images(alloc, Form::Text, text) else {
        return Err(Undone::Memory);
    };
    let line = manifest_line(alloc, &deck, place.target.as_bytes())?;
    let is_known = |known: &&[u8]| line.strip_suffix(b"\n") == Some(*known);
    if place.known.iter().any(is_known) {
        return Ok(());
    }
    Ok(tally.digests.extend_from_slice(&line)?)
}

/// What stands at the path of a deck's text in the end.
enum Stands {
    /// The text, which was written now.
    Now,
    /// The text, which was there.
    Already,
    /// Another file, or none. That was told.
    Not,
}

impl Tally {
    /// Adds the line of a file that is not written.
    fn push_unwritten(
        &mut self,
        alloc: Global,
        place: Destination<'_>,
        error: &io::Error,
    ) -> io::Result<Stands> {
        let Destination { path, target, .. } = place;
        let name = format!(in alloc; "{path}: refused: {target}")?;
        tell_failed(&mut self.refused, &name, Access::Write, error)?;
        self.refusals = self.refusals.saturating_add(1);
        Ok(Stands::Not)
    }

    /// Adds the line of a file that is not read.
    fn push_unread(&mut self, alloc: Global, path: &str, error: &io::Error) -> io::Result<()> {
        let name = format!(in alloc; "{path}: refused")?;
        tell_failed(&mut self.refused, &name, Access::Read, error)?;
        self.refusals = self.refusals.saturating_add(1);
        Ok(())
    }

    /// Adds the line of a file at whose path something else is.
    fn push_in_the_way(&mut self, place: Destination<'_>, what: &[u8]) -> io::Result<Stands> {
        self.push_refused(place.path, place.target.as_bytes())?;
        self.refused.extend_from_slice(what)?;
        Ok(Stands::Not)
    }

    /// Puts a deck's text at its path, if nothing is there.
    fn put(&mut self, rt: &HostRuntime, place: Destination<'_>, text: &[u8]) -> io::Result<Stands> {
        match place_at(rt, place.target, text) {
            Ok(Place::Free) => match put(rt, place.target, text) {
                Ok(()) => Ok(Stands::Now),
                Err(error) => self.push_unwritten(rt.alloc(), place, &error),
            },
            Ok(Place::Same) => Ok(Stands::Already),
            Ok(Place::Other) => self.push_in_the_way(place, b" is there and is another deck\n"),
            Ok(Place::NoFile) => self.push_in_the_way(place, b" is there and is no file\n"),
            Err(error) => self.push_unwritten(rt.alloc(), place, &error),
        }
    }
}

/// Puts the deck that a file is at its path, and prints how it was taken.
fn keep<W: Write, E: Write>(
    process: &mut Process<W, E>,
    tally: &mut Tally,
    rules: &mut Rules,
    place: Destination<'_>,
    bytes: &[u8],
    reading: &Reading,
) -> Result<(), Undone> {
    let alloc = process.alloc();
    let mut line = Vec::new(alloc);
    line.extend_from_slice(place.path.as_bytes())?;
    match tally.put(&process.rt, place, &reading.text)? {
        Stands::Now => {
            tally.taken = tally.taken.saturating_add(1);
            line.extend_from_slice(b": taken")?;
            push_taken(alloc, &mut line, rules, bytes, reading)?;
        }
        Stands::Already => {
            tally.there = tally.there.saturating_add(1);
            line.extend_from_slice(b": there")?;
        }
        Stands::Not => return Ok(()),
    }
    line.extend_from_slice(b"\n")?;
    push_digest(alloc, tally, place, &reading.text)?;
    process.print(&line, Status::Done)?;
    Ok(())
}

/// Takes a file as a deck.
fn take_file<W: Write, E: Write>(
    process: &mut Process<W, E>,
    tally: &mut Tally,
    rules: &mut Rules,
    named: Option<Signs>,
    place: Destination<'_>,
) -> Result<(), Undone> {
    let alloc = process.alloc();
    let mut told = Vec::new(alloc);
    if let Some(why) = hindrance_of(place.target.as_bytes()) {
        return Ok(tally.push_refused_line(place.path, why)?);
    }
    let bytes = match bytes_at(&process.rt, place.path) {
        Ok(Some(bytes)) => bytes,
        Ok(None) => return Ok(tally.push_refused_line(place.path, TOO_LONG)?),
        Err(error) => return Ok(tally.push_unread(alloc, place.path, &error)?),
    };
    match taken(alloc, rules, named, &bytes, &mut told)? {
        Some(reading) => keep(process, tally, rules, place, &bytes, &reading),
        None => Ok(tally.push_refused(place.path, &told)?),
    }
}

/// A path without the strokes at its end.
fn without_strokes(path: &str) -> &str {
    let shorter = path.trim_end_matches('/');
    if shorter.is_empty() { path } else { shorter }
}

/// The path of a file in another folder.
fn path_in(alloc: Global, folder: &str, out: &str, path: &str) -> io::Result<String> {
    let part = path.strip_prefix(folder).unwrap_or(path);
    let part = part.trim_start_matches('/');
    Ok(format!(in alloc; "{out}/{part}")?)
}

/// Takes the files of a folder as decks.
fn take_files<'a, W: Write, E: Write>(
    process: &mut Process<W, E>,
    tally: &mut Tally,
    wish: &Intake<'_>,
    paths: &'a [String],
    known: &'a [&'a [u8]],
) -> Result<(), Undone> {
    let mut rules = copy_of(process.alloc(), &wish.rules)?;
    let folder = without_strokes(wish.folder);
    let out = without_strokes(wish.out);
    for path in paths {
        let path = path.as_str();
        let target = path_in(process.alloc(), folder, out, path)?;
        let target = target.as_str();
        let place = Destination {
            path,
            target,
            known: &*known,
        };
        take_file(process, tally, &mut rules, wish.named, place)?;
    }
    Ok(())
}

/// The folder at a path, or the nearest one above it that is there.
fn nearest(rt: &HostRuntime, path: &str) -> io::Result<PathBuf> {
    let mut rest = path;
    for _folder in 0..path.len() {
        if let Ok(found) = fs::canonicalize(rt, rest) {
            return Ok(found);
        }
        match rest.rsplit_once('/') {
            Some(("", _)) => return fs::canonicalize(rt, "/"),
            Some((above, _)) => rest = above,
            None => return fs::canonicalize(rt, "."),
        }
    }
    fs::canonicalize(rt, ".")
}

/// Whether one of two folders is in the other, or is the same.
fn overlap(rt: &HostRuntime, folder: &str, out: &str) -> io::Result<bool> {
    let whole = fs::canonicalize(rt, folder)?;
    let near = nearest(rt, out)?;
    let is_there = fs::metadata(rt, out).is_ok();
    Ok(near.starts_with(&whole) || is_there && whole.starts_with(&near))
}

/// Says what is wrong with the two folders, if anything is.
fn look_at_folders<W: Write, E: Write>(
    process: &mut Process<W, E>,
    folder: &str,
    out: &str,
) -> Result<(), Undone> {
    match fs::metadata(&process.rt, folder) {
        Ok(found) if found.is_dir() && folder != "-" => {}
        Ok(_) => return Err(process.refuse(folder, "it is no folder")?),
        Err(error) => {
            tell_failed(&mut process.errors, folder, Access::Read, &error)?;
            return Err(Undone::Told(Status::NotDone));
        }
    }
    if overlap(&process.rt, folder, out)? {
        return Err(process.refuse(
            out,
            "one of the two folders is in the other; name one beside it",
        )?);
    }
    Ok(())
}

/// The lines of a manifest, if it is there.
fn manifest_at<W: Write, E: Write>(
    process: &mut Process<W, E>,
    path: &str,
) -> Result<Vec<u8>, Undone> {
    match fs::symlink_metadata(&process.rt, path) {
        Err(error) if error.kind() == ErrorKind::NotFound => Ok(Vec::new(process.alloc())),
        _ => process.read(path),
    }
}

/// Writes a manifest with new lines behind those that it has, if there are some.
fn write_manifest<W: Write, E: Write>(
    process: &mut Process<W, E>,
    path: &str,
    known: &[u8],
    digests: &[u8],
) -> Result<(), Undone> {
    if digests.is_empty() {
        return Ok(());
    }
    let mut whole = Vec::new(process.alloc());
    whole.extend_from_slice(known)?;
    if !known.is_empty() && !known.ends_with(b"\n") {
        whole.extend_from_slice(b"\n")?;
    }
    whole.extend_from_slice(digests)?;
    process.write(path, &whole)?;
    Ok(())
}

/// The path of the manifest beside a folder.
fn manifest_path(alloc: Global, out: &str) -> io::Result<String> {
    Ok(format!(in alloc; "{out}.manifest")?)
}

/// Takes each file of a folder as a deck, whose text is put into another folder at the same path,
/// and adds the digests to the manifest beside that.
pub(crate) fn take_in<W: Write, E: Write>(
    process: &mut Process<W, E>,
    wish: &Intake<'_>,
) -> Result<Status, Undone> {
    let alloc = process.alloc();
    let folder = without_strokes(wish.folder);
    let out = without_strokes(wish.out);
    look_at_folders(process, folder, out)?;
    let manifest = manifest_path(alloc, out)?;
    let text = manifest_at(process, &manifest)?;
    let known = lines_of(alloc, &text)?;
    let files = files_of(process, &[folder])?;
    let mut tally = Tally::empty(alloc);
    take_files(process, &mut tally, wish, &files.paths, &known)?;
    let written = write_manifest(process, &manifest, &text, &tally.digests);
    process.print(&tally.refused, Status::Done)?;
    let sum = tally.sum(alloc)?;
    let status = status_if(tally.refusals == 0 && files.whole);
    let status = process.print(sum.as_bytes(), status)?;
    written?;
    Ok(status)
}
