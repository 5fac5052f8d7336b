//! The files that subcommands read, and what is said of one that cannot be read or written.

use std::fs::File;
use std::io;
use std::io::{ErrorKind, Write};
use texts::read_up_to;

/// How many bytes of a file are read at most: those of 132,780 cards in a punch file, and of more
/// in the other forms.
const MOST_BYTES: u64 = 32_000_000;

/// What is said of a file that has more.
pub(crate) const TOO_LONG: &str = "it has more than 32,000,000 bytes";

/// The bytes of what was read; none if there are too many.
fn whole(bytes: Vec<u8>) -> Option<Vec<u8>> {
    if bytes.len() as u64 > MOST_BYTES {
        return None;
    }
    Some(bytes)
}

/// The bytes of the file at a path, or of the standard input for `-`; none if it has too many.
pub(crate) fn bytes_at(rt: &HostRuntime, path: &str) -> io::Result<Option<Vec<u8>>> {
    if path == "-" {
        return Ok(whole(read_up_to(rt.alloc(), rt.stdin(), MOST_BYTES + 1)?));
    }
    let file = File::open(rt, path)?;
    Ok(whole(read_up_to(rt.alloc(), file, MOST_BYTES + 1)?))
}

/// What was to be done with a file.
#[derive(Clone, Copy)]
pub(crate) enum Access {
    /// It was to be read.
    Read,
    /// It was to be written.
    Write,
}

/// What is said of a file that is not read, by the kind of the error; none where the error says it.
fn words_of_reading(kind: ErrorKind) -> Option<&'static str> {
    match kind {
        ErrorKind::OutOfMemory => Some("there is not enough memory to read it"),
        ErrorKind::NotFound => Some("there is no such file"),
        ErrorKind::PermissionDenied => Some("there is no permission to read it"),
        ErrorKind::IsADirectory => Some("it is a folder"),
        ErrorKind::NotADirectory => Some("a part of its path is a file and no folder"),
        _ => None,
    }
}

/// What is said of a file that is not written, by the kind of the error; none where the error says
/// it.
fn words_of_writing(kind: ErrorKind) -> Option<&'static str> {
    match kind {
        ErrorKind::NotFound => Some("the folder that it is to be in is not there"),
        ErrorKind::PermissionDenied => {
            Some("there is no permission to write it, or to make a file in its folder")
        }
        ErrorKind::IsADirectory => Some("it is a folder"),
        ErrorKind::NotADirectory => Some("a part of its path is a file and no folder"),
        ErrorKind::StorageFull => Some("there is no room left on the disk"),
        _ => None,
    }
}

impl Access {
    /// What is said of a file by the kind of the error; none where the error says it.
    fn words(self, kind: ErrorKind) -> Option<&'static str> {
        match self {
            Access::Read => words_of_reading(kind),
            Access::Write => words_of_writing(kind),
        }
    }

    /// What is said of a file where the error says why.
    fn undone(self) -> &'static str {
        match self {
            Access::Read => "it cannot be read",
            Access::Write => "it cannot be written",
        }
    }
}

/// Says why a file is not read or not written.
pub(crate) fn tell_failed<E: Write>(
    errors: &mut E,
    path: &str,
    access: Access,
    error: &io::Error,
) -> io::Result<()> {
    match access.words(error.kind()) {
        Some(words) => writeln!(errors, "{path}: {words}"),
        None => writeln!(errors, "{path}: {}: {error}", access.undone()),
    }
}
