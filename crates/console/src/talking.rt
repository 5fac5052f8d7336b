//! A session over a reader and a writer.

ghost use Rattle.std.specs.{
  Prelude.{◌≡◌, ◌<◌, ◌≤◌, IfErr, IfNone, IfOk, IfSome, MatchOption, OnErr, length},
  Io.{StartsWith, StopsAt},
  Io.KnownBytes.{Keeps},
};
ghost use Rattle.console.specs.{
  SessionStates.{HasCome},
  Talks.{HasEnded, HasGiven, IsFailure, IsLast, IsPart, IsRead, IsTalk, IsUnread, PutsSo},
};

use crate::answering::answer_line;
use crate::sessions::Session;
use std::alloc::Global;
use std::io::{BufRead, ErrorKind, Write};
use texts::{Sent, send};

/// How a session ended.
#[derive(Clone, Copy, Debug, PartialEq, Eq)]
pub enum Ended {
    /// The reader has no further line.
    AtEnd,
    /// A line asked for it.
    Asked,
    /// There is no memory.
    NoMemory,
    /// A line is longer than those that are read.
    TooLong,
    /// The reader failed.
    ReadFailed,
    /// The writer failed.
    WriteFailed,
}

/// The most bytes of a line that is read, with its line feed.
const LONGEST_LINE: usize = 4_096;

/// How a session ends whose reader failed.
fn ending_for(kind: ErrorKind) -> Ended
    ensures { IsFailure result }
{
    if kind == ErrorKind::OutOfMemory {
        return Ended::NoMemory;
    }
    Ended::ReadFailed
}

/// What these bytes give of a line: up to its line feed, and so many at most.
fn part_of(bytes: &[u8], room: usize) -> &[u8]
    requires { 0 < room }
    ensures front { StartsWith bytes.now result.now }
    ensures within { length result.now ≤ room }
    ensures some { 0 < length bytes.now → 0 < length result.now }
    ensures stops { StopsAt result.now 10 }
{
    let near = &bytes[..bytes.len().min(room)];
    match near.iter().position(|byte| *byte == b'\n') {
        Some(place) => &near[..place + 1],
        None => near,
    }
}

/// Whether a line ends with this part of it: with its line feed, or because there is no more.
fn is_last(part: &[u8]) -> bool
    requires { StopsAt part.now 10 }
    ensures { IsLast part.now result }
{
    match part.last() {
        None => true,
        Some(byte) => *byte == b'\n',
    }
}

/// Reads on in a line: what the reader has at hand, and so many bytes at most. Returns whether the
/// line ends there.
fn read_part<R: BufRead>(reader: &mut R, line: &mut Vec<u8>, room: usize) -> Result<bool, Ended>
    requires { 0 < room }
    ensures part { IfOk result (λ last. IsPart (R.remaining reader.old) (R.remaining reader.new)
        line.old.items line.new.items room last) }
    ensures failed { IfErr result IsFailure }
    ensures kept { OnErr result (Keeps (R.remaining reader.old) (R.remaining reader.new)) }
{
    let bytes = match reader.fill_buf() {
        Ok(bytes) => bytes,
        Err(error) if error.kind() == ErrorKind::Interrupted => return Ok(false),
        Err(error) => return Err(ending_for(error.kind())),
    };
    let part = part_of(bytes, room);
    if line.extend_from_slice(part).is_err() {
        return Err(Ended::NoMemory);
    }
    let last = is_last(part);
    let count = part.len();
    reader.consume(count);
    Ok(last)
}

/// A line, unless it is empty.
fn unless_empty(line: Vec<u8>) -> Option<Vec<u8>>
    ensures { MatchOption result (length line.items ≡ 0)
        (λ found. (0 < length line.items) × (found.items ≡ line.items)) }
{
    if line.is_empty() { None } else { Some(line) }
}

/// Reads the next line, if there is one. Of a line that is too long no more is read than of one that
/// is not.
fn next_line<R: BufRead>(alloc: Global, reader: &mut R) -> Result<Option<Vec<u8>>, Ended>
    ensures line { IfOk result (λ found. IfSome found (λ line.
        IsRead (R.remaining reader.old) line.items (R.remaining reader.new))) }
    ensures end { IfOk result (λ found. IfNone found
        (HasEnded (R.remaining reader.old) (R.remaining reader.new))) }
    ensures given { HasGiven (R.remaining reader.old) (R.remaining reader.new) }
    ensures failed { IfErr result (λ ended.
        IsUnread ended (R.remaining reader.old) (R.remaining reader.new)) }
{
    let mut line = Vec::new(alloc);
    for _try in 0..u64::MAX {
        let room = LONGEST_LINE - line.len();
        if read_part(reader, &mut line, room)? {
            return Ok(unless_empty(line));
        }
        if line.len() == LONGEST_LINE {
            return Err(Ended::TooLong);
        }
    }
    Err(Ended::ReadFailed)
}

/// Writes bytes, and flushes them. Returns whether that was done.
fn put<W: Write>(writer: &mut W, bytes: &[u8]) -> bool
    ensures { PutsSo bytes.now (W.contents writer.old) (W.contents writer.new) result }
{
    match send(writer, bytes) {
        Sent::Whole => writer.flush().is_ok(),
        Sent::Failed(_) => false,
    }
}

/// Reads lines, and answers each before it reads the next: its bytes are written and flushed
/// first. The session is then as the answers left it, and the reader has what is behind the lines.
/// A line has at most 4,096 bytes, with its line feed; a longer one ends the session unanswered. If
/// there is no memory for an answer, what the session has done for that line is not known.
pub fn console<R: BufRead, W: Write>(
    alloc: Global,
    session: &mut Session,
    reader: &mut R,
    writer: &mut W,
) -> Ended
    requires { HasCome session.old }
    ensures { IsTalk session.old session.new (R.remaining reader.old) (R.remaining reader.new)
        (W.contents writer.old) (W.contents writer.new) result }
{
    for _ in 0..u64::MAX {
        let line = match next_line(alloc, reader) {
            Ok(Some(line)) => line,
            Ok(None) => return Ended::AtEnd,
            Err(ended) => return ended,
        };
        let Ok(given) = answer_line(alloc, session, &line) else {
            return Ended::NoMemory;
        };
        if !put(writer, &given.text) {
            return Ended::WriteFailed;
        }
        if given.ends {
            return Ended::Asked;
        }
    }
    Ended::ReadFailed
}
