//! Writers whose lines are overheard.

use crate::explaining::told::Told;
use std::io;
use std::io::Write;

/// The most bytes of a line that tells something.
const LONGEST: usize = 64;

/// One more than the greatest number of a refusal.
const REASONS: usize = 30;

/// What was overheard.
#[derive(Clone, Copy)]
pub(crate) struct Heard {
    /// What the last line told that told something.
    pub(crate) last: Told,
    /// For which reasons something was refused, by their numbers.
    pub(crate) refusals: [bool; REASONS],
}

impl Heard {
    /// Takes in what a line told.
    fn hear(&mut self, told: Told) {
        match told {
            Told::Nothing => {}
            Told::Refused(number) => {
                self.last = told;
                if let Some(is_told) = self.refusals.get_mut(number as usize) {
                    *is_told = true;
                }
            }
            _ => self.last = told,
        }
    }
}

/// What the bytes of a line tell.
fn told_by(line: &[u8]) -> Told {
    match str::from_utf8(line) {
        Ok(line) => Told::of(line),
        Err(_) => Told::Nothing,
    }
}

/// A writer that passes on what is printed. If it is to, it overhears what the lines tell.
#[derive(Drop)]
pub(crate) struct Overheard<W: Write> {
    inner: W,
    listens: bool,
    line: [u8; LONGEST],
    length: usize,
    heard: Heard,
}

impl<W: Write> Overheard<W> {
    /// The writer over another one, which listens or does not.
    pub(crate) fn new(inner: W, listens: bool) -> Overheard<W> {
        Overheard {
            inner,
            listens,
            line: [0; LONGEST],
            length: 0,
            heard: Heard {
                last: Told::Nothing,
                refusals: [false; REASONS],
            },
        }
    }

    /// What was overheard so far.
    pub(crate) fn heard(&self) -> Heard {
        self.heard
    }

    /// Takes in a line that ends here.
    fn end_line(&mut self) {
        if let Some(line) = self.line.get(..self.length) {
            self.heard.hear(told_by(line));
        }
        self.length = 0;
    }

    /// Takes in the next byte.
    fn take(&mut self, byte: u8) {
        if byte == b'\n' {
            self.end_line();
        } else if let Some(place) = self.line.get_mut(self.length) {
            *place = byte;
            self.length = self.length.saturating_add(1);
        }
    }
}

impl<W: Write> Write for Overheard<W> {
    fn write(&mut self, buf: &[u8]) -> io::Result<usize> {
        let count = self.inner.write(buf)?;
        if !self.listens {
            return Ok(count);
        }
        for byte in buf.iter().take(count) {
            self.take(*byte);
        }
        Ok(count)
    }

    fn flush(&mut self) -> io::Result<()> {
        self.inner.flush()
    }
}
