//! Submissions of a job of one card, as a script and as a request.

use std::alloc::{AllocError, Global};

/// A job of one card. Its customer is `ACME`, and its number is 9.
#[derive(Clone, Copy)]
pub(crate) struct OneCard {
    /// The number of positions of storage.
    pub(crate) size: u32,
    /// The sense switches, as they are written in scripts and in paths.
    pub(crate) switches: &'static str,
    /// The card, without its trailing blanks.
    pub(crate) card: &'static str,
}

/// A job that prints a line, punches a card and halts.
pub(crate) const PRINTING: OneCard = OneCard {
    size: 1400,
    switches: "-",
    card: ",008015,022029,030031,03203624.B029",
};

/// A job that punches three cards and halts with its eighth instruction.
pub(crate) const PUNCHING: OneCard = OneCard {
    size: 1400,
    switches: "-",
    card: ",008015,022029,030031,032033444.",
};

/// A job without an end.
pub(crate) const ENDLESS: OneCard = OneCard {
    size: 4000,
    switches: "A",
    card: ",008012B008",
};

impl OneCard {
    /// Returns a script that submits the job, and then has these lines.
    pub(crate) fn script(self, alloc: Global, lines: &str) -> Result<String, AllocError> {
        let OneCard {
            size,
            switches,
            card,
        } = self;
        format!(in alloc; "submit ACME 9 object {size} {switches} 1\n{card:80}\n{lines}")
    }

    /// Returns a request that submits the job, and these bytes after it.
    pub(crate) fn request(self, alloc: Global, more: &str) -> Result<String, AllocError> {
        let OneCard {
            size,
            switches,
            card,
        } = self;
        format!(in alloc;
            "PUT /c/ACME/j/9/object/{size}/{switches} HTTP/1.1\r\nContent-Length: 81\r\n\r\n\
            {card:80}\n{more}"
        )
    }
}
