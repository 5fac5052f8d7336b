//! What undoes that an open failed, and what cannot be undone.

ghost use Rattle.std.specs.Prelude.{IsTrue, ◌↔◌};
ghost use Rattle.database_files.specs.Undoing.{IsHeadless, Undoes};

/// The most bytes of a log that no transaction was written to.
const EMPTY_LOG: u64 = 41;

/// The number of bytes that an open adds to a log of another program.
const ADDED: u64 = 9;

/// The fewest bytes of a log that has a header and the beginning of a frame.
const SHORTEST_LOG: u64 = 56;

/// The first byte of a log's header, which is written last.
const FIRST: u8 = 0x37;

/// Whether a log of this length and with this first byte has more than an empty one, but no header
/// behind which recovery looks: an open would empty it, and nothing undoes that.
pub fn is_headless(length: u64, first: Option<u8>) -> bool
    ensures { IsTrue result ↔ IsHeadless length first }
{
    length > EMPTY_LOG && (length < SHORTEST_LOG || first != Some(FIRST))
}

/// What is done to a log after an open that failed, so that it is again what it was before. No
/// transaction is lost by it: a log that is damaged is not opened.
#[derive(Clone, Copy)]
pub enum Undoing {
    /// Nothing.
    Keep,
    /// The log is removed: it was not there, and has no transaction.
    Remove,
    /// The log is cut to this length: what an open adds to a log, or writes where there was no
    /// byte, is shorter than a transaction.
    Cut(u64),
}

impl Undoing {
    /// What undoes an open that failed, for a log that had the length `before`, if there was one,
    /// and has the length `now`.
    pub fn of(before: Option<u64>, now: u64) -> Undoing
        ensures { Undoes before now result }
    {
        match before {
            None if now <= EMPTY_LOG => Undoing::Remove,
            Some(0) if now == 0 => Undoing::Keep,
            Some(0) if now <= EMPTY_LOG => Undoing::Cut(0),
            Some(before) if now.checked_sub(before) == Some(ADDED) => Undoing::Cut(before),
            _ => Undoing::Keep,
        }
    }
}
