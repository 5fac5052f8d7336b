//! Clients that come one after the other, each with one request.

ghost use Rattle.std.specs.Prelude.{List, MatchOption, Option, ℕ};

use std::io::{Read, Write};

/// A client that has come: its request is read, and its answer written.
#[derive(Drop)]
pub struct Visit<R: Drop, W: Drop> {
    /// What the client sends.
    pub reader: R,
    /// Where it is answered.
    pub writer: W,
}

/// The clients that come, one after the other, such as those that connect to a port.
pub trait Clients {
    /// What a client sends.
    type Reader: Read + Drop;

    /// Where a client is answered.
    type Writer: Write + Drop;

    // A client came: what it sends, and what the writer to it has at the beginning, if these are
    // known. The clients before it came, and after.
    ghost came: { Self → Self → Option (List ℕ) → Option (List ℕ) → Type 0 };

    // None came, or none that can be heard and answered.
    ghost missed: { Self → Self → Type 0 };

    // A client went: what the writer to it has at the end, if it is known.
    ghost went: { Self → Self → Option (List ℕ) → Type 0 };

    /// Waits for the next client.
    fn next(&mut self) -> Option<Visit<Self::Reader, Self::Writer>>
        ensures { MatchOption result (missed self.old self.new) (λ visit. came self.old self.new
            (Self.Reader.remaining visit.reader) (Self.Writer.contents visit.writer)) };

    /// Lets a client go. What one that was answered still sends is read for a while.
    fn end(&mut self, visit: Visit<Self::Reader, Self::Writer>, is_answered: bool)
        ensures { went self.old self.new (Self.Writer.contents visit.writer) };
}
