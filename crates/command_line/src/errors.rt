//! The standard error, where what went wrong is printed.

ghost use Rattle.std.specs.{
  Prelude.{◌≡◌, None, Ok, true, false, is_err, length},
  Io.{WritesAtMost},
  Io.KnownBytes.{Appends, Keeps, WriteAppends},
};

use std::io;
use std::io::Write;

/// A writer that goes on if nothing more can be printed, as on a full disk or a closed stream: how
/// the program ends is told by its exit status then.
#[derive(Drop)]
pub struct Unfailing<W: Write> {
    inner: W,
    failed: bool,
}

impl<W: Write> Unfailing<W> {
    /// The writer over another one, which has not failed.
    pub fn new(inner: W) -> Unfailing<W>
        ensures over { result.inner ≡ inner }
        ensures works { result.failed ≡ false }
    {
        Unfailing {
            inner,
            failed: false,
        }
    }

    /// Goes on without the other writer if its last call failed.
    fn note(&mut self, outcome: io::Result<()>)
        ensures over { self.new.inner ≡ self.old.inner }
        ensures failed { self.new.failed ≡ is_err outcome }
    {
        self.failed = outcome.is_err();
    }
}

impl<W: Write> Write for Unfailing<W> {
    fn write(&mut self, buf: &[u8]) -> io::Result<usize>
        ensures bound { WritesAtMost result buf.now }
        ensures bytes { WriteAppends None None result buf.now }
        ensures taken { result ≡ Ok (length buf.now) }
        ensures printed { self.new.failed ≡ false
            → Appends (W.contents self.old.inner) (W.contents self.new.inner) buf.now }
        ensures silent { self.old.failed ≡ true → self.new ≡ self.old }
    {
        if !self.failed {
            let outcome = self.inner.write_all(buf);
            self.note(outcome);
        }
        Ok(buf.len())
    }

    fn flush(&mut self) -> io::Result<()>
        ensures bytes { Keeps None None }
        ensures kept { self.new.failed ≡ false
            → Keeps (W.contents self.old.inner) (W.contents self.new.inner) }
        ensures silent { self.old.failed ≡ true → self.new ≡ self.old }
    {
        if !self.failed {
            let outcome = self.inner.flush();
            self.note(outcome);
        }
        Ok(())
    }
}
