//! The process in which a subcommand is done.

ghost use Rattle.std.specs.Prelude.{◌<◌, length, IfOk};

use crate::decks::{Named, fault_of_deck, read_as, read_images_as, tell_form_fault};
use crate::files::{Access, TOO_LONG, bytes_at, tell_failed};
use crate::undone::Undone;
use card_forms::{CardImage, ImageFault};
use cards::Deck;
use command_line::{Status, put_out};
use local_runs::replace_file;
use run_traces::Names;
use std::alloc::Global;
use std::io;
use std::io::{ErrorKind, Write};

/// The process in which a subcommand is done: the system with its files, and two outputs.
#[derive(Drop)]
pub(crate) struct Process<W, E> {
    /// The system.
    pub rt: HostRuntime,
    /// What is asked for is printed here.
    pub output: W,
    /// What is wrong is told here.
    pub errors: E,
}

/// The status of a subcommand that found all as it should be, or did not.
pub(crate) fn status_if(is_right: bool) -> Status {
    if is_right {
        Status::Done
    } else {
        Status::NotDone
    }
}

impl<W: Write, E: Write> Process<W, E> {
    /// The memory.
    pub(crate) fn alloc(&self) -> Global {
        self.rt.alloc()
    }

    /// Says why a file or a folder is not taken.
    pub(crate) fn tell(&mut self, path: &str, why: &str) -> io::Result<()> {
        writeln!(self.errors, "{path}: {why}")
    }

    /// Says why a subcommand is not done with a file.
    pub(crate) fn refuse(&mut self, path: &str, why: &str) -> io::Result<Undone> {
        self.tell(path, why)?;
        Ok(Undone::Told(Status::NotDone))
    }

    /// Prints a text, and ends with a status; or says that it cannot be printed.
    pub(crate) fn print(&mut self, text: &[u8], status: Status) -> Result<Status, Undone> {
        if put_out(&mut self.output, text).is_err() {
            self.errors
                .write_all(b"the standard output cannot be written\n")?;
            return Err(Undone::Told(Status::NotDone));
        }
        Ok(status)
    }

    /// Writes bytes to the file at a path, or to the standard output for `-`.
    pub(crate) fn write(&mut self, path: &str, bytes: &[u8]) -> Result<Status, Undone> {
        if path == "-" {
            return self.print(bytes, Status::Done);
        }
        let Err(error) = replace_file(&self.rt, path, bytes) else {
            return Ok(Status::Done);
        };
        if error.kind() == ErrorKind::OutOfMemory {
            return Err(Undone::Memory);
        }
        tell_failed(&mut self.errors, path, Access::Write, &error)?;
        Err(Undone::Told(Status::NotDone))
    }

    /// The bytes of the file at a path, or of the standard input for `-`.
    pub(crate) fn read(&mut self, path: &str) -> Result<Vec<u8>, Undone> {
        match bytes_at(&self.rt, path) {
            Ok(Some(bytes)) => Ok(bytes),
            Ok(None) => Err(self.refuse(path, TOO_LONG)?),
            Err(error) => {
                tell_failed(&mut self.errors, path, Access::Read, &error)?;
                Err(Undone::Told(Status::NotDone))
            }
        }
    }

    /// Says what is wrong with the bytes of a file of which nobody named the form.
    pub(crate) fn tell_form(
        &mut self,
        path: &str,
        bytes: &[u8],
        fault: ImageFault,
    ) -> io::Result<Undone> {
        tell_form_fault(&mut self.errors, Named { path, bytes }, None, fault)
    }

    /// The deck in the file at a path: a text or a punch file.
    pub(crate) fn deck_at(&mut self, path: &str) -> Result<Deck, Undone> {
        let bytes = self.read(path)?;
        match read_as(self.alloc(), None, &bytes) {
            Ok(deck) => Ok(deck),
            Err(fault) => Err(self.tell_form(path, &bytes, fault_of_deck(fault))?),
        }
    }

    /// The cards in the file at a path, a text or a punch file: of any number and any patterns.
    pub(crate) fn images_at(&mut self, path: &str) -> Result<Vec<CardImage>, Undone> {
        let bytes = self.read(path)?;
        match read_images_as(self.alloc(), None, &bytes) {
            Ok(images) => Ok(images),
            Err(fault) => Err(self.tell_form(path, &bytes, fault)?),
        }
    }

    /// The deck in the file at a path, with a card at least.
    pub(crate) fn deck_to_run(&mut self, path: &str) -> Result<Deck, Undone>
        ensures { IfOk result (λ deck. 0 < length deck) }
    {
        let deck = self.deck_at(path)?;
        if deck.cards().is_empty() {
            return Err(self.refuse(path, "the file is empty: the deck has no card")?);
        }
        Ok(deck)
    }

    /// The names of the source in the file at a path, if there is one.
    pub(crate) fn names_at(&mut self, path: Option<&str>) -> Result<Option<Names>, Undone> {
        let Some(path) = path else {
            return Ok(None);
        };
        let deck = self.deck_at(path)?;
        match Names::of(self.alloc(), deck)? {
            Some(names) => Ok(Some(names)),
            None => Err(self.refuse(path, "the source has faults; workbench source shows them")?),
        }
    }
}
