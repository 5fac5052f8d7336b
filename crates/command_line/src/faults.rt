//! The faults that are printed instead of a deck's result.

ghost use Rattle.std.specs.{Prelude.{◌≡◌, Some}, IoError.{error_kind}};
ghost use Rattle.command_line.specs.Printed.{fault_words, reading_fault, writing_fault};

use cards::{CardFault, DeckFault, OUT_OF_MEMORY};
use std::alloc::AllocError;
use std::error::Error;
use std::fmt::{Display, Formatter};
use std::io::ErrorKind;
use std::{fmt, io};

/// Why a deck is not run or assembled. Its `Display` is what is printed.
#[derive(Clone, Copy, Debug, PartialEq, Eq)]
pub enum Fault {
    /// The text is not a deck's, or there is no memory to read it.
    Card(CardFault),
    /// The deck that is to be run has no card.
    Empty,
    /// The cards that load a program and the data cards after them are over 2,000.
    TooManyCards,
    /// There is no memory for the machine, what is assembled or a listing, or to write a file.
    Memory,
    /// A deck cannot be read, or a listing or a deck cannot be written.
    Device,
}

impl Fault {
    /// The fault of a deck that cannot be opened or read, by the error.
    pub fn of_reading(error: &io::Error) -> Fault
        ensures { result ≡ reading_fault (error_kind error.now) }
    {
        match error.kind() {
            ErrorKind::OutOfMemory => Fault::Card(OUT_OF_MEMORY),
            _ => Fault::Device,
        }
    }

    /// The fault of a file that cannot be written with this error.
    pub fn of_writing(error: &io::Error) -> Fault
        ensures { result ≡ writing_fault (error_kind error.now) }
    {
        match error.kind() {
            ErrorKind::OutOfMemory => Fault::Memory,
            _ => Fault::Device,
        }
    }
}

impl Display for Fault {
    ghost output = { λ fault. Some (fault_words fault) };

    fn fmt<W: fmt::Write>(&self, formatter: &mut Formatter<W>) -> fmt::Result {
        match self {
            Fault::Card(fault) => {
                let card = fault.card;
                let column = fault.column;
                let number = fault.error.number();
                write!(formatter, "card {card} column {column} fault {number}")
            }
            Fault::Empty => formatter.write_str("refused 13"),
            Fault::TooManyCards => formatter.write_str("fault 33"),
            Fault::Memory => formatter.write_str("fault 1"),
            Fault::Device => formatter.write_str("fault device"),
        }
    }
}

impl Error for Fault {}

impl From<DeckFault> for Fault {
    ghost use Rattle.std.specs.Prelude.{◌≡◌};
    ghost use Rattle.command_line.specs.Printed.{fault_of_deck};

    ghost from_gives = { λ deck_fault fault. fault ≡ fault_of_deck deck_fault };

    fn from(fault: DeckFault) -> Fault {
        match fault {
            DeckFault::TooManyCards => Fault::TooManyCards,
            DeckFault::NoMemory => Fault::Memory,
        }
    }
}

impl From<AllocError> for Fault {
    ghost use Rattle.std.specs.Prelude.{◌≡◌};
    ghost use Rattle.command_line.specs.declared.faults.Fault.TheVariants.{Memory};

    ghost from_gives = { λ _ fault. fault ≡ Memory };

    fn from(_error: AllocError) -> Fault {
        Fault::Memory
    }
}
