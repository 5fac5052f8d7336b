//! The units of a machine, together.

ghost use Rattle.std.specs.Prelude.{◌≡◌};
ghost use Rattle.units.specs.Units.{is_last_card, made_in_all};

use crate::printer::Printer;
use crate::punch::Punch;
use crate::reader::Hopper;
use crate::switches::Switches;
use bitflags::Flags;
use std::alloc::AllocError;

/// How many cards and how many lines.
#[derive(Clone, Copy)]
pub struct Counts {
    pub cards: u32,
    pub lines: u32,
}

/// The units of a machine: reader, punch, printer and sense switches.
#[derive(Drop)]
pub struct Units {
    pub hopper: Hopper,
    /// How many cards and lines were made before those of the punch and the printer. They are kept
    /// elsewhere; the greatest numbers count them too.
    pub before: Counts,
    pub punch: Punch,
    pub printer: Printer,
    /// The sense switches as the operator set them at the last start.
    pub switches: Switches,
}

impl Units {
    /// Whether the last card was read and switch A is on.
    pub fn is_last_card(&self) -> bool
        ensures { result ≡ is_last_card self.now.switches self.now.hopper }
    {
        self.switches.contains(Switches::A) && self.hopper.is_empty()
    }

    /// Takes memory for all cards and lines that can be made, so that making them takes none. Fails
    /// only if there is none.
    pub fn make_room(&mut self) -> Result<(), AllocError>
        ensures { self.new ≡ self.old }
    {
        self.punch.make_room()?;
        self.printer.make_room()
    }

    /// How many cards were made in all: those before, and the punch's own.
    pub fn cards_in_all(&self) -> usize
        ensures { result ≡ (made_in_all self.now).cards }
    {
        self.before.cards as usize + self.punch.cards.len()
    }

    /// How many lines were made in all: those before, and the printer's own.
    pub fn lines_in_all(&self) -> usize
        ensures { result ≡ (made_in_all self.now).lines }
    {
        self.before.lines as usize + self.printer.lines.len()
    }
}
