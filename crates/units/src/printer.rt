//! The printer, and the lines it has printed.

ghost use Rattle.std.specs.Prelude.{◌≡◌, ◌≤◌, length, Ok, Err, OnOk, OnErr, IfErr};
ghost use Rattle.core_store.specs.declared.checks.Check.TheVariants.{PrinterFull};
ghost use Rattle.units.specs.Units.{areas_end, line_printed, IsStopped, PrintFails};

use crate::areas::{PRINT_AREA, codes_at};
use crate::carriage::Carriage;
use crate::fault::Fault;
use bcd::Code;
use core_store::{Check, Core};
use std::alloc::AllocError;
use std::marker::Model;

/// The greatest number of lines that the printer makes.
pub const MOST_LINES: usize = 20_000;

/// The number of characters of a printed line.
pub const LINE_LENGTH: usize = 132;

/// A printed line: its form and line, and the characters of the print area.
#[derive(Clone, Copy, Debug, PartialEq, Eq)]
pub struct Line {
    /// The form, from 1.
    pub form: u32,
    /// The line of the form, 1 to 66.
    pub line: u8,
    /// The characters of the print area, 201 to 332, when the line was printed.
    pub codes: [Code; LINE_LENGTH],
}

/// The printer: the lines printed after those that are kept elsewhere, and the carriage.
#[derive(Drop)]
pub struct Printer {
    /// The lines in the order of printing.
    pub lines: Vec<Line>,
    pub carriage: Carriage,
}

impl Model for Printer {
    ghost use Rattle.units.specs.Printed.{Printed};

    ghost Value = { Printed };

    ghost view = { λ p. record { lines = p.lines.items; carriage = p.carriage } };
}

impl Printer {
    /// Takes memory for all lines that can be printed.
    pub(crate) fn make_room(&mut self) -> Result<(), AllocError>
        ensures { self.new ≡ self.old }
    {
        self.lines.reserve_exact(MOST_LINES)
    }

    #[tactic(auto, unfolding(crate::specs::Units::line_printed))]
    /// Whether the printer has made its greatest number of lines, `before` earlier ones and these,
    /// or the carriage would pass the last form after one more.
    pub(crate) fn is_full(&self, before: u32) -> bool
        ensures { IsStopped result (λ s. line_printed before s self.now) PrinterFull }
    {
        self.lines.len() >= MOST_LINES.saturating_sub(before as usize)
            || self.carriage.after_line().is_none()
    }
}

/// Prints the print area, 201 to 332, and moves the carriage. PRINTER FULL if the printer has made
/// its greatest number of lines, `before` earlier ones and these, or if the carriage would pass the
/// last form.
#[tactic(auto, unfolding(crate::specs::Units::line_printed))]
pub fn print_line<C: Core>(core: &C, printer: &mut Printer, before: u32) -> Result<(), Fault>
    requires { areas_end ≤ length (C.cells core.now) }
    ensures done { OnOk result (line_printed before (C.cells core.now) printer.old
        ≡ Ok printer.new) }
    ensures refused { IfErr result (λ fault.
        PrintFails fault printer.old (line_printed before (C.cells core.now) printer.old)) }
    ensures unchanged { OnErr result (printer.new ≡ printer.old) }
{
    if printer.lines.len() >= MOST_LINES.saturating_sub(before as usize) {
        return Err(Fault::Stopped(Check::PrinterFull));
    }
    let Some(carriage) = printer.carriage.after_line() else {
        return Err(Fault::Stopped(Check::PrinterFull));
    };
    let line = Line {
        form: printer.carriage.form,
        line: printer.carriage.line,
        codes: codes_at(core, PRINT_AREA),
    };
    if printer.lines.push(line).is_err() {
        return Err(Fault::NoMemory);
    }
    printer.carriage = carriage;
    Ok(())
}
