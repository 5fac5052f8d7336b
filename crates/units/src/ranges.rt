//! The ranges of the units, and the tests of them.

ghost use Rattle.std.specs.Prelude.{◌≡◌, ◌↔◌, ◌+◌, ◌≤◌, IsTrue};
ghost use Rattle.units.specs.Ranges.{AreUnits, IsOnForm, IsBelow, HasPrinted, HasRead, line_place, carriage_place};

use crate::carriage::{Carriage, LAST_FORM, LINES_OF_FORM};
use crate::printer::{Line, MOST_LINES, Printer};
use crate::punch::MOST_CARDS;
use crate::reader::Hopper;
use crate::units::Units;

/// A form and a line on the printer's paper.
#[derive(Clone, Copy)]
pub struct Place {
    pub(crate) form: u32,
    pub(crate) line: u8,
}

impl Place {
    /// Whether it is a line of one of the forms.
    fn is_on_form(self) -> bool
        ensures { IsTrue result ↔ IsOnForm self }
    {
        1 <= self.form && self.form <= LAST_FORM && 1 <= self.line && self.line <= LINES_OF_FORM
    }

    /// Whether it is a line of one of the forms, further down than another place.
    fn is_below(self, above: Place) -> bool
        ensures { IsTrue result ↔ IsBelow above self }
    {
        self.is_on_form()
            && (above.form < self.form || above.form == self.form && above.line < self.line)
    }
}

impl Line {
    /// The place at which the line was printed.
    pub(crate) fn place(&self) -> Place
        ensures { result ≡ line_place self.now }
    {
        Place {
            form: self.form,
            line: self.line,
        }
    }
}

impl Carriage {
    /// The place of the carriage.
    fn place(&self) -> Place
        ensures { result ≡ carriage_place self.now }
    {
        Place {
            form: self.form,
            line: self.line,
        }
    }
}

/// Whether `before` and then `count` are at most `most` together.
fn fits(before: u32, count: usize, most: usize) -> bool
    ensures { IsTrue result ↔ before + count ≤ most }
{
    before as usize <= most && count <= most - before as usize
}

impl Printer {
    /// Whether the printer has at most its greatest number of lines, `before` earlier ones and
    /// these, each of these is further down than the one before, and the carriage is further down
    /// than all of them.
    pub fn is_in_range(&self, before: u32) -> bool
        ensures { IsTrue result ↔ HasPrinted before self.now }
    {
        if !fits(before, self.lines.len(), MOST_LINES) {
            return false;
        }
        let mut above = Place { form: 0, line: 0 };
        for line in &self.lines {
            let place = line.place();
            if !place.is_below(above) {
                return false;
            }
            above = place;
        }
        self.carriage.place().is_below(above)
    }
}

impl Hopper {
    /// Whether the reader has read at least one card, and no more than the deck has.
    fn is_in_range(&self) -> bool
        ensures { IsTrue result ↔ HasRead self.now }
    {
        1 <= self.taken && self.taken as usize <= self.deck.cards().len()
    }
}

impl Units {
    /// Whether a machine may have these units.
    pub fn is_in_range(&self) -> bool
        ensures { IsTrue result ↔ AreUnits self.now }
    {
        self.hopper.is_in_range()
            && fits(self.before.cards, self.punch.cards.len(), MOST_CARDS)
            && self.printer.is_in_range(self.before.lines)
            && self.switches.are_seven()
    }
}
