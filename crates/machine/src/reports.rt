//! The report of a machine.

ghost use Rattle.std.specs.Prelude.{◌≡◌, Some};
ghost use Rattle.machine.specs.Reports.{report_of, report_words};

use crate::parts::Parts;
use crate::standings::StandingAt;
use core_store::Core;
use std::fmt;
use std::fmt::{Display, Formatter};

/// What a machine has made, and its standing. Its `Display` is what is printed.
#[derive(Clone, Copy)]
pub struct Report {
    /// The number of cards punched, in all.
    pub cards: usize,
    /// The number of lines printed, in all.
    pub lines: usize,
    /// The standing.
    pub standing: StandingAt,
}

impl Report {
    /// The report of a machine. Cards and lines that it made before and no longer has count too.
    pub fn of<C: Core>(parts: &Parts<C>) -> Report
        ensures { result ≡ report_of parts.now }
    {
        Report {
            cards: parts.units.cards_in_all(),
            lines: parts.units.lines_in_all(),
            standing: parts.standing_at(),
        }
    }
}

impl Display for Report {
    ghost output = { λ report. Some (report_words report) };

    fn fmt<W: fmt::Write>(&self, formatter: &mut Formatter<W>) -> fmt::Result {
        let cards = self.cards;
        let lines = self.lines;
        let standing = self.standing;
        write!(formatter, "cards {cards} lines {lines} {standing}")
    }
}
