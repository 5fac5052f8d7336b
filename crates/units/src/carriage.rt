//! The carriage of the printer, and the orders to it.

ghost use Rattle.std.specs.Prelude.{◌≡◌, ◌≤◌, false, Ok, Err, OnOk, OnErr, IfErr};
ghost use Rattle.units.specs.Carriages.{moved_by, after_line, on_next_form, spaced, skipped, sensed, order_of, ordered, carriage_moved};

use crate::printer::Printer;
use bcd::Code;
use core_store::Check;

/// The number of lines of a form.
pub const LINES_OF_FORM: u8 = 66;
/// The line of a form at which the carriage tape has the hole of channel 12.
pub const LINE_OF_CHANNEL_12: u8 = 60;
/// The last form. The printer stops at its end.
pub const LAST_FORM: u32 = 2_000_000_000;

/// A move of the carriage.
#[derive(Clone, Copy, Debug, PartialEq, Eq)]
pub enum Motion {
    /// One line further down.
    Space,
    /// Two lines further down.
    DoubleSpace,
    /// Three lines further down.
    TripleSpace,
    /// To line 1 of the next form.
    SkipToChannel1,
}

/// An order to the carriage.
#[derive(Clone, Copy, Debug, PartialEq, Eq)]
pub enum CarriageOrder {
    /// A move that is made at once.
    Now(Motion),
    /// A move that is made after the next line is printed.
    AfterLine(Motion),
}

/// The carriage: its form and line, the move that waits, and channel 12.
#[derive(Clone, Copy, Debug, PartialEq, Eq)]
pub struct Carriage {
    /// The form, from 1.
    pub form: u32,
    /// The line of the form, 1 to 66.
    pub line: u8,
    /// The move that waits for the next line.
    pub waiting: Option<Motion>,
    /// Whether spacing has passed the hole of channel 12 since the last skip.
    pub channel_12: bool,
}

impl CarriageOrder {
    /// The order of a character: `J K L` space 1, 2, 3 lines now and `/ S T` after the next line;
    /// `1` skips to channel 1 now and `A` after the next line. `None` for any other character.
    #[tactic(auto, unfolding(crate::specs::Carriages::order_of))]
    pub fn of_code(code: Code) -> Option<CarriageOrder>
        ensures { result ≡ order_of code }
    {
        match code.glyph() {
            b'J' => Some(CarriageOrder::Now(Motion::Space)),
            b'K' => Some(CarriageOrder::Now(Motion::DoubleSpace)),
            b'L' => Some(CarriageOrder::Now(Motion::TripleSpace)),
            b'1' => Some(CarriageOrder::Now(Motion::SkipToChannel1)),
            b'/' => Some(CarriageOrder::AfterLine(Motion::Space)),
            b'S' => Some(CarriageOrder::AfterLine(Motion::DoubleSpace)),
            b'T' => Some(CarriageOrder::AfterLine(Motion::TripleSpace)),
            b'A' => Some(CarriageOrder::AfterLine(Motion::SkipToChannel1)),
            _ => None,
        }
    }
}

impl Carriage {
    /// Returns the carriage at the first line of the first form.
    pub fn at_the_top() -> Carriage
        ensures { result ≡ record { form = 1; line = 1; waiting = None; channel_12 = false } }
    {
        Carriage {
            form: 1,
            line: 1,
            waiting: None,
            channel_12: false,
        }
    }

    /// The carriage at a line of the next form, if there is a next form.
    fn on_next_form(self, line: u8) -> Option<Carriage>
        ensures { result ≡ on_next_form self line }
    {
        if self.form < LAST_FORM {
            Some(Carriage {
                form: self.form + 1,
                line,
                ..self
            })
        } else {
            None
        }
    }

    /// Whether channel 12 is on after spacing `count` lines.
    fn senses_channel_12(self, count: u8) -> bool
        requires { count ≤ 3 }
        ensures { result ≡ sensed self count }
    {
        self.channel_12
            || self.line < LINE_OF_CHANNEL_12
                && self.line as u16 + count as u16 >= LINE_OF_CHANNEL_12 as u16
    }

    /// The carriage `count` lines further down, unless that is past the last form.
    fn space(self, count: u8) -> Option<Carriage>
        requires { count ≤ 3 }
        ensures { result ≡ spaced self count }
    {
        let line = self.line as u16 + count as u16;
        let carriage = Carriage {
            channel_12: self.senses_channel_12(count),
            ..self
        };
        if line <= LINES_OF_FORM as u16 {
            Some(Carriage {
                line: line as u8,
                ..carriage
            })
        } else {
            carriage.on_next_form((line - LINES_OF_FORM as u16) as u8)
        }
    }

    /// The carriage at line 1 of the next form, if there is a next form.
    fn skip(self) -> Option<Carriage>
        ensures { result ≡ skipped self }
    {
        let carriage = Carriage {
            channel_12: false,
            ..self
        };
        carriage.on_next_form(1)
    }

    /// The carriage after a move, unless the move would pass the last form.
    #[tactic(auto, unfolding(crate::specs::Carriages::moved_by))]
    fn moved_by(self, motion: Motion) -> Option<Carriage>
        ensures { result ≡ moved_by motion self }
    {
        match motion {
            Motion::Space => self.space(1),
            Motion::DoubleSpace => self.space(2),
            Motion::TripleSpace => self.space(3),
            Motion::SkipToChannel1 => self.skip(),
        }
    }

    /// The carriage after a printed line: it makes the move that waits, or else spaces one line.
    #[tactic(auto, unfolding(crate::specs::Carriages::after_line))]
    pub fn after_line(self) -> Option<Carriage>
        ensures { result ≡ after_line self }
    {
        let motion = self.waiting.unwrap_or(Motion::Space);
        let free = Carriage {
            waiting: None,
            ..self
        };
        free.moved_by(motion)
    }

    /// The carriage after an order, unless a move that is made now would pass the last form.
    #[tactic(auto, unfolding(crate::specs::Carriages::ordered))]
    fn order(self, order: CarriageOrder) -> Option<Carriage>
        ensures { result ≡ ordered order self }
    {
        match order {
            CarriageOrder::Now(motion) => self.moved_by(motion),
            CarriageOrder::AfterLine(motion) => Some(Carriage {
                waiting: Some(motion),
                ..self
            }),
        }
    }
}

/// Gives the carriage an order. PRINTER FULL if a move that is made now would pass the last form. A
/// move after the next line only waits; it replaces one that waited before, and is never a check.
#[tactic(auto, unfolding(crate::specs::Carriages::carriage_moved))]
pub fn move_carriage(printer: &mut Printer, order: CarriageOrder) -> Result<(), Check>
    ensures done { OnOk result (carriage_moved order printer.old ≡ Ok printer.new) }
    ensures check { IfErr result (λ check. carriage_moved order printer.old ≡ Err check) }
    ensures unchanged { OnErr result (printer.new ≡ printer.old) }
{
    let Some(carriage) = printer.carriage.order(order) else {
        return Err(Check::PrinterFull);
    };
    printer.carriage = carriage;
    Ok(())
}
