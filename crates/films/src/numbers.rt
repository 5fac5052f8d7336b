//! The numbers of a machine that a film shows.

ghost use Rattle.std.specs.Prelude.{◌≡◌};
ghost use Rattle.films.specs.Frames.{indicator_number, numbers_of};

use core_store::Core;
use machine::{Parts, compare_number, standing_number, waiting_number};

/// How many numbers a frame has.
pub(crate) const NUMBER_COUNT: usize = 14;

/// Whether an indicator is on.
fn indicator_number(on: bool) -> usize
    ensures { result ≡ indicator_number on }
{
    if on { 1 } else { 0 }
}

/// The numbers of a machine.
#[tactic(auto, unfolding(crate::specs::Frames::numbers_of))]
pub(crate) fn numbers_of<C: Core>(parts: &Parts<C>) -> [usize; NUMBER_COUNT]
    ensures { result ≡ numbers_of parts.now }
{
    let registers = &parts.registers;
    let carriage = &parts.units.printer.carriage;
    [
        registers.i as usize,
        registers.a as usize,
        registers.b as usize,
        compare_number(registers.compare) as usize,
        indicator_number(registers.overflow),
        indicator_number(carriage.channel_12),
        waiting_number(carriage.waiting) as usize,
        carriage.form as usize,
        carriage.line as usize,
        parts.units.hopper.taken as usize,
        parts.units.punch.chosen.number() as usize,
        standing_number(parts.standing) as usize,
        parts.units.lines_in_all(),
        parts.units.cards_in_all(),
    ]
}
