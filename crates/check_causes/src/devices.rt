//! Why an operation of the reader, the punch or the printer is stopped.

ghost use Rattle.std.specs.Prelude.{◌≡◌, ◌+◌, ◌<◌, ◌≤◌, ℕ, length, is_some, nat_lt, if◌then◌else◌};
ghost use Rattle.units.specs.{Carriages.{ordered, moved_by, spaced}, Units.{most_lines}};
ghost use Rattle.check_causes.specs.{
  Tested.{passed},
  Devices.{card_told, punch_told, line_told, devices_told, order_told, pocket_told},
};

use crate::causes::Cause;
use bitflags::Flags;
use units::{
    Carriage, CarriageOrder, Devices, Hopper, LAST_FORM, LINES_OF_FORM, MOST_CARDS, MOST_LINES,
    Motion, Printer, Profile, Punch, Units,
};

/// Whether a card is left to read.
#[tactic(auto, unfolding(crate::specs::Devices::card_told))]
fn test_card(hopper: &Hopper) -> Result<(), Cause>
    ensures { result ≡ card_told hopper.now }
{
    if (hopper.taken as usize) < hopper.deck.cards().len() {
        Ok(())
    } else {
        Err(Cause::NoCard(hopper.taken))
    }
}

/// Whether one more card can be punched, with so many made before.
#[tactic(auto, unfolding(crate::specs::Devices::punch_told))]
fn test_punch(punch: &Punch, before: u32) -> Result<(), Cause>
    ensures { result ≡ punch_told before punch.now }
{
    if punch.cards.len() < MOST_CARDS.saturating_sub(before as usize) {
        Ok(())
    } else {
        Err(Cause::PunchFull)
    }
}

/// Whether one more line can be printed, with so many made before.
fn test_lines(printer: &Printer, before: u32) -> bool
    ensures { result ≡ nat_lt (before + length printer.now.lines) most_lines }
{
    printer.lines.len() < MOST_LINES.saturating_sub(before as usize)
}

/// Whether one more line can be printed, with so many made before, and the carriage can move on.
#[tactic(auto, unfolding(crate::specs::Devices::line_told))]
fn test_line(printer: &Printer, before: u32) -> Result<(), Cause>
    ensures { result ≡ line_told before printer.now }
{
    if !test_lines(printer, before) {
        return Err(Cause::PrinterFull);
    }
    if printer.carriage.after_line().is_none() {
        return Err(Cause::PrinterFull);
    }
    Ok(())
}

/// The test of a unit, for an operation in which it may not take part.
fn test_if(takes_part: bool, tested: Result<(), Cause>) -> Result<(), Cause>
    ensures { result ≡ (if takes_part then tested else passed) }
{
    if takes_part { tested } else { Ok(()) }
}

/// Why the reader, the punch and the printer are stopped, in this order.
#[tactic(auto, unfolding(crate::specs::Devices::devices_told))]
pub(crate) fn test_devices(devices: Devices, units: &Units) -> Result<(), Cause>
    ensures { result ≡ devices_told devices units.now }
{
    let before = units.before;
    test_if(devices.contains(Devices::READER), test_card(&units.hopper))?;
    test_if(
        devices.contains(Devices::PUNCH),
        test_punch(&units.punch, before.cards),
    )?;
    test_if(
        devices.contains(Devices::PRINTER),
        test_line(&units.printer, before.lines),
    )
}

/// Whether the carriage has a form left for `count` lines more.
fn has_lines(carriage: Carriage, count: u8) -> bool
    requires { count ≤ 3 }
    ensures { result ≡ is_some (spaced carriage count) }
{
    carriage.line as u16 + count as u16 <= LINES_OF_FORM as u16 || carriage.form < LAST_FORM
}

/// Whether the carriage has a form left for a move.
#[tactic(auto, unfolding(units::specs::Carriages::moved_by))]
fn has_form(carriage: Carriage, motion: Motion) -> bool
    ensures { result ≡ is_some (moved_by motion carriage) }
{
    match motion {
        Motion::Space => has_lines(carriage, 1),
        Motion::DoubleSpace => has_lines(carriage, 2),
        Motion::TripleSpace => has_lines(carriage, 3),
        Motion::SkipToChannel1 => carriage.form < LAST_FORM,
    }
}

/// Whether an order to the carriage can be carried out.
#[tactic(auto, unfolding(units::specs::Carriages::ordered))]
fn can_order(carriage: Carriage, order: CarriageOrder) -> bool
    ensures { result ≡ is_some (ordered order carriage) }
{
    match order {
        CarriageOrder::Now(motion) => has_form(carriage, motion),
        CarriageOrder::AfterLine(_) => true,
    }
}

/// Whether a form is left for an order to the carriage.
#[tactic(auto, unfolding(crate::specs::Devices::order_told))]
pub(crate) fn test_order(order: CarriageOrder, printer: &Printer) -> Result<(), Cause>
    ensures { result ≡ order_told order printer.now }
{
    if can_order(printer.carriage, order) {
        Ok(())
    } else {
        Err(Cause::PrinterFull)
    }
}

/// Whether a pocket can be chosen.
#[tactic(auto, unfolding(crate::specs::Devices::pocket_told))]
pub(crate) fn test_pocket(punch: &Punch) -> Result<(), Cause>
    ensures { result ≡ pocket_told punch.now }
{
    match punch.profile {
        Profile::Selecting => Ok(()),
        Profile::Plain => Err(Cause::NoSelection),
    }
}
