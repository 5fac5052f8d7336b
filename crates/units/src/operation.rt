//! Operations in which several units work together.

ghost use Rattle.std.specs.Prelude.{◌≡◌, ◌≤◌, ◌⊎◌, length, Ok, Err, IsOk, OnOk, OnErr, IfErr};
ghost use Rattle.core_store.specs.{
  Storage.{Storage},
  declared.checks.Check.TheVariants.{ReaderEmpty, PunchFull, PrinterFull},
};
ghost use Rattle.units.specs.Units.{areas_end, punch_area_end, read_area_end, reader_works, punch_works, printer_works, operated, IsStopped, PunchFails, PrintFails, OperationFails};

use crate::devices::Devices;
use crate::fault::Fault;
use crate::printer::{Printer, print_line};
use crate::punch::{Punch, punch_card};
use crate::reader::{Hopper, take_card};
use crate::units::{Counts, Units};
use bitflags::Flags;
use core_store::{Check, Core};

impl Units {
    /// Whether the reader has no card for an operation that reads.
    #[tactic(auto, unfolding(crate::specs::Units::reader_works))]
    fn reader_stops(&self, devices: Devices) -> bool
        ensures { IsStopped result (λ s. reader_works devices s self.now.hopper) ReaderEmpty }
    {
        devices.contains(Devices::READER) && self.hopper.has_no_card()
    }

    /// Whether the punch has no room for the card of an operation.
    #[tactic(auto, unfolding(crate::specs::Units::punch_works))]
    fn punch_stops(&self, devices: Devices) -> bool
        ensures { IsStopped result
            (λ s. punch_works devices self.now.before.cards s self.now.punch) PunchFull }
    {
        devices.contains(Devices::PUNCH) && self.punch.is_full(self.before.cards)
    }

    /// Whether the printer has no room for the line of an operation.
    #[tactic(auto, unfolding(crate::specs::Units::printer_works))]
    fn printer_stops(&self, devices: Devices) -> bool
        ensures { IsStopped result
            (λ s. printer_works devices self.now.before.lines s self.now.printer) PrinterFull }
    {
        devices.contains(Devices::PRINTER) && self.printer.is_full(self.before.lines)
    }

    /// Returns the first check of an operation, if one applies.
    #[tactic(auto, using(crate::proofs::OperationLemmas::operation_ready))]
    fn look_for_checks(&self, devices: Devices) -> Result<(), Check>
        ensures ready { OnOk result ((s : Storage) → IsOk (operated devices s self.now)) }
        ensures check { IfErr result (λ check. (s : Storage) →
            operated devices s self.now ≡ Err check) }
    {
        if self.reader_stops(devices) {
            return Err(Check::ReaderEmpty);
        }
        if self.punch_stops(devices) {
            return Err(Check::PunchFull);
        }
        if self.printer_stops(devices) {
            return Err(Check::PrinterFull);
        }
        Ok(())
    }
}

/// Does the punch's part of an operation.
#[tactic(auto, unfolding(crate::specs::Units::punch_works))]
fn work_punch<C: Core>(
    core: &C,
    punch: &mut Punch,
    before: u32,
    devices: Devices,
) -> Result<(), Fault>
    requires { punch_area_end ≤ length (C.cells core.now) }
    ensures done { OnOk result (punch_works devices before (C.cells core.now) punch.old
        ≡ Ok punch.new) }
    ensures refused { IfErr result (λ fault.
        PunchFails fault punch.old (punch_works devices before (C.cells core.now) punch.old)) }
    ensures unchanged { OnErr result (punch.new ≡ punch.old) }
{
    if !devices.contains(Devices::PUNCH) {
        return Ok(());
    }
    punch_card(core, punch, before)
}

/// Does the printer's part of an operation.
#[tactic(auto, unfolding(crate::specs::Units::printer_works))]
fn work_printer<C: Core>(
    core: &C,
    printer: &mut Printer,
    before: u32,
    devices: Devices,
) -> Result<(), Fault>
    requires { areas_end ≤ length (C.cells core.now) }
    ensures done { OnOk result (printer_works devices before (C.cells core.now) printer.old
        ≡ Ok printer.new) }
    ensures refused { IfErr result (λ fault.
        PrintFails fault printer.old
        (printer_works devices before (C.cells core.now) printer.old)) }
    ensures unchanged { OnErr result (printer.new ≡ printer.old) }
{
    if !devices.contains(Devices::PRINTER) {
        return Ok(());
    }
    print_line(core, printer, before)
}

/// Does the reader's part of an operation. The reader must have a card for it.
#[tactic(auto, using(crate::proofs::OperationLemmas::reader_has), unfolding(crate::specs::Units::reader_works))]
fn work_reader<C: Core>(core: &mut C, hopper: &mut Hopper, devices: Devices)
    requires size { read_area_end ≤ length (C.cells core.old) }
    requires ready { IsOk (reader_works devices (C.cells core.old) hopper.old) }
    ensures { reader_works devices (C.cells core.old) hopper.old
        ≡ Ok (C.cells core.new, hopper.new) }
{
    if devices.contains(Devices::READER) {
        take_card(core, hopper);
    }
}

/// Punches a card and prints a line, if these units take part. If there is no memory, both are
/// unchanged.
#[tactic(auto, using(crate::proofs::OperationLemmas::taken_back))]
fn work_makers<C: Core>(
    core: &C,
    punch: &mut Punch,
    printer: &mut Printer,
    before: Counts,
    devices: Devices,
) -> Result<(), Fault>
    requires { areas_end ≤ length (C.cells core.now) }
    ensures punched { OnOk result (punch_works devices before.cards (C.cells core.now) punch.old
        ≡ Ok punch.new) }
    ensures printed { OnOk result
        (printer_works devices before.lines (C.cells core.now) printer.old ≡ Ok printer.new) }
    ensures refused { IfErr result (λ fault.
        PunchFails fault punch.old
        (punch_works devices before.cards (C.cells core.now) punch.old)
        ⊎ PrintFails fault printer.old
        (printer_works devices before.lines (C.cells core.now) printer.old)) }
    ensures unchanged { OnErr result ((punch.new ≡ punch.old) × (printer.new ≡ printer.old)) }
{
    let cards = punch.count();
    let chosen = punch.chosen;
    work_punch(core, punch, before.cards, devices)?;
    if let Err(fault) = work_printer(core, printer, before.lines, devices) {
        punch.take_back(cards, chosen);
        return Err(fault);
    }
    Ok(())
}

/// Does one operation. Each unit that takes part sees the storage as it was before. All checks come
/// before any change, in this order: READER EMPTY, PUNCH FULL, PRINTER FULL. If there is no memory,
/// nothing is changed either.
#[tactic(auto, using(crate::proofs::OperationLemmas::operation_fails, crate::proofs::OperationLemmas::reader_goes, crate::proofs::OperationLemmas::operation_is))]
pub fn operate<C: Core>(core: &mut C, units: &mut Units, devices: Devices) -> Result<(), Fault>
    requires { areas_end ≤ length (C.cells core.old) }
    ensures done { OnOk result (operated devices (C.cells core.old) units.old
        ≡ Ok (C.cells core.new, units.new)) }
    ensures refused { IfErr result (λ fault.
        OperationFails fault units.old (operated devices (C.cells core.old) units.old)) }
    ensures unchanged { OnErr result ((C.cells core.new ≡ C.cells core.old)
        × (units.new ≡ units.old)) }
{
    units.look_for_checks(devices)?;
    let before = units.before;
    work_makers(core, &mut units.punch, &mut units.printer, before, devices)?;
    work_reader(core, &mut units.hopper, devices);
    Ok(())
}
