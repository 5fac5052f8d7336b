//! Pictures of machines as rows of states and of pages.

ghost use Rattle.std.specs.Prelude.{◌≡◌, ◌≤◌, ◌+◌, ◌<◌, ℕ, length, None, Some, IfOk, IfSome, IsSome};
ghost use Rattle.core_store.specs.declared.registers.Registers.{Registers};
ghost use Rattle.units.specs.{
  declared.carriage.Carriage.{Carriage},
  Carriages.{lines_of_form},
  declared.units.Units.{Units},
};
ghost use Rattle.machine.specs.Ranges.{IsInRange, AreAddresses};
ghost use Rattle.units.specs.Ranges.{HasRead};
ghost use Rattle.machine.specs.Run.{State};
ghost use Rattle.ledger_rows.specs.Columns.{state_row, HoldsCharacters};
ghost use Rattle.core_store.specs.Storage.{Storage};
ghost use Rattle.machine.specs.Ranges.{HasSize};
ghost use Rattle.ledger_tables.specs.Named.{ArePages};
ghost use Rattle.ledger_rows.specs.{
  Pages.{HasStorage, rows_of},
  Pictures.{HasState, IsPictured},
  Rows.{HasRegisters, HasCarriage, HasUnits},
};

use crate::numbers::{read_compare, read_standing, read_truth, read_waiting, truth};
use crate::pages::put_pages;
use cards::Deck;
use core_store::{Core, Registers, Size};
use ledger_tables::{PageRow, StateRow};
use machine::{Parts, compare_number, standing_number, waiting_number};
use std::alloc::{AllocError, Global};
use units::{Carriage, Counts, Hopper, Line, Printer, Punch, Switches, Units};

/// The deck, switches, punch and lines of a machine, which are in other tables than its picture.
#[derive(Drop)]
pub struct Media {
    /// The deck in the card reader. It includes the cards already read.
    pub deck: Deck,
    pub switches: Switches,
    /// The punch, with all the cards that it has punched or some last ones.
    pub punch: Punch,
    /// The lines printed: all of them, or some last ones.
    pub lines: Vec<Line>,
}

/// Returns the row of a machine's state.
pub fn state_row<C: Core>(parts: &Parts<C>) -> StateRow
    requires { IsInRange parts.now }
    ensures { result ≡ state_row parts.now }
{
    let registers = &parts.registers;
    let printer = &parts.units.printer;
    let carriage = &printer.carriage;
    StateRow {
        i: registers.i as u32,
        a: registers.a as u32,
        b: registers.b as u32,
        compare: compare_number(registers.compare),
        overflow: truth(registers.overflow),
        channel: truth(carriage.channel_12),
        waiting: waiting_number(carriage.waiting),
        form: carriage.form,
        line: carriage.line as u32,
        taken: parts.units.hopper.taken as u32,
        cards: parts.units.before.cards + parts.units.punch.cards.len() as u32,
        lines: parts.units.before.lines + printer.lines.len() as u32,
        standing: standing_number(parts.standing),
    }
}

/// The registers of a row, if they are valid.
fn read_registers(row: StateRow) -> Option<Registers>
    ensures all { (r : Registers) → AreAddresses r → HasRegisters row r → result ≡ Some r }
    ensures only { IfSome result (λ r. HasRegisters row r) }
{
    let (Ok(i), Ok(a), Ok(b)) = (
        u16::try_from(row.i),
        u16::try_from(row.a),
        u16::try_from(row.b),
    ) else {
        return None;
    };
    let Some(compare) = read_compare(row.compare) else {
        return None;
    };
    let Some(overflow) = read_truth(row.overflow) else {
        return None;
    };
    Some(Registers {
        i,
        a,
        b,
        compare,
        overflow,
    })
}

/// Returns the carriage of a row, or `None` if it is not valid. The result may be out of range.
pub fn read_carriage(row: StateRow) -> Option<Carriage>
    ensures all { (c : Carriage) → c.line ≤ lines_of_form → HasCarriage row c
        → result ≡ Some c }
    ensures only { IfSome result (λ c. HasCarriage row c) }
{
    let Ok(line) = u8::try_from(row.line) else {
        return None;
    };
    let Some(waiting) = read_waiting(row.waiting) else {
        return None;
    };
    let Some(channel_12) = read_truth(row.channel) else {
        return None;
    };
    Some(Carriage {
        form: row.form,
        line,
        waiting,
        channel_12,
    })
}

/// How many were made before `these`, if `all` were made in all.
fn count_before(all: u32, these: usize) -> Option<u32>
    ensures all { (before : ℕ) → all ≡ before + these → result ≡ Some before }
    ensures only { IfSome result (λ before. all ≡ before + these) }
    ensures none { result ≡ None → all < these }
{
    if these > all as usize {
        return None;
    }
    Some(all - these as u32)
}

/// The units of a row and of a machine's media, if they are valid. Cards and lines that the row
/// counts beyond those of the media were made before these.
fn read_units(row: StateRow, media: Media) -> Option<Units>
    ensures all { (u : Units) → HasRead u.hopper → u.printer.carriage.line ≤ lines_of_form
        → HasUnits row media u → result ≡ Some u }
    ensures only { IfSome result (λ u. HasUnits row media u) }
{
    let Some(cards_before) = count_before(row.cards, media.punch.cards.len()) else {
        return None;
    };
    let Some(lines_before) = count_before(row.lines, media.lines.len()) else {
        return None;
    };
    let Ok(taken) = u16::try_from(row.taken) else {
        return None;
    };
    let Some(carriage) = read_carriage(row) else {
        return None;
    };
    let Media {
        deck,
        switches,
        punch,
        lines,
    } = media;
    Some(Units {
        hopper: Hopper { deck, taken },
        before: Counts {
            cards: cards_before,
            lines: lines_before,
        },
        punch,
        printer: Printer { lines, carriage },
        switches,
    })
}

/// The storage of this number of positions with the pages of these rows, if they are valid. Fails
/// only if there is no memory.
fn read_core<C: Core>(
    alloc: Global,
    positions: u32,
    pages: &[PageRow],
) -> Result<Option<C>, AllocError>
    ensures all { IfOk result (λ read. (s : Storage) → HasSize s → HoldsCharacters s
        → positions ≡ length s → ArePages pages.now (rows_of s)
        → IfSome read (λ core. C.cells core ≡ s) × IsSome read) }
    ensures only { IfOk result (λ read. IfSome read (λ core. HasStorage positions pages.now
        (C.cells core))) }
{
    let Some(size) = Size::of_positions(positions) else {
        return Ok(None);
    };
    let mut core = C::blank(alloc, size)?;
    if !put_pages(&mut core, pages) {
        return Ok(None);
    }
    Ok(Some(core))
}

/// Returns the picture of a state's row, of a number of positions with the rows of their pages, and
/// of a machine's media, or `None` if they are not valid. What [`state_row`] and the pages wrote is
/// read as the same picture. The result may be out of range. Fails only if there is no memory.
pub fn read_picture<C: Core>(
    alloc: Global,
    positions: u32,
    row: StateRow,
    pages: &[PageRow],
    media: Media,
) -> Result<Option<Parts<C>>, AllocError>
    ensures all { IfOk result (λ read. (m : State) → IsInRange m
        → HoldsCharacters m.works.storage → IsPictured positions row pages.now media m
        → read ≡ Some m) }
    ensures only { IfOk result (λ read. IfSome read (λ m. HasState row media m
        × HasStorage positions pages.now m.works.storage)) }
{
    let Some(core) = read_core::<C>(alloc, positions, pages)? else {
        return Ok(None);
    };
    let (Some(registers), Some(standing)) = (read_registers(row), read_standing(row.standing))
    else {
        return Ok(None);
    };
    let Some(units) = read_units(row, media) else {
        return Ok(None);
    };
    Ok(Some(Parts {
        core,
        registers,
        units,
        standing,
    }))
}
