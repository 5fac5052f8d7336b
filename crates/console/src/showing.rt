//! What is printed of a machine.

ghost use Rattle.std.specs.{
  Prelude.{◌≡◌, ◌+◌, ◌++◌, ◌∷◌, [], ◌<◌, ◌≤◌, decimal, length, Some, OnOk},
  List.{flat_map},
};
ghost use Rattle.autocoder.specs.Listing.{position_field};
ghost use Rattle.machine.specs.Standings.{standing_of, standing_words};
ghost use Rattle.console.specs.Shown.{changed_line, fault_line, fault_words, field_line, help_text, line_echo, made_words, past_words, place_line, registers_shown, standing_by, stopped_shown, stops_line, watched_line, why_line};

use crate::commands::Fault;
use crate::going::{has_changed, stands_at};
use crate::words::Words;
use autocoder::push_number;
use cards::LINE_FEED;
use core_store::Core;
use machine::{Parts, Standing};
use run_traces::{push_field, push_registers, push_units};
use std::alloc::{AllocError, Global};
use texts::push_decimal;

/// Adds a position in five digits.
fn push_position(text: &mut Vec<u8>, position: u16) -> Result<(), AllocError>
    ensures { OnOk result (text.new.items ≡ text.old.items ++ position_field position) }
{
    push_number(text, b'0', 5, u64::from(position))
}

/// Adds the standing of a machine that is not running, and how to go on.
fn push_stopped<C: Core>(
    alloc: Global,
    text: &mut Vec<u8>,
    parts: &Parts<C>,
    way_out: &[u8],
) -> Result<(), AllocError>
    ensures { OnOk result (text.new.items
        ≡ text.old.items ++ (standing_words (standing_of parts.now) ++ way_out.now)) }
{
    let standing = parts.standing_at();
    let words = format!(in alloc; "{standing}")?;
    text.extend_from_slice(words.as_bytes())?;
    text.extend_from_slice(way_out)
}

/// Adds where a machine stands.
fn push_standing<C: Core>(
    alloc: Global,
    text: &mut Vec<u8>,
    parts: &Parts<C>,
) -> Result<(), AllocError>
    ensures { OnOk result (text.new.items
        ≡ text.old.items ++ standing_by parts.now.standing parts.now) }
{
    match parts.standing {
        Standing::Running => {
            text.extend_from_slice(b"next ")?;
            push_position(text, parts.registers.i)
        }
        Standing::Halted => push_stopped(alloc, text, parts, b"; start SWITCHES goes on"),
        Standing::Checked(_) => push_stopped(alloc, text, parts, b"; back goes back"),
    }
}

/// Adds the line of where a machine stands that has attempted so many instructions.
#[tactic(auto, unfolding(crate::specs::Shown::place_line))]
pub(crate) fn push_place<C: Core>(
    alloc: Global,
    text: &mut Vec<u8>,
    made: u32,
    parts: &Parts<C>,
) -> Result<(), AllocError>
    ensures { OnOk result (text.new.items ≡ text.old.items ++ place_line made parts.now) }
{
    push_decimal(text, made as usize)?;
    text.extend_from_slice(b" done; ")?;
    push_standing(alloc, text, parts)?;
    text.push(LINE_FEED)?;
    Ok(())
}

/// Adds the same unless the machine is running.
pub(crate) fn push_if_stopped<C: Core>(
    alloc: Global,
    text: &mut Vec<u8>,
    made: u32,
    parts: &Parts<C>,
) -> Result<(), AllocError>
    ensures { OnOk result (text.new.items ≡ text.old.items ++ stopped_shown made parts.now) }
{
    if parts.standing.is_running() {
        return Ok(());
    }
    push_place(alloc, text, made, parts)
}

/// Adds the line of some words and a position.
fn push_position_line(text: &mut Vec<u8>, words: &[u8], position: u16) -> Result<(), AllocError>
    ensures { OnOk result (text.new.items
        ≡ text.old.items ++ (words.now ++ position_field position ++ 10 ∷ [])) }
{
    text.extend_from_slice(words)?;
    push_position(text, position)?;
    text.push(LINE_FEED)?;
    Ok(())
}

/// Adds the line of a watched position that has changed.
fn push_changed(text: &mut Vec<u8>, watched: Option<u16>) -> Result<(), AllocError>
    ensures { OnOk result (text.new.items ≡ text.old.items ++ changed_line watched) }
{
    let Some(position) = watched else {
        return Ok(());
    };
    push_position_line(text, b"changed: ", position)
}

/// Why a run ends: its stops, and the watched position with what it held before the last attempt.
#[derive(Clone, Copy)]
pub(crate) struct Ends<'a> {
    /// The stops.
    pub(crate) stops: &'a [u16],
    /// The watched position.
    pub(crate) watched: Option<u16>,
    /// What it held before the last attempt.
    pub(crate) before: (u8, bool),
}

/// Adds the line that says why a machine stands that has attempted so many instructions.
#[tactic(auto, unfolding(crate::specs::Shown::why_line))]
pub(crate) fn push_why<C: Core>(
    alloc: Global,
    text: &mut Vec<u8>,
    ends: Ends<'_>,
    made: u32,
    parts: &Parts<C>,
) -> Result<(), AllocError>
    ensures { OnOk result (text.new.items ≡ text.old.items
        ++ why_line ends.entry.stops.now ends.entry.watched made ends.entry.before parts.now) }
{
    if has_changed(ends.watched, ends.before, parts) {
        return push_changed(text, ends.watched);
    }
    if stands_at(ends.stops, parts) {
        return push_position_line(text, b"stop at ", parts.registers.i);
    }
    push_place(alloc, text, made, parts)
}

/// Adds a position behind a blank.
fn push_behind_blank(text: &mut Vec<u8>, position: u16) -> Result<(), AllocError>
    ensures { OnOk result (text.new.items ≡ text.old.items ++ 32 ∷ position_field position) }
{
    text.push(b' ')?;
    push_position(text, position)
}

/// Adds positions, each behind a blank.
fn push_positions(text: &mut Vec<u8>, positions: &[u16]) -> Result<(), AllocError>
    ensures { OnOk result (text.new.items ≡ text.old.items
        ++ flat_map (λ other. 32 ∷ position_field other) positions.now) }
{
    for position in positions {
        push_behind_blank(text, *position)?;
    }
    Ok(())
}

/// Adds the stops as a line.
#[tactic(auto, unfolding(crate::specs::Shown::stops_line))]
pub(crate) fn push_stops(text: &mut Vec<u8>, stops: &[u16]) -> Result<(), AllocError>
    ensures { OnOk result (text.new.items ≡ text.old.items ++ stops_line stops.now) }
{
    match stops {
        [] => text.extend_from_slice(b"no stop\n"),
        _ => {
            text.extend_from_slice(b"stop")?;
            push_positions(text, stops)?;
            text.push(LINE_FEED)?;
            Ok(())
        }
    }
}

/// Adds the watched position as a line.
pub(crate) fn push_watched(text: &mut Vec<u8>, watched: Option<u16>) -> Result<(), AllocError>
    ensures { OnOk result (text.new.items ≡ text.old.items ++ watched_line watched) }
{
    let Some(position) = watched else {
        return text.extend_from_slice(b"nothing is watched\n");
    };
    push_position_line(text, b"watching ", position)
}

/// Adds the line of the field that ends at a position.
pub(crate) fn push_field_line<C: Core>(
    text: &mut Vec<u8>,
    core: &C,
    position: u16,
) -> Result<(), AllocError>
    ensures { OnOk result (text.new.items
        ≡ text.old.items ++ field_line (C.cells core.now) position) }
{
    push_field(text, core, position)?;
    text.push(LINE_FEED)?;
    Ok(())
}

/// Adds the registers, the indicators and the units.
pub(crate) fn push_bare<C: Core>(
    alloc: Global,
    text: &mut Vec<u8>,
    parts: &Parts<C>,
) -> Result<(), AllocError>
    ensures { OnOk result (text.new.items ≡ text.old.items ++ registers_shown parts.now) }
{
    let channel_12 = parts.units.printer.carriage.channel_12;
    push_registers(text, &parts.registers, channel_12)?;
    push_units(alloc, text, &parts.units)
}

/// Adds a line as it was parsed.
fn push_echo(text: &mut Vec<u8>, line: &[u8]) -> Result<(), AllocError>
    ensures { OnOk result (text.new.items ≡ text.old.items ++ line_echo line.now) }
{
    let words = Words::of(line);
    text.extend_from_slice(words.first)?;
    if words.second.is_empty() {
        return Ok(());
    }
    text.push(b' ')?;
    text.extend_from_slice(words.second)
}

/// Adds the line of a fault.
#[tactic(auto, unfolding(crate::specs::Shown::fault_line))]
pub(crate) fn push_fault(text: &mut Vec<u8>, line: &[u8], words: &[u8]) -> Result<(), AllocError>
    ensures { OnOk result (text.new.items ≡ text.old.items ++ fault_line line.now words.now) }
{
    push_echo(text, line)?;
    text.extend_from_slice(b": ")?;
    text.extend_from_slice(words)?;
    text.push(LINE_FEED)?;
    Ok(())
}

/// What a line lacks whose value is none.
pub(crate) fn fault_words(fault: Fault) -> &'static [u8]
    ensures { result.now ≡ fault_words fault }
{
    match fault {
        Fault::Count => b"a number from 1 to 1000000",
        Fault::Address => {
            b"an address: a number from 0 to 15999, or with --names a name as LOOP or LOOP&7"
        }
        Fault::Switching => b"the letters A to G of the switches that are on, in order, or -",
    }
}

/// Says that a position is past the storage.
pub(crate) fn push_past<C: Core>(
    alloc: Global,
    text: &mut Vec<u8>,
    line: &[u8],
    core: &C,
) -> Result<(), AllocError>
    ensures { OnOk result (text.new.items
        ≡ text.old.items ++ fault_line line.now (past_words (C.cells core.now))) }
{
    let mut words = Vec::new(alloc);
    words.extend_from_slice(b"the storage ends at ")?;
    push_position(&mut words, core.size().saturating_sub(1))?;
    push_fault(text, line, &words)
}

/// Says that a session goes no further back.
pub(crate) fn push_made(
    alloc: Global,
    text: &mut Vec<u8>,
    line: &[u8],
    made: u32,
) -> Result<(), AllocError>
    ensures { OnOk result (text.new.items
        ≡ text.old.items ++ fault_line line.now (made_words made)) }
{
    let words = format!(in alloc; "{made} were done, and back goes no further")?;
    push_fault(text, line, words.as_bytes())
}

/// The lines that a session takes.
const HELP: &str = "\
step            one instruction
step N          N instructions, each with its line
go              up to a stop, a change, a halt or a check
go N            the same, for N instructions at most
stop ADDRESS    sets a stop: go ends before the instruction there
clear ADDRESS   clears it
stops           lists the stops
watch ADDRESS   go ends after an instruction that changes this position
watch           watches nothing
dump            storage, registers and units
dump FIRST LAST the same with the rows from FIRST to LAST
registers       registers and units
field ADDRESS   the field that ends there
cards           the cards punched
lines           the lines printed
start SWITCHES  the start button, at a halt
back            one instruction back
back N          N instructions back
help            these lines
end             ends the session
";

/// Adds the lines that a session takes.
pub(crate) fn push_help(text: &mut Vec<u8>) -> Result<(), AllocError>
    ensures { OnOk result (text.new.items ≡ text.old.items ++ help_text) }
{
    text.extend_from_slice(HELP.as_bytes())
}
