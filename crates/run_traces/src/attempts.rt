//! The line of an attempt.

ghost use Rattle.std.specs.Prelude.{◌≡◌, ◌++◌, option_copied, IfOk, OnOk};
ghost use Rattle.machine.specs.Run.{step};
ghost use Rattle.run_traces.specs.{
  Attempts.{attempt_line, beginning, channel_sign, check_shown, compared_sign, effect_shown, outcome, overflow_sign, registers_shown},
  Shown.{characters_next, left},
  Statements.{statement_next},
};

use crate::causes::push_cause;
use crate::effects::{Made, effects_since, made_by};
use crate::names::{Names, push_name_field};
use crate::shown::{push_characters, push_padding};
use crate::statements::push_statement_next;
use autocoder::{push_line, push_number};
use check_causes::cause_of;
use core_store::{Check, Compared, Core};
use machine::{Machine, Meter, Parts, Standing};
use std::alloc::{AllocError, Global};

/// The sign of a comparison.
fn compared_sign(compared: Compared) -> &'static [u8]
    ensures { result.now ≡ compared_sign compared }
{
    match compared {
        Compared::Equal => b"=",
        Compared::Low => b"<",
        Compared::High => b">",
    }
}

/// The sign of overflow.
fn overflow_sign(overflow: bool) -> &'static [u8]
    ensures { result.now ≡ overflow_sign overflow }
{
    if overflow { b" O" } else { b"  " }
}

/// The sign of channel 12.
fn channel_sign(channel_12: bool) -> &'static [u8]
    ensures { result.now ≡ channel_sign channel_12 }
{
    if channel_12 { b" 12" } else { b"   " }
}

/// Adds the registers A and B, and the indicators.
fn push_registers<C: Core>(line: &mut Vec<u8>, parts: &Parts<C>) -> Result<(), AllocError>
    ensures { OnOk result (line.new.items ≡ line.old.items ++ registers_shown
        parts.now.works.registers parts.now.works.units.printer.carriage.channel_12) }
{
    let registers = &parts.registers;
    line.extend_from_slice(b"A ")?;
    push_number(line, b'0', 5, u64::from(registers.a))?;
    line.extend_from_slice(b" B ")?;
    push_number(line, b'0', 5, u64::from(registers.b))?;
    line.extend_from_slice(b" ")?;
    line.extend_from_slice(compared_sign(registers.compare))?;
    line.extend_from_slice(overflow_sign(registers.overflow))?;
    line.extend_from_slice(channel_sign(parts.units.printer.carriage.channel_12))
}

/// Adds what an attempt did that left this machine.
fn push_effect<C: Core>(
    alloc: Global,
    line: &mut Vec<u8>,
    before: Made,
    parts: &Parts<C>,
) -> Result<(), AllocError>
    ensures { OnOk result (line.new.items ≡ line.old.items ++ effect_shown before parts.now) }
{
    push_registers(line, parts)?;
    line.extend_from_slice(b"   ")?;
    let effects = effects_since(alloc, before, parts)?;
    line.extend_from_slice(&effects)
}

/// Adds a check that a machine met, with its cause.
fn push_check<C: Core>(
    alloc: Global,
    line: &mut Vec<u8>,
    check: Check,
    parts: &Parts<C>,
) -> Result<(), AllocError>
    ensures { OnOk result (line.new.items ≡ line.old.items ++ check_shown parts.now check) }
{
    line.extend_from_slice(b"check ")?;
    line.extend_from_slice(check.name().as_bytes())?;
    push_cause(alloc, line, cause_of(parts))
}

/// Adds what came of an attempt that left this machine.
#[tactic(auto, unfolding(crate::specs::Attempts::outcome))]
fn push_outcome<C: Core>(
    alloc: Global,
    line: &mut Vec<u8>,
    before: Made,
    parts: &Parts<C>,
) -> Result<(), AllocError>
    ensures { OnOk result (line.new.items ≡ line.old.items ++ outcome before parts.now) }
{
    match parts.standing {
        Standing::Checked(check) => push_check(alloc, line, check, parts),
        Standing::Running | Standing::Halted => push_effect(alloc, line, before, parts),
    }
}

/// The characters of the instruction that a machine attempts next, at the left of nine places.
fn push_next<C: Core>(line: &mut Vec<u8>, parts: &Parts<C>) -> Result<(), AllocError>
    ensures { OnOk result (line.new.items
        ≡ line.old.items ++ left 9 (characters_next parts.now)) }
{
    let start = line.len();
    push_characters(line, &parts.core, parts.registers.i)?;
    push_padding(line, 9, line.len() - start)
}

/// The statement of the instruction that a machine attempts next, at the left of twenty places.
fn push_next_statement<C: Core>(
    alloc: Global,
    line: &mut Vec<u8>,
    names: Option<&Names>,
    parts: &Parts<C>,
) -> Result<(), AllocError>
    ensures { OnOk result (line.new.items ≡ line.old.items
        ++ left 20 (statement_next (option_copied names.entry) parts.now)) }
{
    let start = line.len();
    push_statement_next(alloc, line, names, parts)?;
    push_padding(line, 20, line.len() - start)
}

/// The beginning of the line of an attempt.
#[tactic(auto, unfolding(crate::specs::Attempts::beginning))]
fn beginning<C: Core>(
    alloc: Global,
    names: Option<&Names>,
    number: u32,
    parts: &Parts<C>,
) -> Result<Vec<u8>, AllocError>
    ensures { IfOk result (λ line.
        line.items ≡ beginning (option_copied names.entry) number parts.now) }
{
    let mut line = Vec::new(alloc);
    push_number(&mut line, b' ', 7, u64::from(number))?;
    line.push(b' ')?;
    push_number(&mut line, b'0', 5, u64::from(parts.registers.i))?;
    line.push(b' ')?;
    push_name_field(alloc, &mut line, names, parts.registers.i)?;
    push_next(&mut line, parts)?;
    push_next_statement(alloc, &mut line, names, parts)?;
    Ok(line)
}

/// Makes the next attempt of a machine, and adds its line: the attempt's number, where it begins,
/// the characters of its instruction, the statement that has them, and what came of it. Fails only
/// if there is no memory.
#[tactic(auto, unfolding(crate::specs::Attempts::attempt_line))]
pub fn push_attempt<C: Core>(
    alloc: Global,
    text: &mut Vec<u8>,
    machine: &mut Machine<C>,
    names: Option<&Names>,
    number: u32,
) -> Result<(), AllocError>
    ensures machine { OnOk result (machine.new ≡ step machine.old) }
    ensures line { OnOk result (text.new.items
        ≡ text.old.items ++ attempt_line (option_copied names.entry) number machine.old) }
{
    let mut line = beginning(alloc, names, number, machine.parts())?;
    let before = made_by(machine.parts());
    machine.step(&mut Meter::new())?;
    push_outcome(alloc, &mut line, before, machine.parts())?;
    push_line(text, &line)
}
