//! The fields that an attempt works at.

ghost use Rattle.std.specs.Prelude.{◌≡◌, ◌+◌, ◌-◌, ◌<◌, ◌≤◌, ◌==◌, ◌++◌, [], Some, codes, if◌then◌else◌, length, option_copied, IfOk, OnOk};
ghost use Rattle.core_store.specs.Storage.{largest_size};
ghost use Rattle.machine.specs.Run.{step};
ghost use Rattle.run_traces.specs.{
  Attempts.{attempt_line},
  Fields.{after_line, attempt_shown, both_lines, field_by, field_shown, fields_lines, past_words, unmarked_words},
};

use crate::attempts::push_attempt;
use crate::names::Names;
use crate::shown::push_codes;
use autocoder::{push_line, push_number};
use check_causes::fields_of;
use core_store::{Core, field_length};
use machine::{Machine, Parts};
use std::alloc::{AllocError, Global};

/// Adds the field of so many characters that ends at a position.
fn push_characters<C: Core>(
    line: &mut Vec<u8>,
    core: &C,
    position: u16,
    count: u16,
) -> Result<(), AllocError>
    requires within { position < length (C.cells core.now) }
    requires some { 1 ≤ count }
    requires room { count ≤ position + 1 }
    requires below { position < largest_size }
    ensures { OnOk result (line.new.items
        ≡ line.old.items ++ field_by (C.cells core.now) position (Some count)) }
{
    let first = position + 1 - count;
    push_number(line, b'0', 5, u64::from(first))?;
    line.extend_from_slice(b" to ")?;
    push_number(line, b'0', 5, u64::from(position))?;
    line.extend_from_slice(b": ")?;
    push_codes(line, core, first, count)
}

/// Adds that no field ends at a position.
fn push_unmarked(line: &mut Vec<u8>, position: u16) -> Result<(), AllocError>
    ensures { OnOk result (line.new.items ≡ line.old.items ++ unmarked_words position) }
{
    line.extend_from_slice(b"no mark at ")?;
    push_number(line, b'0', 5, u64::from(position))?;
    line.extend_from_slice(b" or to the left of it")
}

/// Adds that the storage has no such position.
fn push_past(line: &mut Vec<u8>, position: u16) -> Result<(), AllocError>
    ensures { OnOk result (line.new.items ≡ line.old.items ++ past_words position) }
{
    line.extend_from_slice(b"past the storage: ")?;
    push_number(line, b'0', 5, u64::from(position))
}

/// Adds the field that ends at a position: where it begins and ends, and its characters; or that
/// none ends there. Fails only if there is no memory.
#[tactic(auto, unfolding(crate::specs::Fields::field_shown))]
pub fn push_field<C: Core>(line: &mut Vec<u8>, core: &C, position: u16) -> Result<(), AllocError>
    ensures { OnOk result (line.new.items
        ≡ line.old.items ++ field_shown (C.cells core.now) position) }
{
    if position >= core.size() {
        return push_past(line, position);
    }
    match field_length(core, position) {
        Some(count) => push_characters(line, core, position, count),
        None => push_unmarked(line, position),
    }
}

/// The field of a machine that ends at a position, as it is shown.
fn field_at<C: Core>(alloc: Global, parts: &Parts<C>, position: u16) -> Result<Vec<u8>, AllocError>
    ensures { IfOk result (λ field. field.items
        ≡ field_shown parts.now.works.storage position) }
{
    let mut field = Vec::new(alloc);
    push_field(&mut field, &parts.core, position)?;
    Ok(field)
}

/// Adds the line of a field after an attempt, if it is another than before.
#[tactic(auto, unfolding(crate::specs::Fields::after_line))]
fn push_after(
    alloc: Global,
    text: &mut Vec<u8>,
    before: &[u8],
    after: &[u8],
) -> Result<(), AllocError>
    ensures { OnOk result (text.new.items ≡ text.old.items ++ after_line before.now after.now) }
{
    if before == after {
        return Ok(());
    }
    let mut line = Vec::new(alloc);
    line.extend_from_slice(b"             -> ")?;
    line.extend_from_slice(after)?;
    push_line(text, &line)
}

/// Adds the lines of a field as it was before an attempt and as it is after it.
fn push_both(
    alloc: Global,
    text: &mut Vec<u8>,
    name: &[u8],
    before: &[u8],
    after: &[u8],
) -> Result<(), AllocError>
    ensures { OnOk result (text.new.items ≡ text.old.items
        ++ both_lines name.now before.now after.now) }
{
    let mut line = Vec::new(alloc);
    line.extend_from_slice(b"              ")?;
    line.extend_from_slice(name)?;
    line.extend_from_slice(before)?;
    push_line(text, &line)?;
    push_after(alloc, text, before, after)
}

/// Adds the lines of the field of a machine that ends at a position, which was shown so before an
/// attempt.
fn push_since<C: Core>(
    alloc: Global,
    text: &mut Vec<u8>,
    name: &[u8],
    before: &[u8],
    parts: &Parts<C>,
    position: u16,
) -> Result<(), AllocError>
    ensures { OnOk result (text.new.items ≡ text.old.items
        ++ both_lines name.now before.now (field_shown parts.now.works.storage position)) }
{
    let after = field_at(alloc, parts, position)?;
    push_both(alloc, text, name, before, &after)
}

/// Adds the lines of the field at B, if it is another than that at A.
fn push_other<C: Core>(
    alloc: Global,
    text: &mut Vec<u8>,
    before: &[u8],
    parts: &Parts<C>,
    a: u16,
    b: u16,
) -> Result<(), AllocError>
    ensures { OnOk result (text.new.items ≡ text.old.items ++ (if a == b then []
        else both_lines (codes "B ") before.now (field_shown parts.now.works.storage b))) }
{
    if a == b {
        return Ok(());
    }
    push_since(alloc, text, b"B ", before, parts, b)
}

/// Adds the lines of the fields of a machine that end at two positions, which were shown so before
/// an attempt.
fn push_fields<C: Core>(
    alloc: Global,
    text: &mut Vec<u8>,
    before: (&[u8], &[u8]),
    parts: &Parts<C>,
    a: u16,
    b: u16,
) -> Result<(), AllocError>
    ensures { OnOk result (text.new.items ≡ text.old.items
        ++ (both_lines (codes "A ") before.entry.0.now (field_shown parts.now.works.storage a)
        ++ (if a == b then []
        else both_lines (codes "B ") before.entry.1.now (field_shown parts.now.works.storage b)))) }
{
    push_since(alloc, text, b"A ", before.0, parts, a)?;
    push_other(alloc, text, before.1, parts, a, b)
}

/// Makes the next attempt of a machine, which works at the fields at these positions, and adds its
/// line and theirs.
#[tactic(auto, unfolding(crate::specs::Fields::fields_lines))]
fn push_with_fields<C: Core>(
    alloc: Global,
    text: &mut Vec<u8>,
    machine: &mut Machine<C>,
    names: Option<&Names>,
    number: u32,
    fields: (u16, u16),
) -> Result<(), AllocError>
    ensures machine { OnOk result (machine.new ≡ step machine.old) }
    ensures lines { OnOk result (text.new.items ≡ text.old.items
        ++ (attempt_line (option_copied names.entry) number machine.old
        ++ fields_lines machine.old.works.storage (step machine.old).works.storage (Some fields))) }
{
    let (a, b) = fields;
    let a_before = field_at(alloc, machine.parts(), a)?;
    let b_before = field_at(alloc, machine.parts(), b)?;
    push_attempt(alloc, text, machine, names, number)?;
    push_fields(alloc, text, (&a_before, &b_before), machine.parts(), a, b)?;
    Ok(())
}

/// Makes the next attempt of a machine, and adds its line; if it is asked for also the lines of the
/// fields at which its instruction works, as they are before it and, if they are others then, after
/// it. Fails only if there is no memory.
#[tactic(auto, unfolding(crate::specs::Fields::attempt_shown, crate::specs::Fields::fields_lines))]
pub fn push_shown<C: Core>(
    alloc: Global,
    text: &mut Vec<u8>,
    machine: &mut Machine<C>,
    names: Option<&Names>,
    with_fields: bool,
    number: u32,
) -> Result<(), AllocError>
    ensures machine { OnOk result (machine.new ≡ step machine.old) }
    ensures lines { OnOk result (text.new.items ≡ text.old.items
        ++ attempt_shown (option_copied names.entry) with_fields number machine.old) }
{
    if !with_fields {
        return push_attempt(alloc, text, machine, names, number);
    }
    match fields_of(machine.parts()) {
        Some(fields) => push_with_fields(alloc, text, machine, names, number, fields),
        None => push_attempt(alloc, text, machine, names, number),
    }
}
