//! The positions at which a step works.

ghost use Rattle.std.specs.Prelude.{◌≡◌, ◌+◌, ◌≤◌, ◌++◌, ◌∷◌, [], if◌then◌else◌, IfSome, OnOk};
ghost use Rattle.core_store.specs.Storage.{largest_size};
ghost use Rattle.films.specs.{
  Texts.{words_text},
  Worked.{area_spans, behind, fields_spans, instruction_span, other_spans, span, work_spans},
};

use crate::working::Work;
use core_store::{Core, LARGEST_SIZE};
use machine::Parts;
use std::alloc::AllocError;
use texts::push_number_between;

/// Adds the word for the positions from the first to the last, under a letter.
fn push_span(out: &mut Vec<u8>, letter: &[u8], first: u16, last: u16) -> Result<(), AllocError>
    ensures { OnOk result (out.new.items
        ≡ out.old.items ++ words_text (span letter.now first last ∷ [])) }
{
    out.push(b' ')?;
    push_number_between(out, letter, first as usize, b".")?;
    push_number_between(out, b"", last as usize, b"")
}

/// Adds the word for the positions of an instruction of so many characters, if there is one.
pub(crate) fn push_instruction(
    out: &mut Vec<u8>,
    i: u16,
    count: Option<u16>,
) -> Result<(), AllocError>
    requires { IfSome count (λ count. i + count ≤ largest_size) }
    ensures { OnOk result (out.new.items
        ≡ out.old.items ++ words_text (instruction_span i count)) }
{
    match count {
        None => Ok(()),
        Some(count) => push_span(out, b"I", i, (i + count).saturating_sub(1)),
    }
}

/// The position behind the one that a register holds.
fn behind(register: u16) -> u16
    ensures { result ≡ behind register }
{
    ((u32::from(register) + 1) % u32::from(LARGEST_SIZE)) as u16
}

/// Adds the words for the fields at which a step worked that left a machine.
fn push_fields<C: Core>(
    out: &mut Vec<u8>,
    a: u16,
    b: u16,
    parts: &Parts<C>,
) -> Result<(), AllocError>
    ensures { OnOk result (out.new.items
        ≡ out.old.items ++ words_text (fields_spans (a, b) parts.now)) }
{
    if parts.standing.is_checked() {
        push_span(out, b"A", a, a)?;
        return push_span(out, b"B", b, b);
    }
    push_span(out, b"A", behind(parts.registers.a), a)?;
    push_span(out, b"B", behind(parts.registers.b), b)
}

/// Adds the word for an area, if it is one of those at which an operation works.
fn push_area(
    out: &mut Vec<u8>,
    works: bool,
    letter: &[u8],
    first: u16,
    last: u16,
) -> Result<(), AllocError>
    ensures { OnOk result (out.new.items ≡ out.old.items
        ++ words_text (if works then span letter.now first last ∷ [] else [])) }
{
    if works {
        return push_span(out, letter, first, last);
    }
    Ok(())
}

/// Adds the words for the areas of units, by the sum of their numbers.
fn push_areas(out: &mut Vec<u8>, sum: u8) -> Result<(), AllocError>
    ensures { OnOk result (out.new.items ≡ out.old.items ++ words_text (area_spans sum)) }
{
    push_area(out, sum & 2 == 2, b"A", 201, 332)?;
    push_area(out, sum & 4 == 4, b"A", 101, 180)?;
    push_area(out, sum & 1 == 1, b"B", 1, 80)
}

/// Adds the words for the positions at which an instruction works that no check stops, but for
/// fields.
fn push_other(out: &mut Vec<u8>, work: Work) -> Result<(), AllocError>
    ensures { OnOk result (out.new.items ≡ out.old.items ++ words_text (other_spans work)) }
{
    match work {
        Work::Nowhere | Work::AtFields(_, _) => Ok(()),
        Work::InAreas(sum) => push_areas(out, sum),
        Work::Clears(position) => push_span(out, b"B", position - position % 100, position),
        Work::Writes(position) => push_span(out, b"A", position.saturating_sub(2), position),
        Work::Tests(position) => push_span(out, b"B", position, position),
    }
}

/// Adds the words for the positions at which an instruction worked whose step left a machine.
pub(crate) fn push_work<C: Core>(
    out: &mut Vec<u8>,
    work: Work,
    parts: &Parts<C>,
) -> Result<(), AllocError>
    ensures { OnOk result (out.new.items
        ≡ out.old.items ++ words_text (work_spans work parts.now)) }
{
    if let Work::AtFields(a, b) = work {
        return push_fields(out, a, b, parts);
    }
    let is_stopped = parts.standing.is_checked();
    if is_stopped {
        return Ok(());
    }
    push_other(out, work)
}
