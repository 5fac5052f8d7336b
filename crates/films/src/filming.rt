//! The lines of a film's changes.

ghost use Rattle.std.specs.Prelude.{◌≡◌, ◌<◌, ◌≤◌, ◌++◌, ◌==◌, ◌+◌, ℕ, [], All, length, option_copied, position, unwrap_or, IfErr, IfOk, IfSome, OnOk};
ghost use Rattle.core_store.specs.Storage.{blank_storage, largest_size};
ghost use Rattle.machine.specs.{
  Run.{after, attempts, is_running, lines_of, step},
};
ghost use Rattle.films.specs.{
  Changes.{items_since},
  Frames.{cards_before, cards_of, lines_before, shown_of},
  Steps.{Fits, IsHindered, change_lines, most_bytes},
  Texts.{change_line, first_line, item_texts, statement_words, step_line},
  Worked.{instruction_span, place_of, work_spans},
};

use crate::films::FilmError;
use crate::items::{Shown, push_items};
use crate::numbers::NUMBER_COUNT;
use crate::spans::{push_instruction, push_work};
use crate::statements::{push_statement, statement_next};
use crate::working::{Work, work_of};
use cards::LINE_FEED;
use check_causes::word_length;
use core_store::Core;
use machine::{Machine, Meter, Parts};
use run_traces::Names;
use std::alloc::{AllocError, Global};
use units::Line;

/// The most bytes that the changes of a film have.
const MOST_BYTES: usize = 4_000_000;

/// Where an instruction stands and works, as it is before its step.
#[derive(Clone, Copy)]
struct Place {
    /// Its first position.
    i: u16,
    /// The number of its characters, if there is an instruction.
    count: Option<u16>,
    /// Where it works.
    work: Work,
}

/// The place of the instruction that a machine attempts next.
fn place_of<C: Core>(parts: &Parts<C>) -> Place
    ensures place { result ≡ place_of parts.now }
    ensures within { IfSome result.count (λ count. result.i + count ≤ largest_size) }
{
    let i = parts.registers.i;
    let _limit = parts.core.size();
    Place {
        i,
        count: word_length(&parts.core, i),
        work: work_of(parts),
    }
}

/// Adds the line of the step that left a machine, from what was shown and from this storage, with
/// the statement of its instruction.
#[tactic(auto, unfolding(crate::specs::Texts::change_line))]
fn push_step_line<C: Core>(
    out: &mut Vec<u8>,
    statement: &[u8],
    place: Place,
    shown: &Shown,
    storage: &C,
    parts: &Parts<C>,
) -> Result<(), AllocError>
    requires within { IfSome place.count (λ count. place.i + count ≤ largest_size) }
    requires size { length (C.cells storage.now) ≡ length parts.now.works.storage }
    requires lines { shown.now.lines ≤ length (lines_of parts.now) }
    requires cards { shown.now.cards ≤ length (cards_of parts.now) }
    ensures text { OnOk result (out.new.items ≡ out.old.items ++ change_line
        (statement_words statement.now
        ++ (instruction_span place.i place.count ++ work_spans place.work parts.now)
        ++ item_texts (items_since shown.now.numbers shown.now.lines shown.now.cards
        (C.cells storage.now) parts.now))) }
    ensures characters { OnOk result (All (λ cell. cell.0 < 64) parts.now.works.storage) }
{
    out.push(b'C')?;
    push_statement(out, statement)?;
    push_instruction(out, place.i, place.count)?;
    push_work(out, place.work, parts)?;
    push_items(out, shown, storage, parts)?;
    out.push(LINE_FEED)?;
    Ok(())
}

/// Makes a storage the same as a machine's.
fn keep<C: Core>(storage: &mut C, parts: &Parts<C>)
    requires { length (C.cells storage.old) ≡ length parts.now.works.storage }
    ensures { C.cells storage.new ≡ parts.now.works.storage }
{
    storage.copy_from(&parts.core);
}

/// Makes a step of a machine that was shown with this storage, and adds its line, by the names of a
/// source.
fn push_step<C: Core>(
    alloc: Global,
    out: &mut Vec<u8>,
    machine: &mut Machine<C>,
    shown: &mut Shown,
    storage: &mut C,
    names: Option<&Names>,
) -> Result<(), AllocError>
    requires shown { shown.old ≡ shown_of machine.old }
    requires storage { C.cells storage.old ≡ machine.old.works.storage }
    ensures machine { OnOk result (machine.new ≡ step machine.old) }
    ensures line { OnOk result ((lines cards : ℕ) → lines ≤ length (lines_of machine.old) →
        cards ≤ length (cards_of machine.old) →
        out.new.items ≡ out.old.items
        ++ step_line (option_copied names.entry) lines cards machine.old) }
    ensures shown { OnOk result (shown.new ≡ shown_of machine.new) }
    ensures storage { OnOk result (C.cells storage.new ≡ machine.new.works.storage) }
    ensures characters { OnOk result (All (λ cell. cell.0 < 64) machine.new.works.storage) }
{
    let parts = machine.parts();
    let statement = statement_next(alloc, names, parts)?;
    let place = place_of(parts);
    machine.step(&mut Meter::new())?;
    let parts = machine.parts();
    push_step_line(out, &statement, place, shown, storage, parts)?;
    *shown = Shown::of(parts);
    keep(storage, parts);
    Ok(())
}

/// Adds the line of the first frame of a machine, from this number of its lines and of its cards
/// on.
#[tactic(auto, unfolding(crate::specs::Texts::change_line))]
fn push_first_line<C: Core>(
    out: &mut Vec<u8>,
    parts: &Parts<C>,
    blank: &C,
    lines: usize,
    cards: usize,
) -> Result<(), AllocError>
    requires blank { C.cells blank.now ≡ blank_storage (length parts.now.works.storage) }
    requires lines { lines ≤ length (lines_of parts.now) }
    requires cards { cards ≤ length (cards_of parts.now) }
    ensures text { OnOk result (out.new.items ≡ out.old.items ++ first_line lines cards parts.now) }
    ensures characters { OnOk result (All (λ cell. cell.0 < 64) parts.now.works.storage) }
{
    let shown = Shown {
        numbers: [0; NUMBER_COUNT],
        lines,
        cards,
    };
    out.push(b'C')?;
    push_items(out, &shown, blank, parts)?;
    out.push(LINE_FEED)?;
    Ok(())
}

/// The place of the first of these lines that is on a form.
fn line_on(lines: &[Line], form: u32) -> Option<usize>
    ensures place { result ≡ position (λ l. l.form == form) lines.now }
    ensures within { IfSome result (λ place. place ≤ length lines.now) }
{
    lines.iter().position(|line| line.form == form)
}

/// How many of these lines stand before the first one on a form.
fn lines_before(lines: &[Line], form: u32) -> usize
    ensures place { result
        ≡ unwrap_or (position (λ l. l.form == form) lines.now) (length lines.now) }
    ensures within { result ≤ length lines.now }
{
    match line_on(lines, form) {
        Some(place) => place,
        None => lines.len(),
    }
}

/// Adds the line of the first frame of a film of a machine.
#[tactic(auto, unfolding(crate::specs::Frames::lines_before, crate::specs::Frames::cards_before))]
fn push_first<C: Core>(out: &mut Vec<u8>, parts: &Parts<C>, blank: &C) -> Result<(), AllocError>
    requires { C.cells blank.now ≡ blank_storage (length parts.now.works.storage) }
    ensures text { OnOk result (out.new.items ≡ out.old.items
        ++ first_line (lines_before parts.now) (cards_before parts.now) parts.now) }
    ensures characters { OnOk result (All (λ cell. cell.0 < 64) parts.now.works.storage) }
{
    let printer = &parts.units.printer;
    let lines = lines_before(&printer.lines, printer.carriage.form);
    let cards = parts.units.punch.cards.len().saturating_sub(1);
    push_first_line(out, parts, blank, lines, cards)
}

/// Whether a machine runs.
fn runs<C: Core>(parts: &Parts<C>) -> bool
    ensures { result ≡ is_running parts.now.standing }
{
    parts.standing.is_running()
}

/// Makes the steps of a film whose first frame was added, at most so many, and adds their lines, by
/// the names of a source. Returns how many were made.
fn push_steps<C: Core>(
    alloc: Global,
    out: &mut Vec<u8>,
    machine: &mut Machine<C>,
    storage: &mut C,
    names: Option<&Names>,
    limit: u32,
) -> Result<u32, FilmError>
    requires storage { C.cells storage.old ≡ machine.old.works.storage }
    requires first { out.old.items ≡ change_lines (option_copied names) machine.old 0 }
    requires fits { Fits (option_copied names) machine.old 0 }
    requires characters { All (λ cell. cell.0 < 64) machine.old.works.storage }
    ensures machine { OnOk result (machine.new ≡ after machine.old limit) }
    ensures steps { IfOk result (λ steps. steps ≡ attempts machine.old limit) }
    ensures lines { IfOk result (λ steps. out.new.items
        ≡ change_lines (option_copied names.entry) machine.old steps) }
    ensures short { OnOk result (length out.new.items ≤ most_bytes) }
    ensures characters { IfOk result (λ steps. (k : ℕ) → k ≤ steps →
        All (λ cell. cell.0 < 64) (after machine.old k).works.storage) }
    ensures too_long { IfErr result (IsHindered (option_copied names.entry) machine.old
        (attempts machine.old limit)) }
{
    let mut shown = Shown::of(machine.parts());
    for made in 0..limit {
        if !runs(machine.parts()) {
            return Ok(made);
        }
        push_step(alloc, out, machine, &mut shown, storage, names)?;
        if out.len() > MOST_BYTES {
            return Err(FilmError::TooLong { steps: made });
        }
    }
    Ok(limit)
}

/// Makes the steps of a film of a machine, at most so many, and adds the lines of its changes, by
/// the names of a source. Returns how many were made. `storage` is blank.
pub(crate) fn push_changes<C: Core>(
    alloc: Global,
    out: &mut Vec<u8>,
    machine: &mut Machine<C>,
    storage: &mut C,
    names: Option<&Names>,
    limit: u32,
) -> Result<u32, FilmError>
    requires blank { C.cells storage.old ≡ blank_storage (length machine.old.works.storage) }
    requires empty { out.old.items ≡ [] }
    ensures machine { OnOk result (machine.new ≡ after machine.old limit) }
    ensures steps { IfOk result (λ steps. steps ≡ attempts machine.old limit) }
    ensures lines { IfOk result (λ steps. out.new.items
        ≡ change_lines (option_copied names.entry) machine.old steps) }
    ensures short { OnOk result (length out.new.items ≤ most_bytes) }
    ensures characters { IfOk result (λ steps. (k : ℕ) → k ≤ steps →
        All (λ cell. cell.0 < 64) (after machine.old k).works.storage) }
    ensures too_long { IfErr result (IsHindered (option_copied names.entry) machine.old
        (attempts machine.old limit)) }
{
    push_first(out, machine.parts(), storage)?;
    if out.len() > MOST_BYTES {
        return Err(FilmError::TooLong { steps: 0 });
    }
    storage.copy_from(&machine.parts().core);
    push_steps(alloc, out, machine, storage, names, limit)
}
