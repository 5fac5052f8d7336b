//! The rows of a machine that was run again, compared with those of the tables.

ghost use Rattle.std.specs.{
  Prelude.{◌≡◌, ◌<◌, ◌≤◌, ◌++◌, ◌∷◌, ◌^◌, All, List, length, map, Some, IfErr, IfOk, OnErr, OnOk},
  Option.{option_to_list},
};
ghost use Rattle.core_store.specs.{Pages.{cells_of}, Storage.{largest_size}};
ghost use Rattle.machine.specs.{Ranges.{IsInRange}, Run.{lines_of}};
ghost use Rattle.office_tables.specs.Standing.{stretch_row as stretch_cells};
ghost use Rattle.ledger_rows.specs.{
  Columns.{HoldsCharacters, IsLine, line_cells},
  Pockets.{IsPunched, pocket_cell},
};
ghost use Rattle.job_checks.specs.{
  Kept.{rows_of_cards, rows_of_lines, rows_of_pages, rows_of_pockets, rows_of_profile, rows_of_state, rows_of_stretches, HasMachine},
  Tables.{rows_of_job, tables_of},
};
ghost use Rattle.sqlite.specs.Order.{Row as Values};
ghost use Rattle.ledger_tables.specs.{
  Cells.{unless_blank},
  Tables.{line_row, page_row, pocket_row, stretch_row},
};

use crate::differences::{Difference, Place};
use crate::following::{pass, pass_none};
use crate::job_rows::JobRows;
use core_store::{Core, PAGE_SIZE, PlaneCore};
use ledger_rows::{
    card_bytes, is_blank_page, line_bytes, page_bytes, pocket_cell, profile_row, state_row,
    storage_holds_characters, switches_number,
};
use machine::Parts;
use office::Stretch;
use sqlite::{Row, params};
use texts::JobName;
use units::{Line, Pocket, Punch, Punched};

/// Passes the row of a stretch.
fn pass_stretch<'a>(
    rows: &'a [Row],
    name: JobName<'_>,
    place: usize,
    stretch: Stretch,
) -> Result<&'a [Row], Difference>
    requires { place < 2 ^ 63 }
    ensures passed { IfOk result (λ rest. rows_of_job name.entry rows.now
        ≡ stretch_row name.entry.customer.now name.entry.number place (stretch_cells stretch)
        ∷ rows_of_job name.entry rest.now) }
    ensures other { IfErr result (λ difference. (rest : List Values)
        → ¬ (rows_of_job name.entry rows.now
        ≡ stretch_row name.entry.customer.now name.entry.number place (stretch_cells stretch)
        ∷ rest)) }
{
    let switches = switches_number(stretch.switches);
    let wanted = params![
        name.customer,
        name.number,
        place as i64,
        switches,
        stretch.granted
    ];
    pass(rows, name, Place::Stretch(place), wanted)
}

/// The rows of a job's stretches are these.
pub(crate) fn check_stretches(
    rows: &[Row],
    name: JobName<'_>,
    stretches: &[Stretch],
) -> Result<(), Difference>
    ensures same { OnOk result (rows_of_job name.entry rows.now
        ≡ rows_of_stretches name.entry.customer.now name.entry.number stretches.now) }
    ensures other { OnErr result (¬ (rows_of_job name.entry rows.now
        ≡ rows_of_stretches name.entry.customer.now name.entry.number stretches.now)) }
{
    let mut rest = rows;
    for at in 0..stretches.len() {
        rest = pass_stretch(rest, name, at, stretches[at])?;
    }
    pass_none(rest, name, Place::Stretch(stretches.len()))
}

/// The rows of a job's cards are these.
fn check_cards(rows: &[Row], name: JobName<'_>, cards: &[Punched]) -> Result<(), Difference>
    requires { length cards.now ≤ 20000 }
    ensures same { OnOk result (rows_of_job name.entry rows.now
        ≡ rows_of_cards name.entry.customer.now name.entry.number cards.now) }
    ensures other { OnErr result (¬ (rows_of_job name.entry rows.now
        ≡ rows_of_cards name.entry.customer.now name.entry.number cards.now)) }
    ensures characters { OnOk result (All IsPunched cards.now) }
{
    let mut rest = rows;
    for at in 0..cards.len() {
        let place = at as u32 + 1;
        let bytes = card_bytes(&cards[at].card);
        let wanted = params![name.customer, name.number, place, bytes.as_slice()];
        rest = pass(rest, name, Place::Card(place), wanted)?;
    }
    pass_none(rest, name, Place::Card(cards.len() as u32 + 1))
}

/// Passes the row of a card's pocket, unless that is the normal one.
fn pass_pocket<'a>(
    rows: &'a [Row],
    name: JobName<'_>,
    place: u32,
    pocket: Pocket,
) -> Result<&'a [Row], Difference>
    ensures passed { IfOk result (λ rest. rows_of_job name.entry rows.now
        ≡ map (pocket_row name.entry.customer.now name.entry.number place)
        (option_to_list (pocket_cell pocket))
        ++ rows_of_job name.entry rest.now) }
    ensures other { IfErr result (λ difference. (rest : List Values)
        → ¬ (rows_of_job name.entry rows.now
        ≡ map (pocket_row name.entry.customer.now name.entry.number place)
        (option_to_list (pocket_cell pocket)) ++ rest)) }
{
    match pocket_cell(pocket) {
        Some(number) => {
            let wanted = params![name.customer, name.number, place, number];
            pass(rows, name, Place::Pocket(place), wanted)
        }
        None => Ok(rows),
    }
}

/// The rows of the pockets of a job's cards are these.
fn check_pockets(rows: &[Row], name: JobName<'_>, cards: &[Punched]) -> Result<(), Difference>
    requires { length cards.now ≤ 20000 }
    ensures same { OnOk result (rows_of_job name.entry rows.now
        ≡ rows_of_pockets name.entry.customer.now name.entry.number cards.now) }
    ensures other { OnErr result (¬ (rows_of_job name.entry rows.now
        ≡ rows_of_pockets name.entry.customer.now name.entry.number cards.now)) }
{
    let mut rest = rows;
    for at in 0..cards.len() {
        rest = pass_pocket(rest, name, at as u32 + 1, cards[at].pocket)?;
    }
    pass_none(rest, name, Place::Pocket(cards.len() as u32 + 1))
}

/// Passes the row of a line.
fn pass_line<'a>(
    rows: &'a [Row],
    name: JobName<'_>,
    place: u32,
    line: &Line,
) -> Result<&'a [Row], Difference>
    ensures passed { IfOk result (λ rest. rows_of_job name.entry rows.now
        ≡ line_row name.entry.customer.now name.entry.number place (line_cells line.now)
        ∷ rows_of_job name.entry rest.now) }
    ensures other { IfErr result (λ difference. (rest : List Values)
        → ¬ (rows_of_job name.entry rows.now
        ≡ line_row name.entry.customer.now name.entry.number place (line_cells line.now)
        ∷ rest)) }
    ensures line { IsLine line.now }
{
    let image = line_bytes(line);
    let number = line.line as u32;
    let wanted = params![
        name.customer,
        name.number,
        place,
        line.form,
        number,
        image.as_slice()
    ];
    pass(rows, name, Place::Line(place), wanted)
}

/// The rows of a job's lines are these.
fn check_lines(rows: &[Row], name: JobName<'_>, lines: &[Line]) -> Result<(), Difference>
    requires { length lines.now ≤ 20000 }
    ensures same { OnOk result (rows_of_job name.entry rows.now
        ≡ rows_of_lines name.entry.customer.now name.entry.number lines.now) }
    ensures other { OnErr result (¬ (rows_of_job name.entry rows.now
        ≡ rows_of_lines name.entry.customer.now name.entry.number lines.now)) }
    ensures characters { OnOk result (All IsLine lines.now) }
{
    let mut rest = rows;
    for at in 0..lines.len() {
        rest = pass_line(rest, name, at as u32 + 1, &lines[at])?;
    }
    pass_none(rest, name, Place::Line(lines.len() as u32 + 1))
}

/// The row of a job's state is this machine's.
fn check_state(
    rows: &[Row],
    name: JobName<'_>,
    machine: &Parts<PlaneCore>,
) -> Result<(), Difference>
    requires { IsInRange machine.now }
    ensures same { OnOk result (rows_of_job name.entry rows.now
        ≡ rows_of_state name.entry.customer.now name.entry.number machine.now) }
    ensures other { OnErr result (¬ (rows_of_job name.entry rows.now
        ≡ rows_of_state name.entry.customer.now name.entry.number machine.now)) }
{
    let s = state_row(machine);
    let wanted = params![
        name.customer,
        name.number,
        s.i,
        s.a,
        s.b,
        s.compare,
        s.overflow,
        s.channel,
        s.waiting,
        s.form,
        s.line,
        s.taken,
        s.cards,
        s.lines,
        s.standing,
    ];
    let rest = pass(rows, name, Place::State, wanted)?;
    pass_none(rest, name, Place::State)
}

/// The row of a job's profile is this punch's.
fn check_profile(rows: &[Row], name: JobName<'_>, punch: &Punch) -> Result<(), Difference>
    ensures same { OnOk result (rows_of_job name.entry rows.now
        ≡ rows_of_profile name.entry.customer.now name.entry.number punch.now) }
    ensures other { OnErr result (¬ (rows_of_job name.entry rows.now
        ≡ rows_of_profile name.entry.customer.now name.entry.number punch.now)) }
{
    let p = profile_row(punch);
    let wanted = params![name.customer, name.number, p.profile, p.chosen];
    let rest = pass(rows, name, Place::Profile, wanted)?;
    pass_none(rest, name, Place::Profile)
}

/// Passes the row of a page, unless it is blank.
fn pass_page<'a>(
    rows: &'a [Row],
    name: JobName<'_>,
    page: u32,
    bytes: &[u8; 100],
) -> Result<&'a [Row], Difference>
    ensures passed { IfOk result (λ rest. rows_of_job name.entry rows.now
        ≡ map (page_row name.entry.customer.now name.entry.number page)
        (option_to_list (unless_blank (Some bytes.now)))
        ++ rows_of_job name.entry rest.now) }
    ensures other { IfErr result (λ difference. (rest : List Values)
        → ¬ (rows_of_job name.entry rows.now
        ≡ map (page_row name.entry.customer.now name.entry.number page)
        (option_to_list (unless_blank (Some bytes.now))) ++ rest)) }
{
    if is_blank_page(bytes) {
        return Ok(rows);
    }
    let wanted = params![name.customer, name.number, page, bytes.as_slice()];
    pass(rows, name, Place::Page(page), wanted)
}

/// The rows of a job's pages are those of this storage.
fn check_pages(rows: &[Row], name: JobName<'_>, core: &PlaneCore) -> Result<(), Difference>
    requires { length (cells_of core.now) ≤ largest_size }
    ensures same { OnOk result (rows_of_job name.entry rows.now
        ≡ rows_of_pages name.entry.customer.now name.entry.number (cells_of core.now)) }
    ensures other { OnErr result (¬ (rows_of_job name.entry rows.now
        ≡ rows_of_pages name.entry.customer.now name.entry.number (cells_of core.now))) }
{
    let count = core.size() / PAGE_SIZE;
    let mut rest = rows;
    for page in 0..count {
        rest = pass_page(rest, name, page as u32, &page_bytes(core, page))?;
    }
    pass_none(rest, name, Place::Page(count as u32))
}

/// The rows of a job's pages are those of this machine's storage.
fn check_storage(
    rows: &[Row],
    name: JobName<'_>,
    machine: &Parts<PlaneCore>,
) -> Result<(), Difference>
    requires { IsInRange machine.now }
    ensures same { OnOk result (rows_of_job name.entry rows.now
        ≡ rows_of_pages name.entry.customer.now name.entry.number machine.now.works.storage) }
    ensures other { OnErr result (¬ (rows_of_job name.entry rows.now
        ≡ rows_of_pages name.entry.customer.now name.entry.number machine.now.works.storage)) }
    ensures characters { HoldsCharacters machine.now.works.storage }
{
    // A law, for the proof: it does nothing.
    storage_holds_characters(&machine.core);
    check_pages(rows, name, &machine.core)
}

/// The rows of a job's machine are those of this one.
pub(crate) fn check_machine(
    rows: &JobRows,
    name: JobName<'_>,
    machine: &Parts<PlaneCore>,
) -> Result<(), Difference>
    requires range { IsInRange machine.now }
    requires cards { length machine.now.works.units.punch.cards ≤ 20000 }
    requires lines { length (lines_of machine.now) ≤ 20000 }
    ensures rows { OnOk result (HasMachine name.entry.customer.now name.entry.number
        (tables_of rows.now) machine.now) }
    ensures other { OnErr result (¬ HasMachine name.entry.customer.now name.entry.number
        (tables_of rows.now) machine.now) }
    ensures cards { OnOk result (All IsPunched machine.now.works.units.punch.cards) }
    ensures lines { OnOk result (All IsLine (lines_of machine.now)) }
    ensures characters { OnOk result (HoldsCharacters machine.now.works.storage) }
{
    let cards = machine.units.punch.cards.as_slice();
    check_state(&rows.states, name, machine)?;
    check_profile(&rows.profiles, name, &machine.units.punch)?;
    check_cards(&rows.cards, name, cards)?;
    check_pockets(&rows.pockets, name, cards)?;
    check_lines(&rows.lines, name, machine.units.printer.lines.as_slice())?;
    check_storage(&rows.pages, name, machine)?;
    Ok(())
}
