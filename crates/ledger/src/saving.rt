//! Writing a job to the tables.

ghost use Rattle.std.specs.Prelude.{◌≡◌, ◌≤◌, ◌+◌, ◌++◌, ◌<◌, ◌-◌, ℕ, All, List, get_or, length, IfOk, OnOk};
ghost use Rattle.cards.specs.Decks.{IsDeck};
ghost use Rattle.machine.specs.Ranges.{IsInRange};
ghost use Rattle.office.specs.{Jobs.{Job as KnownJob}, Kept.{drive_command}};
ghost use Rattle.office.specs.declared.commands.JobCommand.TheVariants as command;
ghost use Rattle.units.specs.{
  declared.printer.Line.{Line},
  declared.punch.Punched.{Punched},
  declared.switches.Switches.{Switches},
  Units.{made_in_all},
};
ghost use Rattle.core_store.specs.Pages.{cells_of};
ghost use Rattle.ledger_rows.specs.{Columns.{HoldsCharacters, IsLine}, Pockets.{IsPunched}};
ghost use Rattle.ledger_tables.specs.{
  Named.{HasNoJob, HasNoPocket, HasNoProfile, HasNoState, HasState, with_chosen_of},
  Steps.{Changes, IsStep},
};
ghost use Rattle.ledger.specs.{
  Saving.{job_in, HasCardRows, with_all_cards, HasPocketRows, with_card_pocket, with_all_pockets, with_choice, HasLineRows, with_all_lines, HasEarlier, with_made, HasFewerGranted, HasOneLess, with_all_stretches, with_running, with_machine, with_selection, with_progress, with_begun, HasRows, HasChosen, HasEarlierRows, HasNoMachine, HasNotStarted, new_cells, with_handed, IsAfter, IsAfterMachine, with_after, with_flagged, IsFreeName, IsTakenAs, with_new},
  Steps.{Saves},
};

use crate::earlier_machine::EarlierMachine;
use crate::page_saving::{insert_pages, save_pages};
use cards::Deck;
use core_store::PlaneCore;
use ledger_rows::{
    card_bytes, deck_bytes, line_row, pocket_cell, profile_row, state_row,
    storage_holds_characters, switches_number, truth,
};
use ledger_tables::{Fault, JobRow, OpenTables, StretchRow};
use machine::{Parts, runs_only_add};
use office::{Contents, Drive, Job, Stretch, commands_keep_jobs};
use sqlite::Alter;
use std::alloc::{AllocError, Global};
use texts::JobName;
use units::{Line, Pocket, Punched, Units};

/// Inserts cards after the `before` cards that the tables have already. A job makes at most 20,000.
fn insert_cards<S: Alter>(
    tables: &mut OpenTables<'_, '_, S>,
    name: JobName<'_>,
    before: u32,
    cards: &[Punched],
) -> Result<(), Fault>
    requires { before + length cards.now ≤ 20000 }
    ensures step { IsStep S.Store tables.old tables.new result }
    ensures added { (earlier : List Punched) → Changes S.Store tables.old tables.new result
        (HasCardRows name.entry before earlier)
        (with_all_cards name.entry (earlier ++ cards.now)) }
    ensures characters { OnOk result (All IsPunched cards.now) }
{
    for place in 0..cards.len() {
        let bytes = card_bytes(&cards[place].card);
        tables.insert_card(name, before + place as u32 + 1, &bytes)?;
    }
    Ok(())
}

/// Inserts the pocket of the card at a place, unless that is the normal one.
fn insert_pocket<S: Alter>(
    tables: &mut OpenTables<'_, '_, S>,
    name: JobName<'_>,
    place: u32,
    pocket: Pocket,
) -> Result<(), Fault>
    ensures step { IsStep S.Store tables.old tables.new result }
    ensures added { Changes S.Store tables.old tables.new result
        (HasNoPocket name.entry place) (with_card_pocket name.entry place pocket) }
{
    match pocket_cell(pocket) {
        Some(number) => tables.insert_pocket(name, place, number),
        None => Ok(()),
    }
}

/// Inserts the pockets of cards that come after the `before` cards of the tables. A job makes at
/// most 20,000.
fn insert_pockets<S: Alter>(
    tables: &mut OpenTables<'_, '_, S>,
    name: JobName<'_>,
    before: u32,
    cards: &[Punched],
) -> Result<(), Fault>
    requires { before + length cards.now ≤ 20000 }
    ensures step { IsStep S.Store tables.old tables.new result }
    ensures added { (earlier : List Punched) → Changes S.Store tables.old tables.new result
        (HasPocketRows name.entry before earlier)
        (with_all_pockets name.entry (earlier ++ cards.now)) }
{
    for place in 0..cards.len() {
        insert_pocket(tables, name, before + place as u32 + 1, cards[place].pocket)?;
    }
    Ok(())
}

/// Inserts cards, each with its pocket, after the `before` cards that the tables have already.
fn insert_punched<S: Alter>(
    tables: &mut OpenTables<'_, '_, S>,
    name: JobName<'_>,
    before: u32,
    cards: &[Punched],
) -> Result<(), Fault>
    requires { before + length cards.now ≤ 20000 }
    ensures step { IsStep S.Store tables.old tables.new result }
    ensures added { (earlier : List Punched) → Changes S.Store tables.old tables.new result
        (λ t. HasCardRows name.entry before earlier t × HasPocketRows name.entry before earlier t)
        (λ t. with_all_pockets name.entry (earlier ++ cards.now)
        (with_all_cards name.entry (earlier ++ cards.now) t)) }
    ensures characters { OnOk result (All IsPunched cards.now) }
{
    insert_cards(tables, name, before, cards)?;
    insert_pockets(tables, name, before, cards)
}

/// Inserts lines after the `before` lines that the tables have already. A job makes at most 20,000.
fn insert_lines<S: Alter>(
    tables: &mut OpenTables<'_, '_, S>,
    name: JobName<'_>,
    before: u32,
    lines: &[Line],
) -> Result<(), Fault>
    requires { before + length lines.now ≤ 20000 }
    ensures step { IsStep S.Store tables.old tables.new result }
    ensures added { (earlier : List Line) → Changes S.Store tables.old tables.new result
        (HasLineRows name.entry before earlier)
        (with_all_lines name.entry (earlier ++ lines.now)) }
    ensures characters { OnOk result (All IsLine lines.now) }
{
    for place in 0..lines.len() {
        let row = line_row(tables.alloc, &lines[place])?;
        tables.insert_line(name, before + place as u32 + 1, &row)?;
    }
    Ok(())
}

/// Inserts the cards and lines of a machine, which has made others before.
fn insert_made<S: Alter>(
    tables: &mut OpenTables<'_, '_, S>,
    name: JobName<'_>,
    units: &Units,
) -> Result<(), Fault>
    requires cards { (made_in_all units.now).cards ≤ 20000 }
    requires lines { (made_in_all units.now).lines ≤ 20000 }
    ensures step { IsStep S.Store tables.old tables.new result }
    ensures added { (cards : List Punched) (lines : List Line)
        → Changes S.Store tables.old tables.new result
        (HasEarlier name.entry cards lines units.now)
        (with_made name.entry cards lines units.now) }
    ensures cards { OnOk result (All IsPunched units.now.punch.cards) }
    ensures lines { OnOk result (All IsLine units.now.printer.lines) }
{
    let cards = units.punch.cards.as_slice();
    let lines = units.printer.lines.as_slice();
    insert_punched(tables, name, units.before.cards, cards)?;
    insert_lines(tables, name, units.before.lines, lines)
}

/// Replaces the state of a job's machine.
fn set_state<S: Alter>(
    tables: &mut OpenTables<'_, '_, S>,
    name: JobName<'_>,
    machine: &Parts<PlaneCore>,
) -> Result<(), Fault>
    requires { IsInRange machine.now }
    ensures step { IsStep S.Store tables.old tables.new result }
    ensures set { Changes S.Store tables.old tables.new result
        (HasState name.entry) (with_running name.entry machine.now) }
    ensures characters { HoldsCharacters machine.now.works.storage }
{
    // A law, for the proof: it does nothing.
    storage_holds_characters(&machine.core);
    tables.set_state(name, state_row(machine))
}

/// Replaces the state of a job's machine, and those of its pages that are no longer as they were.
fn set_machine<S: Alter>(
    tables: &mut OpenTables<'_, '_, S>,
    name: JobName<'_>,
    earlier: &PlaneCore,
    machine: &Parts<PlaneCore>,
) -> Result<(), Fault>
    requires range { IsInRange machine.now }
    requires size { length (cells_of earlier.now) ≡ length machine.now.works.storage }
    ensures step { IsStep S.Store tables.old tables.new result }
    ensures set { Changes S.Store tables.old tables.new result
        (HasRows name.entry (cells_of earlier.now)) (with_machine name.entry machine.now) }
    ensures characters { OnOk result (HoldsCharacters machine.now.works.storage) }
{
    save_pages(tables, name, earlier, &machine.core)?;
    set_state(tables, name, machine)
}

/// Sets the number of the pocket that is chosen for a job's next card, unless it was so before.
fn set_choice<S: Alter>(
    tables: &mut OpenTables<'_, '_, S>,
    name: JobName<'_>,
    earlier: u32,
    chosen: u32,
) -> Result<(), Fault>
    ensures step { IsStep S.Store tables.old tables.new result }
    ensures set { Changes S.Store tables.old tables.new result
        (HasChosen name.entry earlier) (with_chosen_of name.entry chosen) }
{
    if chosen == earlier {
        return Ok(());
    }
    tables.set_chosen(name, chosen)
}

/// Replaces the state of a job's machine, those of its pages that are no longer as they were, and
/// the pocket that is chosen for its next card if it is no longer the same.
fn set_running<S: Alter>(
    tables: &mut OpenTables<'_, '_, S>,
    name: JobName<'_>,
    earlier: &EarlierMachine,
    machine: &Parts<PlaneCore>,
) -> Result<(), Fault>
    requires range { IsInRange machine.now }
    requires size { length (cells_of earlier.now.storage) ≡ length machine.now.works.storage }
    ensures step { IsStep S.Store tables.old tables.new result }
    ensures set { Changes S.Store tables.old tables.new result
        (HasEarlierRows name.entry earlier.now)
        (λ t. with_choice name.entry machine.now (with_machine name.entry machine.now t)) }
    ensures characters { OnOk result (HoldsCharacters machine.now.works.storage) }
{
    set_machine(tables, name, &earlier.storage, machine)?;
    let chosen = machine.units.punch.chosen.number();
    set_choice(tables, name, earlier.chosen.number(), chosen)
}

/// The place of the last stretch, and the stretch.
fn last_of(stretches: &[Stretch]) -> Result<(u32, &Stretch), Fault>
    ensures { IfOk result (λ p. (0 < length stretches.now)
        × (p.0 ≡ length stretches.now - 1)
        × (p.1.now ≡ get_or stretches.now (length stretches.now - 1) p.1.now)) }
{
    let Some(last) = stretches.last() else {
        return Err(Fault::Store);
    };
    match u32::try_from(stretches.len() - 1) {
        Ok(place) => Ok((place, last)),
        Err(_) => Err(Fault::Store),
    }
}

/// Saves the number of instructions granted in a job's last stretch.
fn set_last_granted<S: Alter>(
    tables: &mut OpenTables<'_, '_, S>,
    name: JobName<'_>,
    stretches: &[Stretch],
) -> Result<(), Fault>
    ensures step { IsStep S.Store tables.old tables.new result }
    ensures set { Changes S.Store tables.old tables.new result
        (HasFewerGranted name.entry stretches.now)
        (with_all_stretches name.entry stretches.now) }
{
    let (place, last) = last_of(stretches)?;
    tables.set_granted(name, place, last.granted)
}

/// Saves a job's machine, of which this is what it had before, and what was granted.
fn set_progress<S: Alter>(
    tables: &mut OpenTables<'_, '_, S>,
    name: JobName<'_>,
    earlier: &EarlierMachine,
    job: &Job<PlaneCore>,
) -> Result<(), Fault>
    requires { length (cells_of earlier.now.storage) ≡ length job.now.machine.works.storage }
    ensures step { IsStep S.Store tables.old tables.new result }
    ensures set { Changes S.Store tables.old tables.new result
        (λ t. HasEarlierRows name.entry earlier.now t
        × HasFewerGranted name.entry job.now.stretches t)
        (with_progress name.entry job.now) }
    ensures characters { OnOk result (HoldsCharacters job.now.machine.works.storage) }
{
    let parts = job.parts();
    set_running(tables, name, earlier, parts.machine)?;
    set_last_granted(tables, name, parts.stretches)
}

/// Saves a job after a slice, before which its machine had what the earlier one has.
fn save_slice<S: Alter>(
    tables: &mut OpenTables<'_, '_, S>,
    name: JobName<'_>,
    earlier: &EarlierMachine,
    job: &Job<PlaneCore>,
) -> Result<(), Fault>
    requires { length (cells_of earlier.now.storage) ≡ length job.now.machine.works.storage }
    ensures step { IsStep S.Store tables.old tables.new result }
    ensures saved { (limit : ℕ) (old : KnownJob) → Saves S.Store tables.old tables.new result
        (IsAfterMachine name.entry earlier.now job.now (command.Slice limit) old)
        (with_after name.entry (command.Slice limit) old) }
{
    // A law, for the proof: it does nothing.
    runs_only_add();
    let machine = job.parts().machine;
    let units = &machine.units;
    insert_made(tables, name, units)?;
    set_progress(tables, name, earlier, job)
}

/// Inserts a job's last stretch.
fn insert_last_stretch<S: Alter>(
    tables: &mut OpenTables<'_, '_, S>,
    name: JobName<'_>,
    stretches: &[Stretch],
) -> Result<(), Fault>
    ensures step { IsStep S.Store tables.old tables.new result }
    ensures added { Changes S.Store tables.old tables.new result
        (HasOneLess name.entry stretches.now)
        (with_all_stretches name.entry stretches.now) }
{
    let (place, last) = last_of(stretches)?;
    let stretch = StretchRow {
        switches: switches_number(last.switches),
        granted: last.granted,
    };
    tables.insert_stretch(name, place, stretch)
}

/// Saves a job after a start.
fn save_start<S: Alter>(
    tables: &mut OpenTables<'_, '_, S>,
    name: JobName<'_>,
    job: &Job<PlaneCore>,
) -> Result<(), Fault>
    ensures step { IsStep S.Store tables.old tables.new result }
    ensures saved { (switches : Switches) (old : KnownJob)
        → Saves S.Store tables.old tables.new result
        (IsAfter name.entry job.now (command.Start switches) old)
        (with_after name.entry (command.Start switches) old) }
{
    let started = job.parts();
    set_state(tables, name, started.machine)?;
    insert_last_stretch(tables, name, started.stretches)
}

/// Saves whether a job is held, and whether it was collected.
pub fn note_flags<S: Alter>(
    tables: &mut OpenTables<'_, '_, S>,
    name: JobName<'_>,
    held: bool,
    collected: bool,
) -> Result<(), Fault>
    ensures step { IsStep S.Store tables.old tables.new result }
    ensures saved { (old : KnownJob) → Saves S.Store tables.old tables.new result
        (λ office. job_in name.entry office ≡ Some old)
        (with_flagged name.entry held collected old) }
{
    tables.set_flags(name, truth(held), truth(collected))
}

/// Saves a job after a slice or a start that was not refused, before which its machine had what the
/// earlier one has.
pub fn save<S: Alter>(
    tables: &mut OpenTables<'_, '_, S>,
    name: JobName<'_>,
    drive: Drive,
    earlier: &EarlierMachine,
    job: &Job<PlaneCore>,
) -> Result<(), Fault>
    requires { length (cells_of earlier.now.storage) ≡ length job.now.machine.works.storage }
    ensures step { IsStep S.Store tables.old tables.new result }
    ensures saved { (old : KnownJob) → Saves S.Store tables.old tables.new result
        (IsAfterMachine name.entry earlier.now job.now (drive_command drive) old)
        (with_after name.entry (drive_command drive) old) }
{
    match drive {
        Drive::Slice { .. } => save_slice(tables, name, earlier, job),
        Drive::Start { .. } => save_start(tables, name, job),
    }
}

/// The row of a job that is handed in and loads this deck.
fn job_row(alloc: Global, contents: &Contents, loaded: &Deck) -> Result<JobRow, AllocError>
    ensures row { IfOk result (λ row. row ≡ new_cells contents.now loaded.now) }
    ensures deck { OnOk result (IsDeck contents.now.deck) }
    ensures loaded { OnOk result (IsDeck loaded.now) }
{
    Ok(JobRow {
        kind: contents.kind.number(),
        size: contents.size,
        deck: deck_bytes(alloc, &contents.deck)?,
        loaded: deck_bytes(alloc, loaded)?,
        held: truth(false),
        collected: truth(false),
    })
}

/// Inserts the row of a job that is handed in.
fn insert_handed<S: Alter>(
    tables: &mut OpenTables<'_, '_, S>,
    name: JobName<'_>,
    contents: &Contents,
    loaded: &Deck,
) -> Result<(), Fault>
    ensures step { IsStep S.Store tables.old tables.new result }
    ensures added { Changes S.Store tables.old tables.new result
        (HasNoJob name.entry) (with_handed name.entry contents.now loaded.now) }
    ensures deck { OnOk result (IsDeck contents.now.deck) }
    ensures loaded { OnOk result (IsDeck loaded.now) }
{
    let row = job_row(tables.alloc, contents, loaded)?;
    tables.insert_job(name, &row)
}

/// Inserts the state of a job's machine, and its profile.
fn insert_state<S: Alter>(
    tables: &mut OpenTables<'_, '_, S>,
    name: JobName<'_>,
    machine: &Parts<PlaneCore>,
) -> Result<(), Fault>
    requires { IsInRange machine.now }
    ensures step { IsStep S.Store tables.old tables.new result }
    ensures added { Changes S.Store tables.old tables.new result
        (λ t. HasNoState name.entry t × HasNoProfile name.entry t)
        (λ t. with_selection name.entry machine.now (with_running name.entry machine.now t)) }
{
    tables.insert_state(name, state_row(machine))?;
    tables.insert_profile(name, profile_row(&machine.units.punch))
}

/// Inserts the state of a job's machine, the pages of its storage that are not blank, and its
/// profile.
fn insert_machine<S: Alter>(
    tables: &mut OpenTables<'_, '_, S>,
    name: JobName<'_>,
    machine: &Parts<PlaneCore>,
) -> Result<(), Fault>
    requires { IsInRange machine.now }
    ensures step { IsStep S.Store tables.old tables.new result }
    ensures added { Changes S.Store tables.old tables.new result
        (HasNoMachine name.entry)
        (λ t. with_selection name.entry machine.now (with_machine name.entry machine.now t)) }
    ensures characters { HoldsCharacters machine.now.works.storage }
{
    // A law, for the proof: it does nothing.
    storage_holds_characters(&machine.core);
    insert_pages(tables, name, &machine.core)?;
    insert_state(tables, name, machine)
}

/// Inserts a job's first stretch and its machine.
fn insert_begun<S: Alter>(
    tables: &mut OpenTables<'_, '_, S>,
    name: JobName<'_>,
    job: &Job<PlaneCore>,
) -> Result<(), Fault>
    ensures step { IsStep S.Store tables.old tables.new result }
    ensures added { Changes S.Store tables.old tables.new result
        (HasNotStarted name.entry job.now) (with_begun name.entry job.now) }
    ensures characters { OnOk result (HoldsCharacters job.now.machine.works.storage) }
{
    let parts = job.parts();
    insert_last_stretch(tables, name, parts.stretches)?;
    insert_machine(tables, name, parts.machine)
}

/// Inserts a job that was handed in.
pub fn save_new<S: Alter>(
    tables: &mut OpenTables<'_, '_, S>,
    name: JobName<'_>,
    contents: &Contents,
    job: &Job<PlaneCore>,
) -> Result<(), Fault>
    ensures step { IsStep S.Store tables.old tables.new result }
    ensures saved { (new : KnownJob) → IsTakenAs contents.now job.now new
        → Saves S.Store tables.old tables.new result
        (IsFreeName name.entry) (with_new name.entry new) }
{
    // Laws, for the proof: they do nothing.
    runs_only_add();
    commands_keep_jobs();
    let machine = job.parts().machine;
    let deck = &machine.units.hopper.deck;
    insert_handed(tables, name, contents, deck)?;
    insert_begun(tables, name, job)
}
