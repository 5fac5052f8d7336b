//! Reading a job from the tables: its machine has none of the cards and lines that the job has
//! made, and counts them by its state.

ghost use Rattle.std.specs.Prelude.{◌≡◌, ◌≢◌, ℕ, List, All, map, Some, None, Ok, IsErr, IsErrOf, IsSome, IfOk, IfErr, IfSome, OnOk};
ghost use Rattle.cards.specs.Decks.{deck_bytes, IsDeck};
ghost use Rattle.core_store.specs.Storage.{positions_of};
ghost use Rattle.machine.specs.{Earlier.{without_outputs}, Ranges.{IsInRange}, Run.{State}};
ghost use Rattle.office.specs.{
  Jobs.{Job as KnownJob, picture, HasSwitches},
  Kept.{IsJobInRange},
  declared.stretches.Stretch.{Stretch},
};
ghost use Rattle.ledger_rows.specs.{Columns.{HoldsCharacters}, Pictures.{IsPictured}};
ghost use Rattle.ledger_tables.specs.{
  Listed.{loaded_row},
  Named.{of_job},
  Steps.{Finds, IsOpenStep},
};
ghost use Rattle.ledger.specs.{
  Found.{IsMediaOf, IsFoundAs, IsHandedAs, CanBeOfJob, HasStretches, HasMachine, HasMachineWith, HasKept, HasPunch, BeganWith},
  Saving.{job_in},
  Standing.{job_cells, stretch_row, CanBeKept},
  Steps.{FindsIn, FailsAlone, FailsWith},
};

use core_store::{Core, Size};
use ledger_rows::{Media, read_deck, read_picture, read_punch, read_switches, read_truth};
use ledger_tables::{Fault, JobRow, LoadedRow, OpenTables, PageRow, StateRow, StretchRow};
use machine::{Parts, outputs_are_put_back, runs_only_add};
use office::{Job, JobParts, Stretch, commands_keep_jobs};
use sqlite::Alter;
use std::alloc::{AllocError, Global};
use texts::JobName;
use units::{Punch, Switches};

/// What was read, if it is there: fault 2 if the rows do not hold it, and fault 1 if there was no
/// memory.
pub fn told<T>(read: Result<Option<T>, AllocError>) -> Result<T, Fault>
    ensures found { IfOk result (λ it. read ≡ Ok (Some it)) }
    ensures store { IsErrOf result Fault.Store → read ≡ Ok None }
    ensures memory { IsErrOf result Fault.NoMemory → IsErr read }
{
    match read {
        Ok(Some(it)) => Ok(it),
        Ok(None) => Err(Fault::Store),
        Err(_) => Err(Fault::NoMemory),
    }
}

/// What the rows hold, if it is there, and else fault 2.
pub fn stored<T>(found: Option<T>) -> Result<T, Fault>
    ensures some { IfOk result (λ it. found ≡ Some it) }
    ensures none { IfErr result (λ fault. (fault ≡ Fault.Store) × (found ≡ None)) }
{
    match found {
        Some(it) => Ok(it),
        None => Err(Fault::Store),
    }
}

/// The stretch of a row, if it is one.
fn read_stretch(row: &StretchRow) -> Option<Stretch>
    ensures all { (stretch : Stretch) → HasSwitches stretch
        → row.now ≡ stretch_row stretch → result ≡ Some stretch }
    ensures only { IfSome result (λ stretch.
        (stretch_row stretch ≡ row.now) × HasSwitches stretch) }
{
    let switches = read_switches(row.switches)?;
    Some(Stretch {
        switches,
        granted: row.granted,
    })
}

/// The stretches of these rows, if each is one.
fn read_stretches(alloc: Global, rows: &[StretchRow]) -> Result<Option<Vec<Stretch>>, AllocError>
    ensures all { IfOk result (λ read. (stretches : List Stretch)
        → All HasSwitches stretches → rows.now ≡ map stretch_row stretches
        → IfSome read (λ made. made.items ≡ stretches) × IsSome read) }
    ensures only { IfOk result (λ read. IfSome read (λ made.
        (map stretch_row made.items ≡ rows.now) × All HasSwitches made.items)) }
{
    let mut stretches = Vec::new(alloc);
    for row in rows {
        let Some(stretch) = read_stretch(row) else {
            return Ok(None);
        };
        stretches.try_reserve(1)?;
        stretches.push_reserved(stretch);
    }
    Ok(Some(stretches))
}

/// The stretches of a job.
pub fn find_stretches<S: Alter>(
    tables: &mut OpenTables<'_, '_, S>,
    name: JobName<'_>,
) -> Result<Vec<Stretch>, Fault>
    ensures step { IsOpenStep S.Store tables.old tables.new result }
    ensures found { FindsIn S.Store tables.old tables.new result
        (λ office found. HasStretches (job_in name.entry office) found.items) }
    ensures rows { Finds S.Store tables.old tables.new result
        (λ t found. map stretch_row found.items ≡ of_job name.entry t.stretches) }
    ensures failed { FailsAlone S.Store tables.old tables.new result }
{
    let rows = tables.find_stretches(name)?;
    told(read_stretches(tables.alloc, rows.as_slice()))
}

/// Finds the punch of a job's machine, without its cards.
fn find_punch<S: Alter>(
    tables: &mut OpenTables<'_, '_, S>,
    name: JobName<'_>,
) -> Result<Punch, Fault>
    ensures step { IsOpenStep S.Store tables.old tables.new result }
    ensures found { FindsIn S.Store tables.old tables.new result
        (λ office found. HasPunch (job_in name.entry office) found) }
    ensures failed { (job : KnownJob)
        → FailsWith S.Store tables.old tables.new result name.entry job }
{
    let found = tables.find_profile(name)?;
    let row = stored(found)?;
    stored(read_punch(tables.alloc, row))
}

/// The deck and the switches of a machine, and its punch, without its cards and lines.
fn read_media(
    alloc: Global,
    loaded: &[u8],
    switches: Switches,
    punch: Punch,
) -> Result<Media, Fault>
    ensures read { IfOk result (λ media. (m : State) → IsDeck m.works.units.hopper.deck
        → loaded.now ≡ deck_bytes m.works.units.hopper.deck → switches ≡ m.works.units.switches
        → punch ≡ (without_outputs m).works.units.punch
        → IsMediaOf media (without_outputs m)) }
    ensures store { IsErrOf result Fault.Store → (m : State) → IsDeck m.works.units.hopper.deck
        → loaded.now ≢ deck_bytes m.works.units.hopper.deck }
{
    let deck = told(read_deck(alloc, loaded))?;
    Ok(Media {
        deck,
        switches,
        punch,
        lines: Vec::new(alloc),
    })
}

/// The machine of a picture.
fn machine_of<C: Core>(
    alloc: Global,
    size: u32,
    row: StateRow,
    pages: &[PageRow],
    media: Media,
) -> Result<Parts<C>, Fault>
    ensures machine { IfOk result (λ machine. (m : State) → IsInRange m
        → HoldsCharacters m.works.storage → IsPictured size row pages.now media m
        → machine ≡ m) }
    ensures store { IsErrOf result Fault.Store → (m : State) → IsInRange m
        → HoldsCharacters m.works.storage → ¬ IsPictured size row pages.now media m }
{
    told(read_picture(alloc, size, row, pages, media))
}

/// Finds a job's machine of this size without its cards and lines, given its deck and switches.
fn find_machine<S: Alter, C: Core>(
    tables: &mut OpenTables<'_, '_, S>,
    name: JobName<'_>,
    size: u32,
    media: Media,
) -> Result<Parts<C>, Fault>
    ensures step { IsOpenStep S.Store tables.old tables.new result }
    ensures found { FindsIn S.Store tables.old tables.new result
        (λ office found. HasMachineWith (job_in name.entry office) size media found) }
    ensures failed { (job : KnownJob) → size ≡ positions_of job.size
        → IsMediaOf media (without_outputs (picture job))
        → FailsWith S.Store tables.old tables.new result name.entry job }
{
    // Laws, for the proof: they do nothing.
    commands_keep_jobs();
    outputs_are_put_back();
    runs_only_add();
    let found = tables.find_state(name)?;
    let row = stored(found)?;
    let pages = tables.find_pages(name)?;
    machine_of(tables.alloc, size, row, pages.as_slice(), media)
}

/// Finds a job's machine without its cards and lines, given the columns that it needs.
fn find_running<S: Alter, C: Core>(
    tables: &mut OpenTables<'_, '_, S>,
    name: JobName<'_>,
    row: &LoadedRow,
    switches: Switches,
) -> Result<Parts<C>, Fault>
    ensures step { IsOpenStep S.Store tables.old tables.new result }
    ensures found { FindsIn S.Store tables.old tables.new result
        (λ office found. HasMachine (job_in name.entry office) row.now switches found) }
    ensures failed { (job : KnownJob) → row.now ≡ loaded_row (job_cells job)
        → switches ≡ (picture job).works.units.switches
        → FailsWith S.Store tables.old tables.new result name.entry job }
{
    // A law, for the proof: it does nothing.
    runs_only_add();
    let punch = find_punch(tables, name)?;
    let media = read_media(tables.alloc, &row.loaded, switches, punch)?;
    find_machine(tables, name, row.size, media)
}

/// Finds the parts of a job, its machine without its cards and lines, given the columns that its
/// machine needs.
fn find_parts<S: Alter, C: Core>(
    tables: &mut OpenTables<'_, '_, S>,
    name: JobName<'_>,
    row: &LoadedRow,
) -> Result<JobParts<C>, Fault>
    ensures step { IsOpenStep S.Store tables.old tables.new result }
    ensures found { FindsIn S.Store tables.old tables.new result
        (λ office found. HasKept (job_in name.entry office) row.now found) }
    ensures failed { (job : KnownJob) → row.now ≡ loaded_row (job_cells job)
        → FailsWith S.Store tables.old tables.new result name.entry job }
{
    let (Some(held), Some(collected)) = (read_truth(row.held), read_truth(row.collected)) else {
        return Err(Fault::Store);
    };
    // A law, for the proof: it does nothing.
    runs_only_add();
    let stretches = find_stretches(tables, name)?;
    let Some(last) = stretches.last() else {
        return Err(Fault::Store);
    };
    let machine = find_running(tables, name, row, last.switches)?;
    Ok(JobParts {
        stretches,
        held,
        collected,
        machine,
    })
}

/// The job with these parts.
fn job_with<C: Core>(alloc: Global, parts: JobParts<C>) -> Result<Job<C>, Fault>
    ensures job { IfOk result (λ job. job ≡ parts) }
    ensures store { IsErrOf result Fault.Store → ¬ IsJobInRange parts }
{
    told(Job::from_parts(alloc, parts))
}

/// Finds the job of this row, its machine without its cards and lines.
fn find_kept<S: Alter, C: Core>(
    tables: &mut OpenTables<'_, '_, S>,
    name: JobName<'_>,
    row: &LoadedRow,
) -> Result<Job<C>, Fault>
    ensures step { IsOpenStep S.Store tables.old tables.new result }
    ensures found { FindsIn S.Store tables.old tables.new result
        (λ office found. HasKept (job_in name.entry office) row.now found) }
    ensures failed { (job : KnownJob) → row.now ≡ loaded_row (job_cells job)
        → FailsWith S.Store tables.old tables.new result name.entry job }
{
    // Laws, for the proof: they do nothing.
    commands_keep_jobs();
    outputs_are_put_back();
    let parts = find_parts(tables, name, row)?;
    job_with(tables.alloc, parts)
}

/// Finds the job of this name, its machine without its cards and lines, if there is such a job.
pub fn find_to_run<S: Alter, C: Core>(
    tables: &mut OpenTables<'_, '_, S>,
    name: JobName<'_>,
) -> Result<Option<Job<C>>, Fault>
    ensures step { IsOpenStep S.Store tables.old tables.new result }
    ensures found { FindsIn S.Store tables.old tables.new result
        (λ office found. IsFoundAs found (job_in name.entry office)) }
    ensures failed { FailsAlone S.Store tables.old tables.new result }
{
    match tables.find_loaded(name)? {
        Some(row) => {
            let job = find_kept(tables, name, &row)?;
            Ok(Some(job))
        }
        None => Ok(None),
    }
}

/// What a job was handed in with, without its name.
#[derive(Drop)]
pub struct Handed {
    pub row: JobRow,
    /// The switches at the first start.
    pub switches: Switches,
}

/// The switches at a job's first start.
fn first_switches<S: Alter>(
    tables: &mut OpenTables<'_, '_, S>,
    name: JobName<'_>,
) -> Result<Switches, Fault>
    ensures step { IsOpenStep S.Store tables.old tables.new result }
    ensures found { FindsIn S.Store tables.old tables.new result
        (λ office found. BeganWith (job_in name.entry office) found) }
    ensures failed { (job : KnownJob)
        → FailsWith S.Store tables.old tables.new result name.entry job }
{
    let stretches = find_stretches(tables, name)?;
    match stretches.first() {
        Some(stretch) => Ok(stretch.switches),
        None => Err(Fault::Store),
    }
}

/// That this row can be a job's: fault 2 if its kind, its size, or a deck of it is none.
fn check_handed(alloc: Global, row: &JobRow) -> Result<(), Fault>
    ensures store { IsErrOf result Fault.Store → (job : KnownJob) → CanBeKept job
        → row.now ≢ job_cells job }
    ensures ok { OnOk result (CanBeOfJob row.now) }
{
    if row.kind > 1 || Size::of_positions(row.size).is_none() {
        return Err(Fault::Store);
    }
    told(read_deck(alloc, &row.deck))?;
    told(read_deck(alloc, &row.loaded))?;
    Ok(())
}

/// What the job of this name was handed in with, if there is such a job.
pub fn find_handed<S: Alter>(
    tables: &mut OpenTables<'_, '_, S>,
    name: JobName<'_>,
) -> Result<Option<Handed>, Fault>
    ensures step { IsOpenStep S.Store tables.old tables.new result }
    ensures found { FindsIn S.Store tables.old tables.new result
        (λ office found. IsHandedAs found (job_in name.entry office)) }
    ensures failed { FailsAlone S.Store tables.old tables.new result }
    ensures checked { IfOk result (λ found. IfSome found (λ handed. CanBeOfJob handed.row)) }
{
    match tables.find_job(name)? {
        Some(row) => {
            check_handed(tables.alloc, &row)?;
            let switches = first_switches(tables, name)?;
            Ok(Some(Handed { row, switches }))
        }
        None => Ok(None),
    }
}
