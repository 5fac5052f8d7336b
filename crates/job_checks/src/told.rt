//! A job that is told, and is in no rows: it is run again.

ghost use Rattle.std.specs.Prelude.{◌≡◌, All, IfErr, IfOk, true};
ghost use Rattle.office_tables.specs.Standing.{CanBeKept};
ghost use Rattle.ledger_rows.specs.{Columns.{HoldsCharacters, IsLine}, Pockets.{IsPunched}};
ghost use Rattle.machine.specs.Run.{lines_of};
ghost use Rattle.texts.specs.Names.{is_customer, is_number};
ghost use Rattle.job_checks.specs.{
  Jobs.{entry_of, told_entry},
  Outcomes.{IsAsItRan},
  Stops.{IfDiffers},
};

use crate::again::{Loaded, load, run_again};
use crate::differences::Stop;
use crate::reports::{JobReport, Outcome};
use crate::runs::JobRun;
use crate::submitted::Numbers;
use cards::Deck;
use core_store::{PlaneCore, Size};
use ledger_rows::{card_bytes, line_bytes, storage_holds_characters};
use machine::Parts;
use office::{Kind, Stretch};
use std::alloc::{AllocError, Global};
use std::marker::Model;
use texts::JobName;
use units::{Line, Profile, Punched};

/// A job as it is told: what its customer handed in, its profile, its stretches and its flags.
#[derive(Drop)]
pub struct ToldJob {
    /// The kind of its deck.
    pub kind: Kind,
    /// The size of its machine's storage.
    pub size: Size,
    /// Its deck, as it was handed in.
    pub deck: Deck,
    /// The profile of its machine.
    pub profile: Profile,
    /// Its stretches, in order.
    pub stretches: Vec<Stretch>,
    /// Whether it is held.
    pub held: bool,
    /// Whether it was collected.
    pub collected: bool,
}

impl Model for ToldJob {
    ghost use Rattle.office.specs.Jobs.{Job};

    ghost Value = { Job };

    ghost view = { λ told. record {
      kind = told.kind;
      size = told.size;
      deck = told.deck;
      profile = told.profile;
      stretches = told.stretches.items;
      held = told.held;
      collected = told.collected;
    } };
}

/// The columns of cards hold characters. It is for the proof, and does nothing else.
fn cards_hold_characters(cards: &[Punched])
    ensures { All IsPunched cards.now }
{
    for at in 0..cards.len() {
        let _bytes = card_bytes(&cards[at].card);
    }
}

/// The places of lines hold characters. It is for the proof, and does nothing else.
fn lines_hold_characters(lines: &[Line])
    ensures { All IsLine lines.now }
{
    for at in 0..lines.len() {
        let _bytes = line_bytes(&lines[at]);
    }
}

/// What a machine has punched and printed holds characters, and so does its storage. It is for the
/// proof, and does nothing else.
fn machine_holds_characters(machine: &Parts<PlaneCore>)
    ensures cards { All IsPunched machine.now.works.units.punch.cards }
    ensures lines { All IsLine (lines_of machine.now) }
    ensures characters { HoldsCharacters machine.now.works.storage }
{
    cards_hold_characters(machine.units.punch.cards.as_slice());
    lines_hold_characters(machine.units.printer.lines.as_slice());
    storage_holds_characters(&machine.core);
}

/// Runs the job of this name again, with these contents, profile and stretches.
fn go_through(
    alloc: Global,
    name: JobName<'_>,
    numbers: Numbers,
    deck: Deck,
    profile: Profile,
    stretches: Vec<Stretch>,
) -> Result<JobRun, Stop>
    requires customer { is_customer name.customer.now ≡ true }
    requires number { is_number name.number ≡ true }
    ensures same { IfOk result (λ run. run ≡ entry_of name.entry.customer.now name.entry.number
        numbers deck profile stretches.items) }
    ensures other { IfDiffers result (¬ CanBeKept (entry_of name.entry.customer.now
        name.entry.number numbers deck profile stretches.items).job) }
{
    let loaded = load(alloc, numbers.kind, numbers.size, deck)?;
    let Loaded { deck, loaded, .. } = loaded;
    let machine = run_again(alloc, loaded, numbers.size, profile, &stretches)?;
    machine_holds_characters(machine.parts());
    let run = JobRun::of(alloc, name, numbers, deck, profile, stretches, machine)?;
    Ok(run)
}

/// Runs a told job of this name again.
fn go_through_told(alloc: Global, name: JobName<'_>, told: ToldJob) -> Result<JobRun, Stop>
    requires customer { is_customer name.customer.now ≡ true }
    requires number { is_number name.number ≡ true }
    ensures same { IfOk result (λ run. run
        ≡ told_entry name.entry.customer.now name.entry.number told) }
    ensures other { IfDiffers result (¬ CanBeKept told) }
{
    let ToldJob {
        kind,
        size,
        deck,
        profile,
        stretches,
        held,
        collected,
    } = told;
    let numbers = Numbers {
        kind,
        size,
        held,
        collected,
    };
    go_through(alloc, name, numbers, deck, profile, stretches)
}

/// Runs a job of this name again, which is told and is in no rows: returns the job, or what is told
/// of it where no bureau can have such a job. Fails only if there is no memory.
pub fn run_told(
    alloc: Global,
    name: JobName<'_>,
    told: ToldJob,
) -> Result<Result<JobRun, JobReport>, AllocError>
    requires customer { is_customer name.customer.now ≡ true }
    requires number { is_number name.number ≡ true }
    ensures run { IfOk result (λ found. IfOk found (λ run. run
        ≡ told_entry name.entry.customer.now name.entry.number told)) }
    ensures told { IfOk result (λ found. IfErr found (λ report. ¬ IsAsItRan report.outcome)) }
    ensures other { IfOk result (λ found. IfErr found (λ report. ¬ CanBeKept told)) }
{
    match go_through_told(alloc, name, told) {
        Ok(run) => Ok(Ok(run)),
        Err(Stop::Differs(difference)) => Ok(Err(JobReport {
            customer: Vec::from_slice(alloc, name.customer.as_bytes())?,
            number: i64::from(name.number),
            outcome: Outcome::Differs(difference),
        })),
        Err(Stop::NoMemory) => Err(AllocError),
    }
}
