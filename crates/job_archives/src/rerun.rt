//! A job that is run again from its archive alone.

ghost use Rattle.std.specs.Prelude.{◌≡◌, ℕ, List, IfErr, IfOk, true};
ghost use Rattle.texts.specs.Names.{is_customer, is_number};
ghost use Rattle.job_archives.specs.{
  Reruns.{HasRunOtherwise, IsRunOf, has_files},
  declared.rerun.Unrun.TheVariants.{NoMemory},
};

use crate::archives::{Archive, files_of};
use crate::record_texts::{
    RecordPart, ToldMachine, flags_in, split_machine, split_name, split_stretches,
};
use cards::{CardError, CardFault, Deck, read_text};
use job_checks::{JobReport, JobRun, ToldJob, run_told};
use office::Stretch;
use std::alloc::{AllocError, Global};
use std::str;
use texts::JobName;

/// Why a job is not run again from its archive.
#[derive(Drop)]
pub enum Unrun {
    /// There is no memory.
    NoMemory,
    /// `deck.text` is no deck: its first fault.
    Deck(CardFault),
    /// `record` is none: this part of it.
    Record(RecordPart),
    /// No bureau has such a job: what a check tells of it.
    Job(JobReport),
    /// The job that these files tell has another record when it is run again.
    Other(JobRun),
}

impl From<AllocError> for Unrun {
    ghost from_gives = { λ _ unrun. unrun ≡ NoMemory };

    fn from(_error: AllocError) -> Self {
        Unrun::NoMemory
    }
}

/// What a record tells.
#[derive(Drop)]
struct ToldRecord<'a> {
    name: JobName<'a>,
    machine: ToldMachine,
    stretches: Vec<Stretch>,
    held: bool,
    collected: bool,
}

/// What a text tells as a record.
fn read_lines(alloc: Global, text: &str) -> Result<ToldRecord<'_>, Unrun>
    ensures customer { IfOk result (λ told. is_customer told.name.customer.now ≡ true) }
    ensures number { IfOk result (λ told. is_number told.name.number ≡ true) }
    ensures none { (deck_text record_text : List ℕ)
        → IfErr result (HasRunOtherwise deck_text record_text) }
{
    let Some((name, rest)) = split_name(text) else {
        return Err(Unrun::Record(RecordPart::Name));
    };
    let Some((machine, rest)) = split_machine(rest) else {
        return Err(Unrun::Record(RecordPart::Machine));
    };
    let Some((stretches, rest)) = split_stretches(alloc, rest)? else {
        return Err(Unrun::Record(RecordPart::Stretches));
    };
    let Some((held, collected)) = flags_in(rest) else {
        return Err(Unrun::Record(RecordPart::Flags));
    };
    Ok(ToldRecord {
        name,
        machine,
        stretches,
        held,
        collected,
    })
}

/// The deck of a text.
fn deck_of(alloc: Global, text: &[u8]) -> Result<Deck, Unrun>
    ensures none { (deck_text record_text : List ℕ)
        → IfErr result (HasRunOtherwise deck_text record_text) }
{
    match read_text(alloc, text) {
        Ok(deck) => Ok(deck),
        Err(fault) => match fault.error {
            CardError::NoMemory => Err(Unrun::NoMemory),
            _ => Err(Unrun::Deck(fault)),
        },
    }
}

/// Runs the job again that a record and a deck tell.
fn run_record(alloc: Global, deck: Deck, facts: &[u8]) -> Result<JobRun, Unrun>
    ensures none { (deck_text record_text : List ℕ)
        → IfErr result (HasRunOtherwise deck_text record_text) }
{
    let Ok(text) = str::from_utf8(facts) else {
        return Err(Unrun::Record(RecordPart::Name));
    };
    let ToldRecord {
        name,
        machine,
        stretches,
        held,
        collected,
    } = read_lines(alloc, text)?;
    let told = ToldJob {
        kind: machine.kind,
        size: machine.size,
        deck,
        profile: machine.profile,
        stretches,
        held,
        collected,
    };
    match run_told(alloc, name, told)? {
        Ok(run) => Ok(run),
        Err(report) => Err(Unrun::Job(report)),
    }
}

/// Whether an archive has this deck text and this record.
fn has_files(archive: &Archive, deck: &[u8], facts: &[u8]) -> bool
    ensures { result ≡ has_files archive.now deck.now facts.now }
{
    archive.deck.as_slice() == deck && archive.facts.as_slice() == facts
}

/// Runs a job again from two files of its archive, `deck.text` and `record`, and compares what it
/// makes with them. By the law `archives_are_whole` no other job has these two files.
#[tactic(auto, using(crate::proofs::RerunLemmas::is_run, crate::proofs::RerunLemmas::is_no_run))]
pub fn run_archived(alloc: Global, deck: &[u8], facts: &[u8]) -> Result<JobRun, Unrun>
    ensures run { IfOk result (λ run. IsRunOf deck.now facts.now run) }
    ensures other { IfErr result (HasRunOtherwise deck.now facts.now) }
{
    let run = run_record(alloc, deck_of(alloc, deck)?, facts)?;
    let archive = files_of(alloc, &run)?;
    if has_files(&archive, deck, facts) {
        Ok(run)
    } else {
        Err(Unrun::Other(run))
    }
}
