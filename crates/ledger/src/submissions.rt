//! Submissions: new jobs, and jobs that are handed in again.

ghost use Rattle.std.specs.Prelude.{◌≡◌, length, Ok, Err, IfOk, IfErr, IsErrOf, IsTrue};
ghost use Rattle.cards.specs.Decks.{IsDeck};
ghost use Rattle.office.specs.{
  Jobs.{Job as KnownJob},
  Office.{has_most_jobs, is_same_kind, is_of, repeated},
  declared.commands.Kind.{Kind},
};
ghost use Rattle.ledger_tables.specs.Steps.{IsStep, IsOpenStep};
ghost use Rattle.ledger.specs.{
  Found.{IsFirst},
  Saving.{IsFreeName, IsTakenAs},
  Serving.{with_added, with_taken, with_submitted},
  Standing.{CanBeKept, job_cells},
};
ghost use Rattle.office.specs.Numbers.{kind_number};
ghost use Rattle.ledger.specs.Steps.{FindsIn, FailsAlone, FailsWith, Serves, ServesWhere};

use crate::reading::{Handed, find_handed};
use crate::saving::save_new;
use bitflags::Flags;
use cards::COLUMNS;
use core_store::{Core, PlaneCore};
use ledger_rows::deck_bytes;
use ledger_tables::{Fault, OpenTables};
use machine::runs_only_add;
use office::{Contents, Job, Kind, NewFault, Refusal, Reply, new_job};
use sqlite::Alter;
use std::alloc::{AllocError, Global};
use texts::JobName;

/// The greatest number of jobs of a customer.
const MOST_JOBS: usize = 200;

/// Whether the number is the number of a kind.
fn is_same_kind(number: u32, kind: Kind) -> bool
    ensures { (is : Kind) → number ≡ kind_number is → result ≡ is_same_kind is kind }
{
    match kind {
        Kind::Object => number == 0,
        Kind::Autocoder => number == 1,
    }
}

/// Whether a job was handed in with these contents.
fn is_same(alloc: Global, handed: &Handed, contents: &Contents) -> Result<bool, AllocError>
    ensures same { IfOk result (λ same. (job : KnownJob) → handed.now.row ≡ job_cells job
        → IsFirst handed.now.switches job.stretches → same ≡ is_of contents.now job) }
{
    if !is_same_kind(handed.row.kind, contents.kind)
        || handed.row.size != contents.size
        || handed.switches.bits() != contents.switches.seven().bits()
    {
        return Ok(false);
    }
    let deck = deck_bytes(alloc, &contents.deck)?;
    Ok(handed.row.deck.as_slice() == deck.as_slice())
}

/// The reply to a job that was handed in before.
fn repeated_reply(alloc: Global, handed: &Handed, contents: &Contents) -> Result<Reply, Fault>
    ensures reply { IfOk result (λ reply. (job : KnownJob) → handed.now.row ≡ job_cells job
        → IsFirst handed.now.switches job.stretches → CanBeKept job
        → reply ≡ repeated contents.now job) }
    ensures store { IsErrOf result Fault.Store → (job : KnownJob)
        → handed.now.row ≡ job_cells job → ¬ CanBeKept job }
{
    if !is_same(alloc, handed, contents)? {
        return Ok(Reply::Refused(Refusal::OtherContents));
    }
    match u32::try_from(handed.row.loaded.len() / COLUMNS) {
        Ok(cards) => Ok(Reply::Taken { cards }),
        Err(_) => Err(Fault::Store),
    }
}

/// The number of cards that a job loads.
fn cards_loaded<C: Core>(job: &Job<C>) -> u32
    ensures { result ≡ length job.now.machine.works.units.hopper.deck }
{
    let machine = job.parts().machine;
    let deck = &machine.units.hopper.deck;
    deck.cards().len() as u32
}

/// Whether a customer has the greatest number of jobs.
fn has_most_jobs<S: Alter>(
    tables: &mut OpenTables<'_, '_, S>,
    customer: &str,
) -> Result<bool, Fault>
    ensures step { IsOpenStep S.Store tables.old tables.new result }
    ensures found { FindsIn S.Store tables.old tables.new result
        (λ office found. found ≡ has_most_jobs customer.now office) }
    ensures failed { FailsAlone S.Store tables.old tables.new result }
{
    let count = tables.count_jobs(customer)?;
    Ok(count >= MOST_JOBS)
}

/// Adds a new job, unless its customer has the greatest number of jobs.
fn add<S: Alter>(
    tables: &mut OpenTables<'_, '_, S>,
    name: JobName<'_>,
    contents: &Contents,
    job: &Job<PlaneCore>,
) -> Result<Reply, Fault>
    ensures step { IsOpenStep S.Store tables.old tables.new result }
    ensures done { (new : KnownJob) → IsTakenAs contents.now job.now new
        → ServesWhere S.Store tables.old tables.new result
        (IsFreeName name.entry) (with_added name.entry new) }
{
    // A law, for the proof: it does nothing.
    runs_only_add();
    if has_most_jobs(tables, name.customer)? {
        return Ok(Reply::Refused(Refusal::TooManyJobs));
    }
    save_new(tables, name, contents, job)?;
    Ok(Reply::Taken {
        cards: cards_loaded(job),
    })
}

/// The job that was made, or why it is refused; fault 1 if there was no memory.
fn made(new: Result<Job<PlaneCore>, NewFault>) -> Result<Result<Job<PlaneCore>, Refusal>, Fault>
    ensures job { IfOk result (λ made. IfOk made (λ job. new ≡ Ok job)) }
    ensures refused { IfOk result
        (λ made. IfErr made (λ reason. new ≡ Err (NewFault.Refused reason))) }
    ensures memory { IfErr result
        (λ fault. (fault ≡ Fault.NoMemory) × (new ≡ Err NewFault.NoMemory)) }
{
    match new {
        Ok(job) => Ok(Ok(job)),
        Err(NewFault::Refused(reason)) => Ok(Err(reason)),
        Err(NewFault::NoMemory) => Err(Fault::NoMemory),
    }
}

/// Accepts a job whose name is free.
fn submit_new<S: Alter>(
    tables: &mut OpenTables<'_, '_, S>,
    name: JobName<'_>,
    contents: &Contents,
) -> Result<Reply, Fault>
    ensures step { IsStep S.Store tables.old tables.new result }
    ensures done { ServesWhere S.Store tables.old tables.new result
        (IsFreeName name.entry) (with_taken name.entry contents.now) }
{
    let new = made(new_job(tables.alloc, contents))?;
    match new {
        Ok(job) => add(tables, name, contents, &job),
        Err(reason) => Ok(Reply::Refused(reason)),
    }
}

/// Accepts a new job; a repeated submission gets the first reply again. Returns the reply, or fault
/// 1 or 2.
pub fn submit<S: Alter>(
    tables: &mut OpenTables<'_, '_, S>,
    name: JobName<'_>,
    contents: &Contents,
) -> Result<Reply, Fault>
    ensures step { IsOpenStep S.Store tables.old tables.new result }
    ensures done { Serves S.Store tables.old tables.new result
        (with_submitted name.entry contents.now) }
    ensures failed { (job : KnownJob)
        → FailsWith S.Store tables.old tables.new result name.entry job }
{
    match find_handed(tables, name)? {
        Some(handed) => {
            let reply = repeated_reply(tables.alloc, &handed, contents)?;
            Ok(reply)
        }
        None => submit_new(tables, name, contents),
    }
}
