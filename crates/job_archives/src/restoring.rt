//! The commands of scripts that hand an archived job in again.

ghost use Rattle.std.specs.Prelude.{◌≡◌, ◌+◌, ◌/◌, ◌<◌, ◌++◌, IfOk, OnOk};
ghost use Rattle.job_archives.specs.Restoring.{flag_script, if_set, on_job, rest_slice, setup, slice, slices, slices_in, start, stretch_script, submission, submission_line};

use crate::records::kind_word;
use cards::write_text;
use job_checks::JobRun;
use office::Stretch;
use std::alloc::{AllocError, Global};
use texts::{push_decimal, push_switches};

/// The most instructions of a slice.
const SLICE: u32 = 2_000;

/// The most slices in a part of a script, so that the script is not too long.
const MOST_SLICES: u32 = 100_000;

/// Adds a verb and the job's name.
#[tactic(auto, unfolding(crate::specs::Restoring::on_job))]
fn push_on_job(out: &mut Vec<u8>, verb: &str, run: &JobRun) -> Result<(), AllocError>
    ensures { OnOk result (out.new.items ≡ out.old.items ++ on_job verb.now run.now) }
{
    out.extend_from_slice(verb.as_bytes())?;
    out.extend_from_slice(b" ")?;
    out.extend_from_slice(run.customer().as_bytes())?;
    out.extend_from_slice(b" ")?;
    push_decimal(out, run.number() as usize)
}

/// Adds the kind, the size and the switches with which a deck is handed in.
#[tactic(auto, unfolding(crate::specs::Restoring::setup))]
fn push_setup(out: &mut Vec<u8>, run: &JobRun, stretch: Stretch) -> Result<(), AllocError>
    ensures { OnOk result (out.new.items ≡ out.old.items ++ setup run.now stretch) }
{
    out.extend_from_slice(kind_word(run.kind()).as_bytes())?;
    out.extend_from_slice(b" ")?;
    push_decimal(out, run.size().positions() as usize)?;
    out.extend_from_slice(b" ")?;
    push_switches(out, stretch.switches)
}

/// Adds the line of the submission.
#[tactic(auto, unfolding(crate::specs::Restoring::submission_line))]
fn push_submission_line(out: &mut Vec<u8>, run: &JobRun, stretch: Stretch) -> Result<(), AllocError>
    ensures { OnOk result (out.new.items ≡ out.old.items ++ submission_line run.now stretch) }
{
    push_on_job(out, "submit", run)?;
    out.extend_from_slice(b" ")?;
    push_setup(out, run, stretch)?;
    out.extend_from_slice(b" ")?;
    push_decimal(out, run.deck().cards().len())?;
    out.extend_from_slice(b"\n")
}

/// Adds the submission of the deck.
#[tactic(auto, unfolding(crate::specs::Restoring::submission))]
fn push_submission(
    alloc: Global,
    out: &mut Vec<u8>,
    run: &JobRun,
    stretch: Stretch,
) -> Result<(), AllocError>
    ensures { OnOk result (out.new.items ≡ out.old.items ++ submission run.now stretch) }
{
    let deck = write_text(alloc, run.deck())?;
    push_submission_line(out, run, stretch)?;
    out.extend_from_slice(&deck)
}

/// Adds the start of another stretch.
#[tactic(auto, unfolding(crate::specs::Restoring::start))]
fn push_start(out: &mut Vec<u8>, run: &JobRun, stretch: Stretch) -> Result<(), AllocError>
    ensures { OnOk result (out.new.items ≡ out.old.items ++ start run.now stretch) }
{
    push_on_job(out, "start", run)?;
    out.extend_from_slice(b" ")?;
    push_switches(out, stretch.switches)?;
    out.extend_from_slice(b"\n")
}

/// Adds a slice.
#[tactic(auto, unfolding(crate::specs::Restoring::slice))]
fn push_slice(out: &mut Vec<u8>, run: &JobRun, limit: u32) -> Result<(), AllocError>
    ensures { OnOk result (out.new.items ≡ out.old.items ++ slice run.now limit) }
{
    push_on_job(out, "slice", run)?;
    out.extend_from_slice(b" ")?;
    push_decimal(out, limit as usize)?;
    out.extend_from_slice(b"\n")
}

/// Adds so many slices of the most instructions.
fn push_slices(out: &mut Vec<u8>, run: &JobRun, count: u32) -> Result<(), AllocError>
    ensures { OnOk result (out.new.items ≡ out.old.items ++ slices run.now count) }
{
    for _slice in 0..count {
        push_slice(out, run, SLICE)?;
    }
    Ok(())
}

/// Adds the slice of what is beyond slices of the most instructions, if there is any.
fn push_rest(out: &mut Vec<u8>, run: &JobRun, stretch: Stretch) -> Result<(), AllocError>
    ensures { OnOk result (out.new.items ≡ out.old.items ++ rest_slice run.now stretch) }
{
    let rest = stretch.granted % SLICE;
    if rest == 0 {
        return Ok(());
    }
    push_slice(out, run, rest)
}

/// How many slices of the most instructions stand in a part of the script of a stretch.
fn slices_in(stretch: Stretch, part: u32) -> u32
    requires { part < 10000 }
    ensures { result ≡ slices_in stretch part }
{
    let left = (stretch.granted / SLICE).saturating_sub(MOST_SLICES * part);
    if MOST_SLICES <= left {
        MOST_SLICES
    } else {
        left
    }
}

/// Returns how many parts the script of a stretch has, at least one.
pub fn parts_of(stretch: Stretch) -> u32
    ensures count { result ≡ stretch.granted / 200000000 + 1 }
    ensures few { result < 10000 }
{
    stretch.granted / (SLICE * MOST_SLICES) + 1
}

/// Returns a part of the script of a stretch, which is at this place in the job. Fails only if there
/// is no memory.
#[tactic(auto, unfolding(crate::specs::Restoring::stretch_script))]
pub fn stretch_script(
    alloc: Global,
    run: &JobRun,
    at: usize,
    stretch: Stretch,
    part: u32,
) -> Result<Vec<u8>, AllocError>
    requires { part < 10000 }
    ensures { IfOk result (λ script. script.items ≡ stretch_script run.now at stretch part) }
{
    let mut out = Vec::new(alloc);
    if part == 0 {
        if at == 0 {
            push_submission(alloc, &mut out, run, stretch)?;
        } else {
            push_start(&mut out, run, stretch)?;
        }
        push_rest(&mut out, run, stretch)?;
    }
    push_slices(&mut out, run, slices_in(stretch, part))?;
    Ok(out)
}

/// Adds a command on the job, if a flag is set.
fn push_if(out: &mut Vec<u8>, flag: bool, verb: &str, run: &JobRun) -> Result<(), AllocError>
    ensures { OnOk result (out.new.items ≡ out.old.items ++ if_set flag verb.now run.now) }
{
    if !flag {
        return Ok(());
    }
    push_on_job(out, verb, run)?;
    out.extend_from_slice(b"\n")
}

/// Returns the script that sets the job's flags. Fails only if there is no memory.
#[tactic(auto, unfolding(crate::specs::Restoring::flag_script))]
pub fn flag_script(alloc: Global, run: &JobRun) -> Result<Vec<u8>, AllocError>
    ensures { IfOk result (λ script. script.items ≡ flag_script run.now) }
{
    let mut out = Vec::new(alloc);
    push_if(&mut out, run.is_held(), "hold", run)?;
    push_if(&mut out, run.is_collected(), "collect", run)?;
    Ok(out)
}
