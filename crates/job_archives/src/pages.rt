//! The page of an archived job.

ghost use Rattle.std.specs.Prelude.{◌≡◌, option_map, IfOk, IfSome};
ghost use Rattle.{autocoder.specs.Programs.{IsFaultless}, autocoder_layout.specs.Source.{source_of}};
ghost use Rattle.job_checks.specs.Texts.{summary_words};
ghost use Rattle.office.specs.{Jobs.{switches_of}, Kept.{kept_of, summary_of}};
ghost use Rattle.job_archives.specs.Pages.{page_of_entry, source_in};

use crate::bags::name_of;
use cards::Deck;
use job_checks::{JobRun, push_summary};
use job_pages::{JobShown, page_showing};
use office::Kind;
use std::alloc::{AllocError, Global};
use units::{Switches, lines_in_range_rise};

/// The deck of a job, if it is a source.
fn source_in(run: &JobRun) -> Option<&Deck>
    ensures source { option_map (λ it. it.now) result
        ≡ source_in run.now.job.kind run.now.job.deck }
    ensures faultless { IfSome result (λ it. IsFaultless (source_of it.now)) }
{
    // Its machine, for the proof: a job that has one has a source without faults.
    run.machine();
    match run.kind() {
        Kind::Object => None,
        Kind::Autocoder => Some(run.deck()),
    }
}

/// The switches of each start of a job.
fn switches_of(alloc: Global, run: &JobRun) -> Result<Vec<Switches>, AllocError>
    ensures { IfOk result (λ switches. switches.items ≡ switches_of run.now.job) }
{
    let stretches = run.stretches();
    let mut switches = Vec::new(alloc);
    for stretch in stretches {
        switches.push(stretch.switches)?;
    }
    Ok(switches)
}

/// How a job stands, in words.
fn standing_words(alloc: Global, run: &JobRun) -> Result<Vec<u8>, AllocError>
    ensures { IfOk result (λ words. words.items ≡ summary_words (summary_of (kept_of run.now.job))) }
{
    let mut words = Vec::new(alloc);
    push_summary(&mut words, run.summary())?;
    Ok(words)
}

/// Returns the page of a job, made by this program: its name and its version. It shows the job as
/// it stands. Fails only if there is no memory.
pub fn page_of(alloc: Global, agent: &str, run: &JobRun) -> Result<Vec<u8>, AllocError>
    ensures { IfOk result (λ page. page.items ≡ page_of_entry agent.now run.now) }
{
    // A law, for the proof: it does nothing.
    lines_in_range_rise();
    let name = name_of(alloc, run)?;
    let switches = switches_of(alloc, run)?;
    let words = standing_words(alloc, run)?;
    let units = &run.machine().units;
    let shown = JobShown {
        name: &name,
        source: source_in(run),
        deck: run.loaded_deck(),
        size: run.size(),
        switches: &switches,
        row: b"standing",
        words: &words,
        lines: &units.printer.lines,
        cards: &units.punch.cards,
        version: agent.as_bytes(),
    };
    page_showing(alloc, &shown)
}
