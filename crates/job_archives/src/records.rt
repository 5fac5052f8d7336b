//! The record of a job: its name and its numbers, and the digests of its files.

ghost use Rattle.std.specs.Prelude.{◌≡◌, ◌++◌, codes, flat_map, IfOk, OnOk};
ghost use Rattle.job_archives.specs.Records.{card_digests, deck_digests, digest_lines, kind_word, name_lines, made_lines, machine_lines, pocket_line, pocket_lines, profile_word, record_of, standing_lines, stretch_line, yes_or_no};

use crate::lines::{push_file, push_line, push_number, push_pocket, push_stretch};
use job_checks::JobRun;
use office::{Kind, Stretch, Summary};
use std::alloc::{AllocError, Global};
use units::{Profile, Punched};

/// The word for a kind.
pub(crate) fn kind_word(kind: Kind) -> &'static str
    ensures { result.now ≡ kind_word kind }
{
    match kind {
        Kind::Object => "object",
        Kind::Autocoder => "autocoder",
    }
}

/// The word for a profile.
fn profile_word(profile: Profile) -> &'static str
    ensures { result.now ≡ profile_word profile }
{
    match profile {
        Profile::Plain => "1",
        Profile::Selecting => "2",
    }
}

/// The word for a flag.
fn yes_or_no(flag: bool) -> &'static str
    ensures { result.now ≡ yes_or_no flag }
{
    if flag { "yes" } else { "no" }
}

/// Adds the lines of a job's name.
#[tactic(auto, unfolding(crate::specs::Records::name_lines))]
fn push_name(out: &mut Vec<u8>, run: &JobRun) -> Result<(), AllocError>
    ensures { OnOk result (out.new.items ≡ out.old.items ++ name_lines run.now) }
{
    push_line(out, "customer", run.customer().as_bytes())?;
    push_number(out, "number", run.number() as usize)
}

/// Adds the lines of what was handed in with a job's deck, and of the profile of its machine.
#[tactic(auto, unfolding(crate::specs::Records::machine_lines))]
fn push_machine(out: &mut Vec<u8>, run: &JobRun) -> Result<(), AllocError>
    ensures { OnOk result (out.new.items ≡ out.old.items ++ machine_lines run.now) }
{
    push_line(out, "kind", kind_word(run.kind()).as_bytes())?;
    push_number(out, "size", run.size().positions() as usize)?;
    push_line(out, "profile", profile_word(run.profile()).as_bytes())
}

/// Adds the lines of a job's stretches.
fn push_stretches(out: &mut Vec<u8>, stretches: &[Stretch]) -> Result<(), AllocError>
    ensures { OnOk result (out.new.items ≡ out.old.items ++ flat_map stretch_line stretches.now) }
{
    for stretch in stretches {
        push_stretch(out, *stretch)?;
    }
    Ok(())
}

/// Adds the lines of how a job stands.
#[tactic(auto, unfolding(crate::specs::Records::standing_lines))]
fn push_standing(alloc: Global, out: &mut Vec<u8>, summary: Summary) -> Result<(), AllocError>
    ensures { OnOk result (out.new.items ≡ out.old.items ++ standing_lines summary) }
{
    let words = summary.standing.to_string(alloc)?;
    push_line(out, "standing", words.as_bytes())?;
    push_line(out, "held", yes_or_no(summary.held).as_bytes())?;
    push_line(out, "collected", yes_or_no(summary.collected).as_bytes())
}

/// Adds the lines of how much a job has made.
#[tactic(auto, unfolding(crate::specs::Records::made_lines))]
fn push_made(out: &mut Vec<u8>, summary: Summary) -> Result<(), AllocError>
    ensures { OnOk result (out.new.items ≡ out.old.items ++ made_lines summary) }
{
    push_number(out, "cards", summary.cards as usize)?;
    push_number(out, "lines", summary.lines as usize)
}

/// Adds the lines of the pockets of a job's cards.
fn push_pockets(out: &mut Vec<u8>, cards: &[Punched]) -> Result<(), AllocError>
    ensures { OnOk result (out.new.items ≡ out.old.items ++ pocket_lines 1 cards.now) }
{
    for at in 0..cards.len() {
        push_pocket(out, at + 1, cards[at].pocket)?;
    }
    Ok(())
}

/// Adds the lines of the files of what was handed in and loaded.
#[tactic(auto, unfolding(crate::specs::Records::deck_digests))]
fn push_decks(
    alloc: Global,
    out: &mut Vec<u8>,
    deck: &[u8],
    loaded: &[u8],
) -> Result<(), AllocError>
    ensures { OnOk result (out.new.items ≡ out.old.items ++ deck_digests deck.now loaded.now) }
{
    push_file(alloc, out, "deck.text", deck)?;
    push_file(alloc, out, "loaded.text", loaded)
}

/// Adds the lines of the two files of the punched cards.
#[tactic(auto, unfolding(crate::specs::Records::card_digests))]
fn push_cards(
    alloc: Global,
    out: &mut Vec<u8>,
    punched: &[u8],
    cards: &[u8],
) -> Result<(), AllocError>
    ensures { OnOk result (out.new.items ≡ out.old.items ++ card_digests punched.now cards.now) }
{
    push_file(alloc, out, "cards.punch", punched)?;
    push_file(alloc, out, "cards.text", cards)
}

/// Adds the lines of a job's files.
#[tactic(auto, unfolding(crate::specs::Records::digest_lines))]
fn push_files(
    alloc: Global,
    out: &mut Vec<u8>,
    deck: &[u8],
    loaded: &[u8],
    lines: &[u8],
    punched: &[u8],
    cards: &[u8],
) -> Result<(), AllocError>
    ensures { OnOk result (out.new.items ≡ out.old.items
        ++ digest_lines deck.now loaded.now lines.now punched.now cards.now) }
{
    push_decks(alloc, out, deck, loaded)?;
    push_file(alloc, out, "lines.text", lines)?;
    push_cards(alloc, out, punched, cards)
}

/// The record of a job with these files.
#[tactic(auto, unfolding(crate::specs::Records::record_of))]
pub(crate) fn record_of(
    alloc: Global,
    run: &JobRun,
    deck: &[u8],
    loaded: &[u8],
    lines: &[u8],
    punched: &[u8],
    cards: &[u8],
) -> Result<Vec<u8>, AllocError>
    ensures { IfOk result (λ text. text.items
        ≡ record_of run.now deck.now loaded.now lines.now punched.now cards.now) }
{
    let summary = run.summary();
    let mut out = Vec::new(alloc);
    push_name(&mut out, run)?;
    push_machine(&mut out, run)?;
    push_stretches(&mut out, run.stretches())?;
    push_standing(alloc, &mut out, summary)?;
    push_made(&mut out, summary)?;
    push_pockets(&mut out, &run.machine().units.punch.cards)?;
    push_files(alloc, &mut out, deck, loaded, lines, punched, cards)?;
    Ok(out)
}
