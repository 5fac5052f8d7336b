//! The lines of a report.

ghost use Rattle.std.specs.{
  Prelude.{◌≡◌, ◌+◌, ◌*◌, ◌++◌, codes, decimal, flat_map, IfOk, OnOk},
  Fmt.{signed_decimal},
};
ghost use Rattle.machine.specs.Standings.{standing_words};
ghost use Rattle.office.specs.Numbers.{refusal_number};
ghost use Rattle.job_checks.specs.Texts.{apart_words, byte_words, bytes_words, card_column, difference_words, found_words, job_line, number_words, outcome_words, place_of_byte, place_words, report_text, schema_line, schema_lines, schema_name, schema_words, orphan_line, sum_line, summary_words, table_words, value_words};

use crate::differences::{Difference, Found, Place};
use crate::reports::{JobReport, Orphan, Outcome, Report, Table};
use crate::schemas::SchemaDifference;
use bcd::Code;
use cards::COLUMNS;
use core_store::PAGE_SIZE;
use itoa::Buffer;
use machine::StandingAt;
use office::{Refusal, Summary};
use std::alloc::{AllocError, Global};
use texts::{Made, push_decimal, push_made};

/// Adds a number with its sign.
fn push_signed(out: &mut Vec<u8>, number: i64) -> Result<(), AllocError>
    ensures { OnOk result (out.new.items ≡ out.old.items ++ signed_decimal number) }
{
    let mut buffer = Buffer::new();
    out.extend_from_slice(buffer.format(number).as_bytes())
}

/// Adds words and a number after them.
fn push_numbered(out: &mut Vec<u8>, words: &str, number: usize) -> Result<(), AllocError>
    ensures { OnOk result (out.new.items ≡ out.old.items ++ words.now ++ decimal number) }
{
    out.extend_from_slice(words.as_bytes())?;
    push_decimal(out, number)
}

/// Adds the name of a row of a job.
fn push_place(out: &mut Vec<u8>, place: Place) -> Result<(), AllocError>
    ensures { OnOk result (out.new.items ≡ out.old.items ++ place_words place) }
{
    match place {
        Place::Job => out.extend_from_slice(b"row in jobs"),
        Place::Stretch(at) => push_numbered(out, "stretch ", at),
        Place::State => out.extend_from_slice(b"state"),
        Place::Page(page) => push_numbered(out, "page ", page as usize),
        Place::Card(at) => push_numbered(out, "card ", at as usize),
        Place::Pocket(at) => push_numbered(out, "pocket of card ", at as usize),
        Place::Line(at) => push_numbered(out, "line ", at as usize),
        Place::Profile => out.extend_from_slice(b"profile"),
    }
}

/// Adds a byte of a card, a line or a page.
fn push_byte(out: &mut Vec<u8>, byte: u8) -> Result<(), AllocError>
    ensures { OnOk result (out.new.items ≡ out.old.items ++ byte_words byte) }
{
    match Code::from_number(byte) {
        Some(code) => out.extend_from_slice(&[code.glyph()]),
        None => push_decimal(out, byte as usize),
    }
}

/// Adds words and a name after them.
fn push_named(out: &mut Vec<u8>, words: &str, name: &str) -> Result<(), AllocError>
    ensures { OnOk result (out.new.items ≡ out.old.items ++ words.now ++ name.now) }
{
    out.extend_from_slice(words.as_bytes())?;
    out.extend_from_slice(name.as_bytes())
}

/// Adds two numbers that differ.
fn push_apart(out: &mut Vec<u8>, found: i64, wanted: i64) -> Result<(), AllocError>
    ensures { OnOk result (out.new.items ≡ out.old.items ++ apart_words found wanted) }
{
    out.extend_from_slice(b" ")?;
    push_signed(out, found)?;
    out.extend_from_slice(b" and not ")?;
    push_signed(out, wanted)
}

/// Adds a number that differs.
fn push_number_apart(
    out: &mut Vec<u8>,
    name: &str,
    found: i64,
    wanted: i64,
) -> Result<(), AllocError>
    ensures { OnOk result (out.new.items ≡ out.old.items
        ++ number_words name.now found wanted) }
{
    push_named(out, " differs: ", name)?;
    push_apart(out, found, wanted)
}

/// Adds the card and the column of a byte of a deck, and the deck's name.
fn push_card_column(out: &mut Vec<u8>, name: &str, at: u32) -> Result<(), AllocError>
    ensures { OnOk result (out.new.items ≡ out.old.items ++ card_column name.now at) }
{
    let at = at as usize;
    push_numbered(out, "card ", at / COLUMNS + 1)?;
    push_numbered(out, " column ", at % COLUMNS + 1)?;
    push_named(out, " of ", name)
}

/// Adds the position in storage of a byte of a page.
fn push_position(out: &mut Vec<u8>, page: u32, at: u32) -> Result<(), AllocError>
    ensures { OnOk result (out.new.items ≡ out.old.items ++ codes "position "
        ++ decimal (page * 100 + at)) }
{
    let first = page as usize * PAGE_SIZE as usize;
    push_numbered(out, "position ", first + at as usize)
}

/// Adds where a byte of a row is, by its place in the column of this name.
fn push_place_of_byte(
    out: &mut Vec<u8>,
    place: Place,
    name: &str,
    at: u32,
) -> Result<(), AllocError>
    ensures { OnOk result (out.new.items ≡ out.old.items ++ place_of_byte place name.now at) }
{
    match place {
        Place::Job => push_card_column(out, name, at),
        Place::Page(page) => push_position(out, page, at),
        _ => push_numbered(out, "column ", at as usize + 1),
    }
}

/// Adds a byte that differs from the one that is wanted.
fn push_bytes(out: &mut Vec<u8>, found: u8, wanted: u8) -> Result<(), AllocError>
    ensures { OnOk result (out.new.items ≡ out.old.items ++ bytes_words found wanted) }
{
    push_byte(out, found)?;
    out.extend_from_slice(b" and not ")?;
    push_byte(out, wanted)
}

/// Adds where a byte differs.
fn push_differing(out: &mut Vec<u8>, place: Place, name: &str, at: u32) -> Result<(), AllocError>
    ensures { OnOk result (out.new.items ≡ out.old.items ++ codes " differs, "
        ++ place_of_byte place name.now at ++ codes ": ") }
{
    out.extend_from_slice(b" differs, ")?;
    push_place_of_byte(out, place, name, at)?;
    out.extend_from_slice(b": ")
}

/// Adds what was found at a place.
fn push_found(out: &mut Vec<u8>, place: Place, found: Found) -> Result<(), AllocError>
    ensures { OnOk result (out.new.items ≡ out.old.items ++ found_words place found) }
{
    match found {
        Found::Nothing => out.extend_from_slice(b" is missing"),
        Found::OneTooMany => out.extend_from_slice(b" is one too many"),
        Found::Number {
            name,
            found,
            wanted,
        } => push_number_apart(out, name, found, wanted),
        Found::Byte {
            name,
            at,
            found,
            wanted,
        } => {
            push_differing(out, place, name, at)?;
            push_bytes(out, found, wanted)
        }
        Found::Value { name } => push_named(out, " differs: ", name),
    }
}

/// Adds why a deck is refused.
fn push_refused(out: &mut Vec<u8>, reason: &Refusal) -> Result<(), AllocError>
    ensures { OnOk result (out.new.items ≡ out.old.items
        ++ codes "the deck is refused by " ++ decimal (refusal_number reason.now)) }
{
    out.extend_from_slice(b"the deck is refused by ")?;
    push_decimal(out, reason.number() as usize)
}

/// Adds where a job was at no halt.
fn push_no_halt(out: &mut Vec<u8>, at: usize) -> Result<(), AllocError>
    ensures { OnOk result (out.new.items ≡ out.old.items
        ++ codes "not at a halt before stretch " ++ decimal at) }
{
    out.extend_from_slice(b"not at a halt before stretch ")?;
    push_decimal(out, at)
}

/// Adds a difference of a job.
fn push_difference(out: &mut Vec<u8>, difference: &Difference) -> Result<(), AllocError>
    ensures { OnOk result (out.new.items ≡ out.old.items ++ difference_words difference.now) }
{
    match difference {
        Difference::NoJob { name } => push_named(out, "jobs: no ", name),
        Difference::Refused(reason) => push_refused(out, reason),
        Difference::NoStretch(at) => {
            push_numbered(out, "stretch ", *at)?;
            out.extend_from_slice(b" is none")
        }
        Difference::NoStretches => out.extend_from_slice(b"the stretches are none of a job"),
        Difference::NotAtHalt(at) => push_no_halt(out, *at),
        Difference::NoProfile => out.extend_from_slice(b"the profile is none"),
        Difference::Row(place, found) => {
            push_place(out, *place)?;
            push_found(out, *place, *found)
        }
    }
}

/// Adds the words of a standing.
fn push_standing(out: &mut Vec<u8>, standing: StandingAt) -> Result<(), AllocError>
    ensures { OnOk result (out.new.items ≡ out.old.items ++ standing_words standing) }
{
    match standing {
        StandingAt::Running => out.extend_from_slice(b"running"),
        StandingAt::Halted { next } => push_numbered(out, "halted next ", next as usize),
        StandingAt::Checked { check, at } => {
            out.extend_from_slice(b"check ")?;
            out.extend_from_slice(check.name().as_bytes())?;
            push_numbered(out, " at ", at as usize)
        }
    }
}

/// Adds how a job stands, what it was granted and has made, and its flags. Fails if there is no
/// memory.
#[tactic(auto, unfolding(crate::specs::Texts::summary_words))]
pub fn push_summary(out: &mut Vec<u8>, summary: Summary) -> Result<(), AllocError>
    ensures { OnOk result (out.new.items ≡ out.old.items ++ summary_words summary) }
{
    push_standing(out, summary.standing)?;
    push_made(
        out,
        Made {
            granted: summary.granted,
            cards: summary.cards,
            lines: summary.lines,
            held: summary.held,
            collected: summary.collected,
        },
    )
}

/// Adds a job that is as it ran.
fn push_as_it_ran(out: &mut Vec<u8>, summary: &Summary) -> Result<(), AllocError>
    ensures { OnOk result (out.new.items ≡ out.old.items ++ codes " " ++ summary_words summary.now
        ++ codes ": as it ran\n") }
{
    out.extend_from_slice(b" ")?;
    push_summary(out, *summary)?;
    out.extend_from_slice(b": as it ran\n")
}

/// Adds what came of a job.
fn push_outcome(out: &mut Vec<u8>, outcome: &Outcome) -> Result<(), AllocError>
    ensures { OnOk result (out.new.items ≡ out.old.items ++ outcome_words outcome.now) }
{
    match outcome {
        Outcome::AsItRan(summary) => push_as_it_ran(out, summary),
        Outcome::Differs(difference) => {
            out.extend_from_slice(b": ")?;
            push_difference(out, difference)?;
            out.extend_from_slice(b"\n")
        }
    }
}

/// Adds the line of a job.
fn push_job(out: &mut Vec<u8>, job: &JobReport) -> Result<(), AllocError>
    ensures { OnOk result (out.new.items ≡ out.old.items ++ job_line job.now) }
{
    out.extend_from_slice(&job.customer)?;
    out.extend_from_slice(b" ")?;
    push_signed(out, job.number)?;
    push_outcome(out, &job.outcome)
}

/// Adds the lines of jobs.
fn push_jobs(out: &mut Vec<u8>, jobs: &[JobReport]) -> Result<(), AllocError>
    ensures { OnOk result (out.new.items ≡ out.old.items ++ flat_map job_line jobs.now) }
{
    for job in jobs {
        push_job(out, job)?;
    }
    Ok(())
}

/// Adds which row is out of place.
fn push_row(out: &mut Vec<u8>, row: usize) -> Result<(), AllocError>
    ensures { OnOk result (out.new.items ≡ out.old.items ++ codes ": row " ++ decimal row
        ++ codes " is out of place\n") }
{
    out.extend_from_slice(b": row ")?;
    push_decimal(out, row)?;
    out.extend_from_slice(b" is out of place\n")
}

/// Adds the line of an orphan row.
fn push_orphan(out: &mut Vec<u8>, orphan: &Orphan) -> Result<(), AllocError>
    ensures { OnOk result (out.new.items ≡ out.old.items ++ orphan_line orphan.now) }
{
    out.extend_from_slice(orphan.table.name().as_bytes())?;
    push_row(out, orphan.row)
}

/// Adds the lines of orphan rows.
fn push_orphans(out: &mut Vec<u8>, orphans: &[Orphan]) -> Result<(), AllocError>
    ensures { OnOk result (out.new.items ≡ out.old.items ++ flat_map orphan_line orphans.now) }
{
    for orphan in orphans {
        push_orphan(out, orphan)?;
    }
    Ok(())
}

/// What is told of a schema that is not a bureau's, before the name.
fn schema_words(difference: &SchemaDifference) -> &'static str
    ensures { result.now ≡ schema_words difference.now }
{
    match difference {
        SchemaDifference::Table(_) => "the file has a table that a bureau's has not: ",
        SchemaDifference::Index(_) => "the file has an index that a bureau's has not: ",
        SchemaDifference::View(_) => "the file has a view or the like that a bureau's has not: ",
        SchemaDifference::Lacks(_) => "the file lacks what a bureau's has: ",
    }
}

/// The name that is told of a schema that is not a bureau's.
fn schema_name(difference: &SchemaDifference) -> &[u8]
    ensures { result.now ≡ schema_name difference.now }
{
    match difference {
        SchemaDifference::Table(name) => name.as_slice(),
        SchemaDifference::Index(name) => name.as_slice(),
        SchemaDifference::View(name) => name.as_slice(),
        SchemaDifference::Lacks(name) => name.as_slice(),
    }
}

/// Adds the line of a schema that is not a bureau's.
fn push_schema(out: &mut Vec<u8>, difference: &SchemaDifference) -> Result<(), AllocError>
    ensures { OnOk result (out.new.items ≡ out.old.items ++ schema_line difference.now) }
{
    out.extend_from_slice(schema_words(difference).as_bytes())?;
    out.extend_from_slice(schema_name(difference))?;
    out.extend_from_slice(b"\n")
}

/// Adds the line of the schema, if it is not a bureau's.
fn push_schema_lines(out: &mut Vec<u8>, schema: &Option<SchemaDifference>) -> Result<(), AllocError>
    ensures { OnOk result (out.new.items ≡ out.old.items ++ schema_lines schema.now) }
{
    match schema {
        Some(difference) => push_schema(out, difference),
        None => Ok(()),
    }
}

/// Adds the last line.
fn push_sum(out: &mut Vec<u8>, jobs: usize, differing: usize) -> Result<(), AllocError>
    ensures { OnOk result (out.new.items ≡ out.old.items ++ sum_line jobs differing) }
{
    push_numbered(out, "jobs ", jobs)?;
    push_numbered(out, ", ", differing)?;
    if differing == 1 {
        return out.extend_from_slice(b" differs\n");
    }
    out.extend_from_slice(b" differ\n")
}

/// The line of a job in a report. Fails only if there is no memory.
pub fn job_text(alloc: Global, job: &JobReport) -> Result<Vec<u8>, AllocError>
    ensures { IfOk result (λ text. text.items ≡ job_line job.now) }
{
    let mut out = Vec::new(alloc);
    push_job(&mut out, job)?;
    Ok(out)
}

/// The lines of orphan rows in a report. Fails only if there is no memory.
pub fn orphans_text(alloc: Global, orphans: &[Orphan]) -> Result<Vec<u8>, AllocError>
    ensures { IfOk result (λ text. text.items ≡ flat_map orphan_line orphans.now) }
{
    let mut out = Vec::new(alloc);
    push_orphans(&mut out, orphans)?;
    Ok(out)
}

/// The lines of a report: one for each job, one for the first orphan row of each table, one for a
/// schema that is not a bureau's, and a last one with the number of jobs. Fails only if there is no
/// memory.
pub fn report_text(alloc: Global, report: &Report) -> Result<Vec<u8>, AllocError>
    ensures { IfOk result (λ text. text.items ≡ report_text report.now) }
{
    let mut out = Vec::new(alloc);
    push_jobs(&mut out, &report.jobs)?;
    push_orphans(&mut out, &report.orphans)?;
    push_schema_lines(&mut out, &report.schema)?;
    push_sum(&mut out, report.jobs.len(), report.differing())?;
    Ok(out)
}
