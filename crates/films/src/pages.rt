//! The page of a film.

ghost use Rattle.std.specs.Prelude.{◌≡◌, ◌++◌, IfOk, OnOk};
ghost use Rattle.run_traces.specs.Causes.{cause_shown};
ghost use Rattle.machine.specs.Standings.{standing_words};
ghost use Rattle.films.specs.Pages.{end_fact, film_head, film_part, machine_fact, page_header, page_of, run_fact, steps_fact};

use crate::bodies::FILM_BODY;
use crate::films::Film;
use crate::scripts::FILM_SCRIPT;
use crate::styles::FILM_STYLE;
use check_causes::Cause;
use core_store::Size;
use machine::StandingAt;
use pictures::{
    CARD_STYLE, push_escaped, push_page_head, push_page_heading, push_stock_definition,
};
use std::alloc::{AllocError, Global};
use texts::{push_decimal, push_number_between, push_switches};
use units::Switches;

/// What a page is about: its title, the name of the deck that was run, and the machine.
#[derive(Clone, Copy)]
pub struct Subject<'a> {
    /// The title of the page.
    pub title: &'a [u8],
    /// The name of the deck.
    pub deck: &'a [u8],
    /// The size of the machine's storage.
    pub size: Size,
    /// The sense switches that are on.
    pub switches: Switches,
}

/// What stands behind the style of a page.
const NO_SCRIPT: &[u8] = b"</style><noscript><style>#film{display:block!important}\
    #keys,main{display:none}</style></noscript>\n";

/// Adds the head of the page.
fn push_head(out: &mut Vec<u8>, title: &[u8]) -> Result<(), AllocError>
    ensures { OnOk result (out.new.items ≡ out.old.items ++ film_head title.now) }
{
    push_page_head(out, title)?;
    out.extend_from_slice(b"<style>")?;
    out.extend_from_slice(FILM_STYLE)?;
    out.extend_from_slice(CARD_STYLE)?;
    out.extend_from_slice(NO_SCRIPT)
}

/// Adds what was run.
fn push_machine(out: &mut Vec<u8>, subject: &Subject<'_>) -> Result<(), AllocError>
    ensures { OnOk result (out.new.items ≡ out.old.items
        ++ machine_fact subject.now.deck.now subject.now.size subject.now.switches) }
{
    push_escaped(out, subject.deck)?;
    let positions = subject.size.positions() as usize;
    push_number_between(out, b", storage ", positions, b", switches ")?;
    push_switches(out, subject.switches)
}

/// Adds which instructions of a run a film has.
fn push_steps(out: &mut Vec<u8>, made: u32, steps: u32) -> Result<(), AllocError>
    ensures { OnOk result (out.new.items ≡ out.old.items ++ steps_fact made steps) }
{
    if steps == 0 {
        return out.extend_from_slice(b". No instruction of ");
    }
    push_number_between(out, b". Instructions ", made as usize + 1, b" to ")?;
    push_decimal(out, made as usize + steps as usize)?;
    out.extend_from_slice(b" of ")
}

/// Adds how many instructions the run has, and how it ended.
fn push_run(alloc: Global, out: &mut Vec<u8>, film: &Film) -> Result<(), AllocError>
    ensures { OnOk result (out.new.items ≡ out.old.items ++ run_fact film.now) }
{
    push_decimal(out, film.instructions as usize)?;
    out.extend_from_slice(b"; the run: ")?;
    let words = film.report.to_string(alloc)?;
    out.extend_from_slice(words.as_bytes())
}

/// The words for a standing, and for the cause if there is one.
fn end_words(
    alloc: Global,
    standing: StandingAt,
    cause: Option<Cause>,
) -> Result<Vec<u8>, AllocError>
    ensures { IfOk result (λ words. words.items ≡ standing_words standing ++ cause_shown cause) }
{
    let Some(cause) = cause else {
        let words = standing.to_string(alloc)?;
        return Ok(words.into_bytes());
    };
    let words = format!(in alloc; "{standing}: {cause}")?;
    Ok(words.into_bytes())
}

/// Adds how the film ends.
fn push_end(alloc: Global, out: &mut Vec<u8>, film: &Film) -> Result<(), AllocError>
    ensures { OnOk result (out.new.items ≡ out.old.items ++ end_fact film.now) }
{
    let words = end_words(alloc, film.standing, film.cause)?;
    push_escaped(out, &words)
}

/// Adds the header of the page.
fn push_header(
    alloc: Global,
    out: &mut Vec<u8>,
    subject: &Subject<'_>,
    film: &Film,
) -> Result<(), AllocError>
    ensures { OnOk result (out.new.items ≡ out.old.items ++ page_header subject.now film.now) }
{
    out.extend_from_slice(b"<header>")?;
    push_page_heading(out, subject.title)?;
    out.extend_from_slice(b"<p>")?;
    push_machine(out, subject)?;
    push_steps(out, film.made, film.steps)?;
    push_run(alloc, out, film)?;
    out.extend_from_slice(b"</p><p id=ended hidden>")?;
    push_end(alloc, out, film)?;
    out.extend_from_slice(b"</p></header>\n")
}

/// Adds the text of the film and the script.
fn push_film(out: &mut Vec<u8>, text: &[u8]) -> Result<(), AllocError>
    ensures { OnOk result (out.new.items ≡ out.old.items ++ film_part text.now) }
{
    out.extend_from_slice(b"<pre id=film hidden>\n")?;
    out.extend_from_slice(text)?;
    out.extend_from_slice(b"</pre>\n<script>\n")?;
    out.extend_from_slice(FILM_SCRIPT)?;
    out.extend_from_slice(b"</script></html>\n")
}

/// Returns the page of a film, an HTML file that stands alone: the text of the film, and a script
/// that shows it step by step. Fails only if there is no memory.
pub fn film_page(alloc: Global, subject: &Subject<'_>, film: &Film) -> Result<Vec<u8>, AllocError>
    ensures { IfOk result (λ page. page.items ≡ page_of subject.now film.now) }
{
    let mut out = Vec::new(alloc);
    push_head(&mut out, subject.title)?;
    push_header(alloc, &mut out, subject, film)?;
    out.extend_from_slice(FILM_BODY)?;
    push_stock_definition(&mut out)?;
    push_film(&mut out, &film.text)?;
    Ok(out)
}
