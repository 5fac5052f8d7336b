//! The subcommand `page`.

use crate::drawing::title_or_name;
use crate::process::Process;
use crate::undone::Undone;
use autocoder_layout::source_of;
use autocoder_listings::Width;
use cards::{Card, Deck};
use command_line::Status;
use job_pages::{JobPageError, Subject, heading_of, job_page};
use source_reports::Report;
use std::alloc::{AllocError, Global};
use std::io::Write;
use workbench_arguments::{Setup, VERSION};

/// Prints the faults of a source, as the subcommand `source` does.
fn show_faults<W: Write, E: Write>(
    process: &mut Process<W, E>,
    deck: &Deck,
) -> Result<Status, Undone> {
    let report = Report::of(process.alloc(), deck, Width::Wide)?;
    process.print(&report.text, Status::NotDone)
}

/// What a page is called: its title if one is given, else what the JOB card of a source says, if
/// that is something, else the name of a file.
pub(crate) fn name_of(
    alloc: Global,
    title: Option<&str>,
    source: &[Card],
    path: &str,
) -> Result<Vec<u8>, AllocError> {
    if title.is_none()
        && let Some(heading) = heading_of(alloc, source)?
        && !heading.is_empty()
    {
        return Ok(heading);
    }
    title_or_name(title, path).as_bytes().to_vec(alloc)
}

/// Writes the page of a job: of a source that is assembled and run.
pub(crate) fn write_page<W: Write, E: Write>(
    process: &mut Process<W, E>,
    setup: Setup<'_>,
    out: &str,
    title: Option<&str>,
) -> Result<Status, Undone> {
    let path = setup.input;
    let deck = process.deck_at(path)?;
    let name = name_of(process.alloc(), title, source_of(deck.cards()), path)?;
    let subject = Subject {
        name: &name,
        source: &deck,
        size: setup.size,
        switches: setup.switches,
        version: VERSION.as_bytes(),
    };
    match job_page(process.alloc(), &subject) {
        Ok(page) => process.write(out, &page),
        Err(JobPageError::NoMemory) => Err(Undone::Memory),
        Err(JobPageError::Faults) => show_faults(process, &deck),
        Err(JobPageError::TooManyCards) => Err(process.refuse(
            path,
            "the cards that load it and its data are more than 2,000",
        )?),
    }
}
