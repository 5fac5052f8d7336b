//! The subcommand `film`.

ghost use Rattle.std.specs.Prelude.{◌<◌, length};

use crate::drawing::title_or_name;
use crate::filing::name_of;
use crate::process::Process;
use crate::undone::Undone;
use cards::Deck;
use command_line::Status;
use films::{Film, FilmError, FilmOptions, Subject, film_page, instructions_of};
use std::alloc::{AllocError, Global};
use std::io::Write;
use workbench_arguments::{Filming, Setup};

/// Which instructions of a deck's run a film has.
fn options_of(alloc: Global, deck: &Deck, filming: Filming<'_>) -> Result<FilmOptions, AllocError>
    requires { 0 < length deck.now }
{
    let Filming { setup, count, .. } = filming;
    let mut from = filming.from;
    if let Some(last) = filming.last {
        let all = instructions_of(alloc, deck, setup.size, setup.switches)?;
        from = all.saturating_sub(last).saturating_add(1);
    }
    Ok(FilmOptions { from, count })
}

/// Writes the film of a deck's run.
pub(crate) fn write_film<W: Write, E: Write>(
    process: &mut Process<W, E>,
    filming: Filming<'_>,
) -> Result<Status, Undone> {
    let names = process.names_at(filming.names)?;
    let names = names.as_ref();
    let Setup {
        input,
        size,
        switches,
    } = filming.setup;
    let deck = process.deck_to_run(input)?;
    let alloc = process.alloc();
    let options = options_of(alloc, &deck, filming)?;
    let film = match Film::of(alloc, &deck, size, switches, names, options) {
        Ok(film) => film,
        Err(FilmError::NoMemory) => return Err(Undone::Memory),
        Err(FilmError::TooLong { steps }) => {
            writeln!(
                process.errors,
                "{input}: these instructions change over 4,000,000 bytes; --count {steps} is the most"
            )?;
            return Ok(Status::NotDone);
        }
    };
    let source: &[_] = match names {
        Some(names) => names.cards(),
        None => &[],
    };
    let title = name_of(alloc, filming.title, source, input)?;
    let subject = Subject {
        title: &title,
        deck: title_or_name(None, input).as_bytes(),
        size,
        switches,
    };
    let page = film_page(alloc, &subject, &film)?;
    process.write(filming.out, &page)
}
