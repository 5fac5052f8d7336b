//! The subcommand `console`.

use crate::process::Process;
use crate::undone::Undone;
use command_line::Status;
use console::{Ended, Session, console};
use std::io;
use std::io::{BufReader, Write};
use workbench_arguments::Setup;

/// Says that an input would be the standard input, which has the lines.
fn tell_taken<E: Write>(errors: &mut E) -> io::Result<Status> {
    errors.write_all(
        b"the standard input has the lines of a console: DECK and SOURCE are files, not -\n",
    )?;
    Ok(Status::Misused)
}

/// What is said of a line that is too long.
const TOO_LONG: &[u8] =
    b"the standard input has a line of more than 4095 bytes; help lists the lines that there are\n";

/// The status after a session. Where it did not go to its end, that is told.
fn status_of<E: Write>(ended: Ended, errors: &mut E) -> Result<Status, Undone> {
    match ended {
        Ended::AtEnd | Ended::Asked => return Ok(Status::Done),
        Ended::NoMemory => return Err(Undone::Memory),
        Ended::TooLong => errors.write_all(TOO_LONG)?,
        Ended::ReadFailed => errors.write_all(b"the standard input cannot be read\n")?,
        Ended::WriteFailed => errors.write_all(b"the standard output cannot be written\n")?,
    }
    Ok(Status::NotDone)
}

/// Whether a path is the standard input.
fn is_input(path: Option<&str>) -> bool {
    match path {
        Some(path) => path == "-",
        None => false,
    }
}

/// Goes through a run step by step, as the lines of the standard input say.
pub(crate) fn talk<W: Write, E: Write>(
    process: &mut Process<W, E>,
    setup: Setup<'_>,
    names: Option<&str>,
) -> Result<Status, Undone> {
    if is_input(Some(setup.input)) || is_input(names) {
        return Ok(tell_taken(&mut process.errors)?);
    }
    let deck = process.deck_to_run(setup.input)?;
    let names = process.names_at(names)?;
    let mut session = Session::begin(process.alloc(), deck, setup.size, setup.switches, names)?;
    // Reading ahead: the standard input by itself is asked for each byte.
    let mut lines = BufReader::new(process.alloc(), process.rt.stdin())?;
    let ended = console(
        process.alloc(),
        &mut session,
        &mut lines,
        &mut process.output,
    );
    status_of(ended, &mut process.errors)
}
