//! The program: decks and sources as people have them, made ready for a bureau.
//!
//! What the arguments ask for is proved below (`workbench_arguments`), and so is what each
//! subcommand makes of the bytes that it is given (`card_texts`, `card_forms`, `card_tools`,
//! `source_reports`). Here it is joined to the process's arguments, files and streams. The clauses
//! of the kit do not mention these, so what is read and written where is tested by
//! `cases/check-workbench`.
#![tactic(auto)]

mod benching;
mod characters;
mod coding;
mod converting;
mod cutting;
mod decks;
mod drawing;
mod files;
mod filing;
mod filming;
mod folders;
mod intake;
mod listing;
mod manifests;
mod numbering;
mod process;
mod punching;
mod sources;
mod stops;
mod taking;
mod talking;
mod undone;

use crate::benching::{dump_deck, profile_deck, trace_deck};
use crate::coding::write_code;
use crate::converting::convert;
use crate::cutting::cut_deck;
use crate::drawing::{draw_card, draw_deck, draw_pages};
use crate::filing::write_page;
use crate::filming::write_film;
use crate::intake::take_in;
use crate::listing::{compare_decks, list_deck};
use crate::manifests::manifest;
use crate::numbering::{check_numbers, number_deck};
use crate::process::Process;
use crate::punching::punch_text;
use crate::sources::{Showing, show_source};
use crate::talking::talk;
use crate::undone::Undone;
use command_line::{Mistake, Status, Unfailing, exit_code, show_text, tell_mistake};
use std::io::Write;
use std::process::ExitCode;
use std::{env, io};
use workbench_arguments::{Task, task_of};

/// The arguments of the process. The first is the program's name.
fn arguments_given(rt: &HostRuntime) -> Result<Vec<String>, Mistake<'static>> {
    Ok(env::args(rt)?.collect(rt.alloc())?)
}

/// Does a task.
fn work<W: Write, E: Write>(
    process: &mut Process<W, E>,
    task: &Task<'_>,
) -> Result<Status, Undone> {
    match task {
        Task::Show(text) => Ok(show_text(text, &mut process.output, &mut process.errors)?),
        Task::Punch(punching) => punch_text(process, punching),
        Task::List(listing) => list_deck(process, *listing),
        Task::Compare { one, other } => compare_decks(process, one, other),
        Task::Number(numbering) => number_deck(process, *numbering),
        Task::CheckNumbers { deck } => check_numbers(process, deck),
        Task::Convert {
            deck,
            out,
            reads,
            writes,
        } => convert(process, (deck, *reads), (out, *writes)),
        Task::Cut(cutting) => cut_deck(process, *cutting),
        Task::Source {
            source,
            narrow,
            with_data,
        } => show_source(process, source, Showing::of(*narrow, *with_data)),
        Task::Manifest(wanted) => manifest(process, wanted),
        Task::Intake(intake) => take_in(process, intake),
        Task::Trace(tracing) => trace_deck(process, *tracing),
        Task::Dump(dumping) => dump_deck(process, *dumping),
        Task::Profile { setup, names } => profile_deck(process, *setup, *names),
        Task::Console { setup, names } => talk(process, *setup, *names),
        Task::Card { deck, number, out } => draw_card(process, (deck, out), *number),
        Task::Deck { deck, out, title } => draw_deck(process, (deck, out), *title),
        Task::Pages {
            listing,
            out,
            title,
        } => draw_pages(process, (listing, out), *title),
        Task::Page { setup, out, title } => write_page(process, *setup, out, *title),
        Task::Film(filming) => write_film(process, *filming),
        Task::Code(coding) => write_code(process, *coding),
    }
}

/// Does a task, and says if there was no memory for it.
fn work_or_tell<W: Write, E: Write>(
    process: &mut Process<W, E>,
    task: &Task<'_>,
) -> io::Result<Status> {
    match work(process, task) {
        Ok(status) => Ok(status),
        Err(Undone::Told(status)) => Ok(status),
        Err(Undone::Memory) => {
            process
                .errors
                .write_all(b"there is not enough memory: end other programs\n")?;
            Ok(Status::NotDone)
        }
    }
}

/// Does what the process's arguments ask for.
fn carry_out(rt: HostRuntime) -> io::Result<Status> {
    let mut process = Process {
        output: rt.stdout(),
        errors: Unfailing::new(rt.stderr()),
        rt,
    };
    let arguments = match arguments_given(&process.rt) {
        Ok(arguments) => arguments,
        Err(mistake) => return tell_mistake(&mut process.errors, "workbench", mistake),
    };
    let arguments = arguments.as_slice();
    let after_name = if arguments.is_empty() {
        arguments
    } else {
        &arguments[1..]
    };
    match task_of(process.alloc(), after_name) {
        Ok(task) => work_or_tell(&mut process, &task),
        Err(mistake) => tell_mistake(&mut process.errors, "workbench", mistake),
    }
}

fn main(rt: HostRuntime) -> ExitCode {
    exit_code(carry_out(rt))
}
