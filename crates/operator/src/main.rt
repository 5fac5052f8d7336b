//! The program `operator`: what the operator of a bureau does, beside the bureau's own program.
//!
//! What a check finds is said exactly by `job_checks`, and the requests of the work on a queue by
//! `queue_rounds`. Here they are joined to the process's arguments, files and sockets. The clauses
//! of the kit do not mention these, so what is read and sent where is tested by
//! `cases/check-operator` and `cases/check-work`.
#![tactic(auto)]

ghost use Rattle.std.specs.Prelude.{◌≡◌, false, IsTrue};

mod archiving;
mod bag_files;
mod checking;
mod class_pages;
mod classes;
mod clients;
mod copy_faults;
mod copying;
mod faults;
mod help;
mod job_folders;
mod job_walks;
mod joining;
mod listing;
mod page_files;
mod parting;
mod readme;
mod restoring;
mod shelves;
mod subcommands;
mod tallies;
mod tasks;
mod values;
mod verifying;
mod watching;
mod working;

use crate::archiving::archive_file;
use crate::checking::check_file;
use crate::copy_faults::Made;
use crate::copying::copy_file;
use crate::faults::done_or_told;
use crate::joining::join_files;
use crate::listing::show_jobs;
use crate::parting::part_file;
use crate::restoring::restore_shelf;
use crate::tasks::{Task, task_of};
use crate::verifying::verify_shelf;
use crate::watching::watch_queue;
use crate::working::run_queue;
use command_line::{Mistake, Status, Unfailing, exit_code, show_text, tell_mistake};
use job_archives::Customers;
use std::io::Write;
use std::process::ExitCode;
use std::{env, io};

/// The arguments of the process. The first is the program's name.
fn arguments_given(rt: &HostRuntime) -> Result<Vec<String>, Mistake> {
    Ok(env::args(rt)?.collect(rt.alloc())?)
}

/// The customers of these names, or all others.
fn chosen<'a>(names: &'a [&'a str], others: bool) -> Customers<'a>
    ensures others { IsTrue others → result ≡ Customers.Others names.entry }
    ensures named { others ≡ false → result ≡ Customers.Named names.entry }
{
    if others {
        Customers::Others(names)
    } else {
        Customers::Named(names)
    }
}

/// Does a task.
fn carry_out<W: Write, E: Write>(
    rt: &HostRuntime,
    task: Task<'_>,
    output: &mut W,
    errors: &mut E,
) -> io::Result<Status> {
    match task {
        Task::Show(text) => show_text(text, output, errors),
        Task::Check { file } => check_file(rt, file, output, errors),
        Task::Jobs { file, customer } => show_jobs(rt, file, customer, output, errors),
        Task::Copy { file, new } => copy_file(rt, file, new, output, errors),
        Task::Part {
            file,
            new,
            customers,
            others,
        } => part_file(rt, file, new, chosen(&customers, others), output, errors),
        Task::Join { first, second, new } => {
            let made = Made {
                file: first,
                second,
                new,
            };
            join_files(rt, made, output, errors)
        }
        Task::Archive {
            file,
            folder,
            pages,
        } => archive_file(rt, file, folder, pages, output, errors),
        Task::Verify { folder } => verify_shelf(rt, folder, output, errors),
        Task::Restore { folder, new } => restore_shelf(rt, folder, new, output, errors),
        Task::Work { port, rounds } => run_queue(rt, port, rounds, output, errors),
        Task::Watch(watching) => watch_queue(rt, watching, output, errors),
        Task::Class(class) => class.carry_out(rt, output, errors),
    }
}

/// Does what the process's arguments ask for. A task that failed is told: its output could not be
/// written, or there was no memory.
fn answer(rt: &HostRuntime) -> io::Result<Status> {
    let mut output = rt.stdout();
    let mut errors = Unfailing::new(rt.stderr());
    let arguments = match arguments_given(rt) {
        Ok(arguments) => arguments,
        Err(mistake) => return tell_mistake(&mut errors, "operator", mistake),
    };
    let arguments = arguments.as_slice();
    let after_name = if arguments.is_empty() {
        arguments
    } else {
        &arguments[1..]
    };
    match task_of(rt.alloc(), after_name) {
        Ok(task) => {
            let done = carry_out(rt, task, &mut output, &mut errors);
            done_or_told(done, "operator", &mut errors)
        }
        Err(mistake) => tell_mistake(&mut errors, "operator", mistake),
    }
}

fn main(rt: HostRuntime) -> ExitCode {
    exit_code(answer(&rt))
}
