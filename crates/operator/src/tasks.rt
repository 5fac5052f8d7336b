//! The task that the arguments ask for.

ghost use Rattle.std.specs.Prelude.{IfOk};
ghost use Rattle.command_line.specs.{Arguments.{given}, Plain.{texts}, Programs.{AsksFor, wish_as}};
ghost use Rattle.operator.specs.{
  Subcommands.{operator},
  Tasks.{AreRounds, IsPortIn, Wants, WantsArchive, WantsCheck, WantsClass, WantsCopy, WantsJobs, WantsJoin, WantsPart, WantsRestore, WantsTask, WantsVerify, WantsWatch, WantsWork},
};

use crate::help::{VERSION, page};
use crate::subcommands::{OPERATOR, Subcommand};
use crate::values::{up_to_if, up_to_or};
use command_line::{Asked, Found, Mistake, asked_by};
use std::alloc::Global;
use texts::number_up_to;

/// The rounds in which a queue is run.
#[derive(Clone, Copy)]
pub struct Rounds {
    /// How many instructions a slice has, 1 to 2,000.
    pub slice: u32,
    /// After how many rounds the work ends; without a number when the queue is empty.
    pub most: Option<u32>,
    /// For how many seconds to wait before a request that failed is made again, 1 to 3,600.
    pub pause: u32,
    /// Whether the work goes on when there is nothing to run.
    pub keeps: bool,
}

/// How a queue is watched.
#[derive(Clone, Copy)]
pub struct Watching {
    /// The bureau's port on 127.0.0.1.
    pub port: u16,
    /// How often the queue is asked for; without a number on and on.
    pub rounds: Option<u32>,
    /// For how many seconds to wait before it is asked for again, 1 to 3,600.
    pub pause: u32,
}

/// How the jobs of a class are shown.
#[derive(Clone, Copy)]
pub struct Class<'a> {
    /// The bureau's port on 127.0.0.1.
    pub port: u16,
    /// The path of the list of customers.
    pub names: &'a str,
    /// The path of the page that is written; without one the table is printed.
    pub page: Option<&'a str>,
    /// Whether they are shown again and again.
    pub watches: bool,
    /// For how many seconds to wait before they are shown again, 1 to 3,600.
    pub pause: u32,
}

/// What the arguments ask for.
#[derive(Drop)]
pub enum Task<'a> {
    /// Print a text: a page of the help, or the version.
    Show(&'static str),
    /// Run each job of a bureau's file again, and compare.
    Check {
        /// The path of the file.
        file: &'a str,
    },
    /// List the jobs of a bureau's file.
    Jobs {
        /// The path of the file.
        file: &'a str,
        /// The customer whose jobs are listed; without one those of all.
        customer: Option<&'a str>,
    },
    /// Write a whole copy of a bureau's file, and compare it.
    Copy {
        /// The path of the file.
        file: &'a str,
        /// The path of the copy.
        new: &'a str,
    },
    /// Write a new bureau's file, with the jobs that some customers have in a bureau's file.
    Part {
        /// The path of the file.
        file: &'a str,
        /// The path of the new file.
        new: &'a str,
        /// The names of customers.
        customers: Vec<&'a str>,
        /// Whether it gets the jobs of all other customers.
        others: bool,
    },
    /// Write a new bureau's file, with the jobs of two.
    Join {
        /// The path of the first file.
        first: &'a str,
        /// The path of the second file.
        second: &'a str,
        /// The path of the new file.
        new: &'a str,
    },
    /// Write each job of a bureau's file into a folder of its own.
    Archive {
        /// The path of the file.
        file: &'a str,
        /// The path of the folder that holds the jobs' folders.
        folder: &'a str,
        /// Whether each job's folder gets its page too.
        pages: bool,
    },
    /// Run each job of a shelf again, and compare it with its bag.
    Verify {
        /// The path of the folder that holds the jobs' folders.
        folder: &'a str,
    },
    /// Write a new bureau's file with the jobs of a shelf, handed in again.
    Restore {
        /// The path of the folder that holds the jobs' folders.
        folder: &'a str,
        /// The path of the new file.
        new: &'a str,
    },
    /// Run the queue of a bureau that is served.
    Work {
        /// Its port on 127.0.0.1.
        port: u16,
        /// The rounds.
        rounds: Rounds,
    },
    /// Tell what comes into the queue of a bureau that is served, and what leaves it.
    Watch(Watching),
    /// Show how the jobs of the customers of a list stand at a bureau that is served.
    Class(Class<'a>),
}

/// What is said of a text that is no port.
const NO_PORT: &str = "PORT must be a number from 1 to 65535";

/// The task of a subcommand `check`.
fn check_task<'a>(found: &Found<'a>) -> Result<Task<'a>, Mistake<'a>>
    ensures { IfOk result (WantsCheck (given found.now)) }
{
    let file = found.needed("FILE")?;
    Ok(Task::Check { file })
}

/// The task of a subcommand `jobs`.
fn jobs_task<'a>(found: &Found<'a>) -> Result<Task<'a>, Mistake<'a>>
    ensures { IfOk result (WantsJobs (given found.now)) }
{
    let file = found.needed("FILE")?;
    let customer = found.value("CUSTOMER");
    Ok(Task::Jobs { file, customer })
}

/// The task of a subcommand `copy`.
fn copy_task<'a>(found: &Found<'a>) -> Result<Task<'a>, Mistake<'a>>
    ensures { IfOk result (WantsCopy (given found.now)) }
{
    let file = found.needed("FILE")?;
    let new = found.needed("NEW")?;
    Ok(Task::Copy { file, new })
}

/// The task of a subcommand `part`.
fn part_task<'a>(alloc: Global, found: &Found<'a>) -> Result<Task<'a>, Mistake<'a>>
    ensures { IfOk result (WantsPart (given found.now)) }
{
    let file = found.needed("FILE")?;
    let new = found.needed("NEW")?;
    let customers = found.values(alloc, "CUSTOMER")?;
    let others = found.has_flag("others");
    Ok(Task::Part {
        file,
        new,
        customers,
        others,
    })
}

/// The task of a subcommand `join`.
fn join_task<'a>(found: &Found<'a>) -> Result<Task<'a>, Mistake<'a>>
    ensures { IfOk result (WantsJoin (given found.now)) }
{
    let first = found.needed("FIRST")?;
    let second = found.needed("SECOND")?;
    let new = found.needed("NEW")?;
    Ok(Task::Join { first, second, new })
}

/// The task of a subcommand `archive`.
fn archive_task<'a>(found: &Found<'a>) -> Result<Task<'a>, Mistake<'a>>
    ensures { IfOk result (WantsArchive (given found.now)) }
{
    let file = found.needed("FILE")?;
    let folder = found.needed("FOLDER")?;
    let pages = found.has_flag("pages");
    Ok(Task::Archive {
        file,
        folder,
        pages,
    })
}

/// The task of a subcommand `verify`.
fn verify_task<'a>(found: &Found<'a>) -> Result<Task<'a>, Mistake<'a>>
    ensures { IfOk result (WantsVerify (given found.now)) }
{
    let folder = found.needed("FOLDER")?;
    Ok(Task::Verify { folder })
}

/// The task of a subcommand `restore`.
fn restore_task<'a>(found: &Found<'a>) -> Result<Task<'a>, Mistake<'a>>
    ensures { IfOk result (WantsRestore (given found.now)) }
{
    let folder = found.needed("FOLDER")?;
    let new = found.needed("NEW")?;
    Ok(Task::Restore { folder, new })
}

/// The port in PORT of a subcommand.
fn port_in(found: &Found<'_>) -> Result<u16, Mistake<'static>>
    ensures { IfOk result (IsPortIn (given found.now)) }
{
    let text = found.needed("PORT")?;
    let port = number_up_to(text, 65_535).ok_or(Mistake::Value(NO_PORT))?;
    Ok(port as u16)
}

/// The rounds that the options name.
fn rounds_in(found: &Found<'_>) -> Result<Rounds, Mistake<'static>>
    ensures { IfOk result (AreRounds (given found.now)) }
{
    let slice = up_to_or(found, "slice", 2_000, 2_000)?;
    let most = up_to_if(found, "rounds", 999_999_999)?;
    let pause = up_to_or(found, "pause", 3_600, 1)?;
    let keeps = found.has_flag("keep");
    Ok(Rounds {
        slice,
        most,
        pause,
        keeps,
    })
}

/// The task of a subcommand `work`.
fn work_task<'a>(found: &Found<'a>) -> Result<Task<'a>, Mistake<'a>>
    ensures { IfOk result (WantsWork (given found.now)) }
{
    let port = port_in(found)?;
    let rounds = rounds_in(found)?;
    Ok(Task::Work { port, rounds })
}

/// The task of a subcommand `watch`.
fn watch_task<'a>(found: &Found<'a>) -> Result<Task<'a>, Mistake<'a>>
    ensures { IfOk result (WantsWatch (given found.now)) }
{
    Ok(Task::Watch(Watching {
        port: port_in(found)?,
        rounds: up_to_if(found, "rounds", 999_999_999)?,
        pause: up_to_or(found, "pause", 3_600, 5)?,
    }))
}

/// The task of a subcommand `class`.
fn class_task<'a>(found: &Found<'a>) -> Result<Task<'a>, Mistake<'a>>
    ensures { IfOk result (WantsClass (given found.now)) }
{
    let port = port_in(found)?;
    let names = found.needed("NAMES")?;
    let page = found.value("PAGE");
    let watches = found.has_flag("watch");
    let pause = up_to_or(found, "pause", 3_600, 5)?;
    Ok(Task::Class(Class {
        port,
        names,
        page,
        watches,
        pause,
    }))
}

/// The task of a subcommand, by what clap found after its name.
fn subcommand_task<'a>(
    alloc: Global,
    subcommand: Subcommand,
    found: &Found<'a>,
) -> Result<Task<'a>, Mistake<'a>>
    ensures { IfOk result (WantsTask subcommand (given found.now)) }
{
    match subcommand {
        Subcommand::Check => check_task(found),
        Subcommand::Jobs => jobs_task(found),
        Subcommand::Copy => copy_task(found),
        Subcommand::Part => part_task(alloc, found),
        Subcommand::Join => join_task(found),
        Subcommand::Archive => archive_task(found),
        Subcommand::Verify => verify_task(found),
        Subcommand::Restore => restore_task(found),
        Subcommand::Work => work_task(found),
        Subcommand::Watch => watch_task(found),
        Subcommand::Class => class_task(found),
    }
}

/// What the arguments ask for.
fn wish_of<'a>(alloc: Global, arguments: &'a [String]) -> Result<Asked<'a, Subcommand>, Mistake<'a>>
    ensures { IfOk result (λ asked. AsksFor operator (texts arguments.entry.now) (wish_as asked)) }
{
    asked_by(alloc, &OPERATOR, arguments)
}

/// Returns the task that the arguments after the program's name ask for, or else what is wrong with
/// them.
pub fn task_of<'a>(alloc: Global, arguments: &'a [String]) -> Result<Task<'a>, Mistake<'a>>
    ensures { IfOk result (Wants (texts arguments.entry.now)) }
{
    let asked = wish_of(alloc, arguments)?;
    match asked {
        Asked::Help(subcommand) => Ok(Task::Show(page(subcommand))),
        Asked::Version => Ok(Task::Show(VERSION)),
        Asked::Subcommand(subcommand, found) => subcommand_task(alloc, subcommand, &found),
    }
}
