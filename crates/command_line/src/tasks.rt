//! What the program's arguments ask for, with their values read.

ghost use Rattle.std.specs.Prelude.{◌≡◌, ◌↔◌, ◌∷◌, [], Option, IfOk, IfErr, Ok, unwrap_or};
ghost use Rattle.clap.specs.Words.{first_of};
ghost use Rattle.command_line.specs.{
  Arguments.{given},
  Asked.{IsHelp, values_found},
  Plain.{texts},
  Programs.{IsVersion},
  Tasks.{IsMistake, IsSubcommandMistake, IsServeMistake, IsValueMistake, Wants, WantsSubcommand},
  declared.mistakes.Mistake.TheVariants.{Memory},
  declared.subcommands.Subcommand.{Subcommand},
  declared.tasks.Task.{Task},
};

use crate::arguments::Found;
use crate::mistakes::Mistake;
use crate::ports::{count_of, port_of};
use crate::spelled::Words;
use crate::spelling::words;
use crate::subcommands::Subcommand;
use core_store::Size;
use std::alloc::Global;
use texts::{number_or_zero, size_of, switches_of};
use units::Switches;

/// Where a deck's text is read from.
#[derive(Clone, Copy)]
pub enum Input<'a> {
    /// The standard input.
    Standard,
    /// The file at a path.
    File(&'a str),
}

/// What the program is to do.
#[derive(Clone, Copy)]
pub enum Task<'a> {
    /// Print the help of a subcommand, or the whole help.
    Help(Option<Subcommand>),
    /// Print the version.
    Version,
    /// Run a deck without a bureau.
    Run {
        deck: Input<'a>,
        size: Size,
        switches: Switches,
    },
    /// Assemble a source, and write the deck that runs its program.
    Assemble {
        /// The path of the file that begins with the source.
        source: &'a str,
        /// The path of the file for the deck.
        out: &'a str,
    },
    /// Make a new bureau's file.
    Init {
        /// The path of the bureau's file.
        file: &'a str,
    },
    /// Carry out a script's commands.
    Apply {
        /// The path of the bureau's file.
        file: &'a str,
        /// The path of the script.
        script: &'a str,
    },
    /// Write what a job has punched and printed to files.
    Export {
        /// The path of the bureau's file.
        file: &'a str,
        /// The job's customer.
        customer: &'a str,
        /// The job's number, or 0 if its text is not one.
        number: u32,
    },
    /// Make a bureau's file of an earlier version one of this version.
    Migrate {
        /// The path of the bureau's file.
        file: &'a str,
    },
    /// Answer requests over HTTP.
    Serve {
        /// The path of the bureau's file.
        file: &'a str,
        /// The port to listen on.
        port: u16,
        /// The number of connections to serve.
        count: u32,
    },
}

/// What is said of a text that is no size of storage.
pub const SIZE_COMPLAINT: &str = "SIZE must be 1400, 2000, 4000, 8000, 12000 or 16000";

/// What is said of a text that does not name a set of sense switches.
pub const SWITCHES_COMPLAINT: &str = "SWITCHES must be rising letters of ABCDEFG, or - for none";

/// What is said of a text that is no port.
const NO_PORT: &str = "PORT must be a number from 1 to 65535";

/// What is said of a text that is no number of connections.
const NO_COUNT: &str = "COUNT must be a number from 1 to 1000000";

/// The value with a name. It is empty where there is none; clap takes no subcommand without its
/// values.
fn value_of<'a>(found: &Found<'a>, name: &str) -> &'a str
    ensures { result.now ≡ unwrap_or (first_of name.now (given found.now)) [] }
{
    match found.value(name) {
        Some(value) => value,
        None => "",
    }
}

/// The task of a subcommand `run`.
fn run_task<'a>(deck: &'a str, size: &str, switches: &str) -> Result<Task<'a>, Mistake<'a>>
    ensures ok { IfOk result
        (WantsSubcommand Subcommand.Run (deck.entry.now ∷ size.now ∷ switches.now ∷ [])) }
    ensures mistake { IfErr result (IsValueMistake size.now switches.now) }
{
    let size = size_of(size).ok_or(Mistake::Value(SIZE_COMPLAINT))?;
    let switches = switches_of(switches).ok_or(Mistake::Value(SWITCHES_COMPLAINT))?;
    Ok(Task::Run {
        deck: Input::File(deck),
        size,
        switches,
    })
}

/// The task of a subcommand `serve`.
fn serve_task<'a>(file: &'a str, port: &str, count: &str) -> Result<Task<'a>, Mistake<'a>>
    ensures ok { IfOk result
        (WantsSubcommand Subcommand.Serve (file.entry.now ∷ port.now ∷ count.now ∷ [])) }
    ensures mistake { IfErr result (IsServeMistake port.now count.now) }
{
    let port = port_of(port).ok_or(Mistake::Value(NO_PORT))?;
    let count = count_of(count).ok_or(Mistake::Value(NO_COUNT))?;
    Ok(Task::Serve { file, port, count })
}

/// The task of a subcommand `export`.
fn export_task<'a>(file: &'a str, customer: &'a str, number: &str) -> Task<'a>
    ensures { WantsSubcommand Subcommand.Export
        (file.entry.now ∷ customer.entry.now ∷ number.now ∷ []) result }
{
    Task::Export {
        file,
        customer,
        number: number_or_zero(number),
    }
}

/// The task of a subcommand, by what clap found after its name.
fn subcommand_task<'a>(subcommand: Subcommand, found: &Found<'a>) -> Result<Task<'a>, Mistake<'a>>
    ensures ok { IfOk result (WantsSubcommand subcommand (values_found (given found.now) subcommand)) }
    ensures mistake { IfErr result (IsSubcommandMistake subcommand (values_found (given found.now) subcommand)) }
{
    match subcommand {
        Subcommand::Run => run_task(
            value_of(found, "DECK"),
            value_of(found, "SIZE"),
            value_of(found, "SWITCHES"),
        ),
        Subcommand::Assemble => Ok(Task::Assemble {
            source: value_of(found, "IN"),
            out: value_of(found, "OUT"),
        }),
        Subcommand::Init => Ok(Task::Init {
            file: value_of(found, "FILE"),
        }),
        Subcommand::Apply => Ok(Task::Apply {
            file: value_of(found, "FILE"),
            script: value_of(found, "SCRIPT"),
        }),
        Subcommand::Export => Ok(export_task(
            value_of(found, "FILE"),
            value_of(found, "CUSTOMER"),
            value_of(found, "NUMBER"),
        )),
        Subcommand::Migrate => Ok(Task::Migrate {
            file: value_of(found, "FILE"),
        }),
        Subcommand::Serve => serve_task(
            value_of(found, "FILE"),
            value_of(found, "PORT"),
            value_of(found, "COUNT"),
        ),
    }
}

/// Returns the task that the arguments ask for, or else what is wrong with them.
#[tactic(auto, unfolding(texts::specs::Switches::letters_of))]
pub fn task_of<'a>(alloc: Global, arguments: &'a [String]) -> Result<Task<'a>, Mistake<'a>>
    ensures ok { IfOk result (Wants (texts arguments.entry.now)) }
    ensures err { IfErr result (λ mistake. (task : Task) → Wants (texts arguments.entry.now) task
        → mistake ≡ Memory) }
    ensures help { (subcommand : Option Subcommand) →
        (result ≡ Ok (Task.Help subcommand)) ↔ IsHelp subcommand (texts arguments.entry.now) }
    ensures version { (result ≡ Ok Task.Version) ↔ IsVersion (texts arguments.entry.now) }
    ensures mistake { IfErr result (IsMistake (texts arguments.entry.now)) }
{
    match words(alloc, arguments) {
        Ok(Words::Standard) => Ok(Task::Run {
            deck: Input::Standard,
            size: Size::Positions4000,
            switches: Switches::A,
        }),
        Ok(Words::Help(subcommand)) => Ok(Task::Help(subcommand)),
        Ok(Words::Version) => Ok(Task::Version),
        Ok(Words::Subcommand(subcommand, found)) => subcommand_task(subcommand, &found),
        Err(fault) => Err(fault),
    }
}
