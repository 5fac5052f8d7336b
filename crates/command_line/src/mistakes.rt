//! What can be wrong with the arguments of a program of subcommands, and what is told of it.

ghost use Rattle.std.specs.{Prelude.{◌≡◌, IfOk, OnOk, option_map}, Io.KnownBytes.{Appends}};
ghost use Rattle.command_line.specs.{
  Mistakes.{complaint_line, mistake_message, mistake_status, misuse_line, name_line, usage_line, usage_of},
  Misuses.{misuse_as},
};

use crate::faults::Fault;
use crate::misuses::Misuse;
use crate::statuses::Status;
use crate::telling::tell_fault;
use std::alloc::AllocError;
use std::io;
use std::io::{ErrorKind, Write};

/// Why arguments do not ask for anything.
#[derive(Clone, Copy)]
pub enum Mistake<'a> {
    /// There is no memory to read them.
    Memory,
    /// An argument is not valid text.
    NoText,
    /// There is no argument.
    Nothing,
    /// This first argument is not the name of a subcommand; the one that it nearly is.
    Subcommand(&'a str, Option<&'static str>),
    /// This is wrong with the arguments after the name of a subcommand that is used so.
    Arguments(Misuse<'a>, &'static str),
    /// This argument begins with a hyphen, and the subcommand that is used so has no options.
    Hyphen(&'a str, &'static str),
    /// A value is none, of which this is said.
    Value(&'static str),
}

impl<'a> From<AllocError> for Mistake<'a> {
    ghost use Rattle.command_line.specs.declared.mistakes.Mistake.TheVariants.{Memory};

    ghost from_gives = { λ _ mistake. mistake ≡ Memory };

    fn from(_error: AllocError) -> Mistake<'a> {
        Mistake::Memory
    }
}

/// The mistake of a process whose arguments cannot be read.
impl<'a> From<io::Error> for Mistake<'a> {
    ghost use Rattle.std.specs.IoError.{error_kind};
    ghost use Rattle.command_line.specs.Mistakes.{mistake_of};

    ghost from_gives = { λ error mistake. mistake ≡ mistake_of (error_kind error) };

    fn from(error: io::Error) -> Mistake<'a> {
        match error.kind() {
            ErrorKind::OutOfMemory => Mistake::Memory,
            _ => Mistake::NoText,
        }
    }
}

/// What an argument with hyphens is none of.
const OPTION: &str = "option of the subcommand";

/// Writes that an argument names nothing of this kind, and the name that it nearly is, with the mark
/// that stands before such names.
fn complain_of_name<E: Write>(
    errors: &mut E,
    program: &str,
    argument: &str,
    kind: &str,
    mark: &str,
    near: Option<&str>,
) -> io::Result<()>
    ensures { OnOk result (Appends (E.contents errors.old) (E.contents errors.new)
        (name_line program.now argument.now kind.now mark.now (option_map (λ name. name.now) near.entry))) }
{
    match near {
        Some(name) => writeln!(
            errors,
            "{program}: `{argument}` is no {kind}; did you mean `{mark}{name}`?"
        ),
        None => writeln!(errors, "{program}: `{argument}` is no {kind}"),
    }
}

/// Writes what is wrong with the arguments of a subcommand.
fn complain_of_misuse<E: Write>(errors: &mut E, program: &str, misuse: Misuse<'_>) -> io::Result<()>
    ensures { OnOk result (Appends (E.contents errors.old) (E.contents errors.new)
        (misuse_line program.now (misuse_as misuse.entry))) }
{
    match misuse {
        Misuse::NoOption(argument, near) => {
            complain_of_name(errors, program, argument, OPTION, "--", near)
        }
        Misuse::NoValue(name) => writeln!(errors, "{program}: `--{name}` has no value behind it"),
        Misuse::TooMany(argument) => {
            writeln!(errors, "{program}: `{argument}` is one argument too many")
        }
        Misuse::Missing(name) => writeln!(errors, "{program}: {name} is missing"),
        Misuse::OfOptions => writeln!(
            errors,
            "{program}: an option is given twice, or with a value that it does not take"
        ),
    }
}

/// Writes what is wrong with arguments of a program.
fn complain<E: Write>(errors: &mut E, program: &str, mistake: Mistake<'_>) -> io::Result<()>
    ensures { OnOk result (Appends (E.contents errors.old) (E.contents errors.new)
        (complaint_line program.now mistake.entry)) }
{
    match mistake {
        Mistake::Memory => writeln!(errors, "{program}: no memory to read the arguments"),
        Mistake::NoText => writeln!(errors, "{program}: an argument is not UTF-8 text"),
        Mistake::Nothing => writeln!(errors, "{program}: there is no subcommand"),
        Mistake::Subcommand(argument, near) => {
            complain_of_name(errors, program, argument, "subcommand", "", near)
        }
        Mistake::Arguments(misuse, _) => complain_of_misuse(errors, program, misuse),
        Mistake::Hyphen(argument, _) => {
            writeln!(
                errors,
                "{program}: `{argument}` begins with a hyphen; put `--` before the values if it is one"
            )
        }
        Mistake::Value(said) => writeln!(errors, "{program}: {said}"),
    }
}

/// How the subcommand is used that the arguments begin with, where they are not used so.
fn usage_of(mistake: Mistake<'_>) -> Option<&'static str>
    ensures { option_map (λ usage. usage.now) result ≡ usage_of mistake.entry }
{
    match mistake {
        Mistake::Arguments(_, usage) => Some(usage),
        Mistake::Hyphen(_, usage) => Some(usage),
        _ => None,
    }
}

/// Writes how arguments of a program should be.
fn show_usage<E: Write>(errors: &mut E, program: &str, mistake: Mistake<'_>) -> io::Result<()>
    ensures { OnOk result (Appends (E.contents errors.old) (E.contents errors.new)
        (usage_line program.now mistake.entry)) }
{
    match usage_of(mistake) {
        Some(usage) => writeln!(
            errors,
            "usage: {program} {usage}; --help after its name has an example"
        ),
        None => writeln!(
            errors,
            "usage: {program} SUBCOMMAND ARGUMENTS..; {program} --help lists them"
        ),
    }
}

/// Prints what is wrong with arguments of a program, and how they should be. An error is the
/// writer's.
pub fn tell_mistake<E: Write>(
    errors: &mut E,
    program: &str,
    mistake: Mistake<'_>,
) -> io::Result<Status>
    ensures { IfOk result (λ status. (status ≡ mistake_status mistake.entry)
        × Appends (E.contents errors.old) (E.contents errors.new)
        (mistake_message program.now mistake.entry)) }
{
    if let Mistake::Memory = mistake {
        return tell_fault(errors, Fault::Memory);
    }
    complain(errors, program, mistake)?;
    show_usage(errors, program, mistake)?;
    Ok(Status::Misused)
}
