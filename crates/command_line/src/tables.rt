//! Commands of clap that are made from subcommands, and what clap finds in arguments by them.

ghost use Rattle.std.specs.Prelude.{◌≡◌, ◌≢◌, ◌⊎◌, [], true, false, IfOk, IfErr, map};
ghost use Rattle.clap.specs.{
  Words.{app_of, fault_of, is_simple_and_free, rule_of, subcommand_of, subcommand_rows_of},
  Simple.{is_simple},
};
ghost use Rattle.command_line.specs.{
  Plain.{texts},
  Tables.{named, subcommand_app, rule_for, with_subcommand_named, IsLocal},
};
ghost use Rattle.command_line.specs.declared.tables.Unread.TheVariants as unread;

use clap::error::ErrorKind;
use clap::{Arg, ArgAction, ArgMatches, Command};
use std::alloc::{AllocError, Global};

/// What an argument of a subcommand is.
#[derive(Clone, Copy)]
pub enum Kind {
    /// A value at its place.
    Value,
    /// A value at its place that may be left out with those behind it.
    Further,
    /// One value or more, at the last place.
    Several,
    /// An option without a value.
    Flag,
    /// An option with a value.
    Setting,
}

impl Kind {
    ghost use Rattle.command_line.specs.Tables.{is_needed, is_option, is_several};

    /// Returns whether an argument of this kind is an option.
    pub(crate) fn is_option(self) -> bool
        ensures { result ≡ is_option self }
    {
        matches!(self, Kind::Flag | Kind::Setting)
    }

    /// Returns whether a value of this kind cannot be left out.
    pub(crate) fn is_needed(self) -> bool
        ensures { result ≡ is_needed self }
    {
        matches!(self, Kind::Value | Kind::Several)
    }

    /// Returns whether a value of this kind may come on and on.
    pub(crate) fn is_several(self) -> bool
        ensures { result ≡ is_several self }
    {
        matches!(self, Kind::Several)
    }
}

/// An argument with this name.
fn argument<'a>(alloc: Global, name: &'a str, kind: Kind) -> Arg<'a>
    ensures rule { rule_of result ≡ rule_for name.entry.now kind }
    ensures local { result.global ≡ false }
{
    let arg = Arg::new(alloc, name);
    match kind {
        Kind::Value => arg.required(true).action(ArgAction::Set),
        Kind::Further => arg.action(ArgAction::Set),
        Kind::Several => arg.required(true).action(ArgAction::Append),
        Kind::Flag => arg.long(name).action(ArgAction::SetTrue),
        Kind::Setting => arg.long(name).action(ArgAction::Set),
    }
}

/// A subcommand with these arguments.
fn command_for<'a>(
    alloc: Global,
    name: &'a str,
    arguments: &[(&'a str, Kind)],
) -> Result<Command<'a>, AllocError>
    ensures { IfOk result (λ c. (app_of c
        ≡ subcommand_app name.entry.now (map (λ a. (a.0.now, a.1)) arguments.now)) × IsLocal c) }
{
    let mut command = Command::new(alloc, name);
    for one in arguments {
        command = command.arg(argument(alloc, one.0, one.1))?;
    }
    Ok(command)
}

/// Returns the command with one more subcommand. Fails only if there is no memory.
pub(crate) fn with_subcommand_named<'a>(
    alloc: Global,
    command: Command<'a>,
    name: &'a str,
    arguments: &[(&'a str, Kind)],
) -> Result<Command<'a>, AllocError>
    ensures { IfOk result (λ c. app_of c ≡ with_subcommand_named (app_of command.entry) name.entry.now
        (map (λ a. (a.0.now, a.1)) arguments.now)) }
{
    command.subcommand(command_for(alloc, name, arguments)?)
}

/// Returns the command of this name without subcommands: it takes no program's name as the first
/// argument, and has no help of clap's own.
pub(crate) fn named_command<'a>(alloc: Global, name: &'a str) -> Command<'a>
    ensures { app_of result ≡ named name.entry.now }
{
    Command::new(alloc, name)
        .no_binary_name(true)
        .disable_help_flag(true)
        .disable_help_subcommand(true)
}

/// Why clap found nothing in arguments.
#[derive(Clone, Copy)]
pub(crate) enum Unread {
    /// There is no memory.
    Memory,
    /// They are not those of a subcommand.
    Arguments,
}

/// Returns what clap finds in arguments by a command. The error is that there is no memory, or that
/// the arguments have a fault.
pub(crate) fn parse<'a>(
    command: Command<'a>,
    arguments: &'a [String],
) -> Result<ArgMatches<'a>, Unread>
    requires simple { is_simple (app_of command) ≡ true }
    requires free { is_simple_and_free (app_of command) ≡ true }
    ensures ok { IfOk result (λ m.
        (fault_of (app_of command.entry) (texts arguments.entry.now) ≡ [])
        × (subcommand_rows_of m
        ≡ subcommand_of (app_of command.entry) (texts arguments.entry.now))) }
    ensures err { IfErr result (λ why. (why ≡ unread.Memory)
        ⊎ (fault_of (app_of command.entry) (texts arguments.entry.now) ≢ [])) }
{
    match command.try_get_matches_from(arguments) {
        Ok(matches) => Ok(matches),
        Err(error) => {
            if error.kind() == ErrorKind::OutOfMemory {
                Err(Unread::Memory)
            } else {
                Err(Unread::Arguments)
            }
        }
    }
}
