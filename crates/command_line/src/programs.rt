//! Programs as tables of subcommands, and what arguments ask for by them.

ghost use Rattle.std.specs.{
  Prelude.{◌≡◌, ◌≢◌, ◌∷◌, ◌⊎◌, [], true, false, IfErr, IfNone, IfOk, IfSome, List, find, fold, map, option_map},
  List.{list_any},
  Str.{bytes_eq},
};
ghost use Rattle.clap.specs.{
  Words.{Row, app_of, fault_of, is_simple_and_free, subcommand_of, subcommand_rows_of},
  Simple.{is_simple},
};
ghost use Rattle.command_line.specs.{
  Misuses.{arguments_as},
  Near.{is_near},
  Plain.{texts},
  Programs.{AsksFor, AsksInPlace, HasSubcommand, IsHelpArgument, IsMisread, Wish, arguments_named, command, has_help, has_options, is_help, near_subcommand, program_as, subcommand_named, stray_option, usage_begun, usage_named, wish_as},
  declared.mistakes.Mistake.TheVariants.{Memory},
  Tables.{is_option, with_subcommand_named},
};

use crate::arguments::Found;
use crate::mistakes::Mistake;
use crate::misuses::misuse_of;
use crate::near::is_near;
use crate::plain::{first_argument, has_dashes, odd_argument};
use crate::tables::{Kind, Unread, named_command, parse, with_subcommand_named};
use clap::{ArgMatches, Command};
use std::alloc::{AllocError, Global};

/// How a subcommand of a program is written.
#[derive(Clone, Copy)]
pub struct Syntax<R> {
    /// The subcommand.
    pub subcommand: R,
    /// Its name, which is the first argument.
    pub name: &'static str,
    /// Its arguments in order, each by its name.
    pub arguments: &'static [(&'static str, Kind)],
    /// Its name and what belongs after it, as they are told where other arguments came.
    pub usage: &'static str,
}

/// A program by its arguments.
pub struct Program<R: 'static> {
    /// The program's name.
    pub name: &'static str,
    /// Its subcommands.
    pub subcommands: &'static [Syntax<R>],
}

/// What arguments ask for.
#[derive(Drop)]
pub enum Asked<'a, R: Drop> {
    /// The help of a subcommand, or the whole help.
    Help(Option<R>),
    /// The version.
    Version,
    /// A subcommand, with what was found of its arguments.
    Subcommand(R, Found<'a>),
}

/// How the first subcommand with this name is written.
fn syntax_in<'a, R>(subcommands: &'a [Syntax<R>], argument: &str) -> Option<&'a Syntax<R>>
    ensures { option_map (λ syntax. syntax.now) result
        ≡ find (λ syntax. bytes_eq syntax.name.now argument.now) subcommands.entry.now }
{
    subcommands.iter().find(|syntax| syntax.name == argument)
}

/// The subcommand with this name, and how it is used.
pub(crate) fn subcommand_named<R: Copy>(
    program: &Program<R>,
    argument: &str,
) -> Option<(R, &'static str)>
    ensures subcommand { option_map (λ p. p.0) result ≡ subcommand_named (program_as program.now) argument.now }
    ensures usage { option_map (λ p. p.1.now) result
        ≡ usage_named (program_as program.now) argument.now }
{
    match syntax_in(program.subcommands, argument) {
        Some(syntax) => Some((syntax.subcommand, syntax.usage)),
        None => None,
    }
}

/// The command with these subcommands.
fn with_subcommands<'a, R>(
    alloc: Global,
    command: Command<'a>,
    subcommands: &[Syntax<R>],
) -> Result<Command<'a>, AllocError>
    ensures { IfOk result (λ c. app_of c ≡ fold
        (λ a syntax. with_subcommand_named a syntax.name.now (map (λ g. (g.0.now, g.1)) syntax.arguments.now))
        (app_of command.entry) subcommands.now) }
{
    let mut command = command;
    for syntax in subcommands {
        command = with_subcommand_named(alloc, command, syntax.name, syntax.arguments)?;
    }
    Ok(command)
}

/// The program's command: its subcommands, and no help of clap's own.
fn command_of<'a, R>(alloc: Global, program: &Program<R>) -> Result<Command<'a>, AllocError>
    ensures { IfOk result (λ c. app_of c ≡ command (program_as program.now)) }
{
    with_subcommands(
        alloc,
        named_command(alloc, program.name),
        program.subcommands,
    )
}

/// Whether an argument asks for help.
fn is_help_argument(argument: &str) -> bool
    ensures is { result ≡ is_help argument.now }
    ensures help { result ≡ true → IsHelpArgument argument.now }
    ensures other { result ≡ false → ¬ IsHelpArgument argument.now }
{
    argument == "--help" || argument == "-h"
}

/// Whether one of these arguments asks for help, and `--` does not come before it.
#[tactic(auto, unfolding(crate::specs::Programs::has_help))]
fn has_help(arguments: &[String]) -> bool
    ensures { result ≡ has_help (texts arguments.now) }
{
    let mut rest = arguments;
    while let Some((argument, more)) = first_argument(rest) {
        if argument == "--" {
            return false;
        }
        if is_help_argument(argument) {
            return true;
        }
        rest = more;
    }
    false
}

/// Whether this argument or one of those behind it asks for help, and `--` does not come before it.
#[tactic(auto, unfolding(crate::specs::Programs::has_help))]
fn has_help_from(argument: &str, more: &[String]) -> bool
    ensures { result ≡ has_help (argument.now ∷ texts more.now) }
{
    if argument == "--" {
        return false;
    }
    is_help_argument(argument) || has_help(more)
}

/// What one argument asks for in place of a subcommand.
fn wish_alone<'a, R: Copy>(program: &Program<R>, argument: &str) -> Option<Asked<'a, R>>
    ensures some { IfSome result (λ asked.
        AsksFor (program_as program.now) (argument.now ∷ []) (wish_as asked)) }
    ensures none { IfNone result ((wish : Wish R)
        → ¬ AsksInPlace (program_as program.now) (argument.now ∷ []) wish) }
    ensures one { IfSome result (λ asked. (wish : Wish R)
        → AsksInPlace (program_as program.now) (argument.now ∷ []) wish → wish_as asked ≡ wish) }
{
    if is_help_argument(argument) {
        return Some(Asked::Help(None));
    }
    if argument == "--version" {
        return Some(Asked::Version);
    }
    None
}

/// What two arguments or more ask for in place of a subcommand: the help of the subcommand that the
/// first names.
fn wish_after<'a, R: Copy>(
    program: &Program<R>,
    name: &str,
    argument: &str,
    more: &[String],
) -> Option<Asked<'a, R>>
    ensures some { IfSome result (λ asked.
        AsksFor (program_as program.now) (name.now ∷ argument.now ∷ texts more.now)
        (wish_as asked)) }
    ensures none { IfNone result ((wish : Wish R)
        → ¬ AsksInPlace (program_as program.now) (name.now ∷ argument.now ∷ texts more.now) wish) }
    ensures one { IfSome result (λ asked. (wish : Wish R)
        → AsksInPlace (program_as program.now) (name.now ∷ argument.now ∷ texts more.now) wish
        → wish_as asked ≡ wish) }
{
    if !has_help_from(argument, more) {
        return None;
    }
    match subcommand_named(program, name) {
        Some((subcommand, _)) => Some(Asked::Help(Some(subcommand))),
        None => None,
    }
}

/// What arguments ask for in place of a subcommand.
fn wish_in<'a, R: Copy>(program: &Program<R>, arguments: &[String]) -> Option<Asked<'a, R>>
    ensures some { IfSome result (λ asked.
        AsksFor (program_as program.now) (texts arguments.now) (wish_as asked)) }
    ensures none { IfNone result ((wish : Wish R)
        → ¬ AsksInPlace (program_as program.now) (texts arguments.now) wish) }
    ensures one { IfSome result (λ asked. (wish : Wish R)
        → AsksInPlace (program_as program.now) (texts arguments.now) wish → wish_as asked ≡ wish) }
{
    let Some((first, more)) = first_argument(arguments) else {
        return None;
    };
    let Some((second, rest)) = first_argument(more) else {
        return wish_alone(program, first);
    };
    wish_after(program, first, second, rest)
}

/// How the subcommand is used that arguments begin with, if they begin with one.
fn usage_begun<R: Copy>(program: &Program<R>, arguments: &[String]) -> Option<&'static str>
    ensures { option_map (λ usage. usage.now) result
        ≡ usage_begun (program_as program.now) (texts arguments.now) }
{
    let Some((argument, _)) = first_argument(arguments) else {
        return None;
    };
    match subcommand_named(program, argument) {
        Some((_, usage)) => Some(usage),
        None => None,
    }
}

/// Whether one of these arguments is an option.
fn is_option_among(arguments: &[(&'static str, Kind)]) -> bool
    ensures { result ≡ list_any (λ one. is_option one.1) arguments.now }
{
    arguments.iter().any(|one| one.1.is_option())
}

/// Whether the subcommand with this name has an option.
fn has_options<R>(program: &Program<R>, argument: &str) -> bool
    ensures { result ≡ has_options (program_as program.now) argument.now }
{
    match syntax_in(program.subcommands, argument) {
        Some(syntax) => is_option_among(syntax.arguments),
        None => false,
    }
}

/// The first argument that begins with a hyphen, where the subcommand has no options whose name
/// comes first, and `--` does not come behind that.
fn stray_option<'a, R: Copy>(program: &Program<R>, arguments: &'a [String]) -> Option<&'a str>
    ensures { option_map (λ argument. argument.now) result
        ≡ stray_option (program_as program.now) (texts arguments.entry.now) }
{
    let Some((name, _)) = first_argument(arguments) else {
        return None;
    };
    if has_dashes(program, arguments) || has_options(program, name) {
        return None;
    }
    odd_argument(arguments)
}

/// How the first subcommand is written whose name is nearly this.
fn near_syntax<'a, R>(subcommands: &'a [Syntax<R>], argument: &str) -> Option<&'a Syntax<R>>
    ensures { option_map (λ syntax. syntax.now) result
        ≡ find (λ syntax. is_near syntax.name.now argument.now) subcommands.entry.now }
{
    subcommands.iter().find(|syntax| is_near(syntax.name.as_bytes(), argument.as_bytes()))
}

/// The first subcommand whose name is nearly this.
fn near_subcommand<R>(program: &Program<R>, argument: &str) -> Option<&'static str>
    ensures { option_map (λ name. name.now) result
        ≡ near_subcommand (program_as program.now) argument.now }
{
    match near_syntax(program.subcommands, argument) {
        Some(syntax) => Some(syntax.name),
        None => None,
    }
}

/// The arguments of the subcommand with this name.
fn arguments_named<R>(program: &Program<R>, argument: &str) -> &'static [(&'static str, Kind)]
    ensures { arguments_as result.now ≡ arguments_named (program_as program.now) argument.now }
{
    match syntax_in(program.subcommands, argument) {
        Some(syntax) => syntax.arguments,
        None => &[],
    }
}

/// The mistake of arguments that ask for nothing.
pub(crate) fn mistake_in<'a, R: Copy>(program: &Program<R>, arguments: &'a [String]) -> Mistake<'a>
    ensures { IsMisread (program_as program.now) (texts arguments.entry.now) result }
{
    let Some((name, more)) = first_argument(arguments) else {
        return Mistake::Nothing;
    };
    let Some(usage) = usage_begun(program, arguments) else {
        return Mistake::Subcommand(name, near_subcommand(program, name));
    };
    if let Some(argument) = stray_option(program, arguments) {
        return Mistake::Hyphen(argument, usage);
    }
    Mistake::Arguments(misuse_of(arguments_named(program, name), more), usage)
}

/// What clap finds in arguments by the program's command.
fn matches_in<'a, R: Copy>(
    alloc: Global,
    program: &Program<R>,
    arguments: &'a [String],
) -> Result<ArgMatches<'a>, Mistake<'a>>
    requires simple { is_simple (command (program_as program.now)) ≡ true }
    requires free { is_simple_and_free (command (program_as program.now)) ≡ true }
    ensures ok { IfOk result (λ m.
        (fault_of (command (program_as program.now)) (texts arguments.entry.now) ≡ [])
        × (subcommand_rows_of m
        ≡ subcommand_of (command (program_as program.now)) (texts arguments.entry.now))) }
    ensures err { IfErr result (λ mistake. (mistake ≡ Memory)
        ⊎ (fault_of (command (program_as program.now)) (texts arguments.entry.now) ≢ [])) }
    ensures mistake { IfErr result (λ mistake. (mistake ≡ Memory)
        ⊎ IsMisread (program_as program.now) (texts arguments.entry.now) mistake) }
{
    match parse(command_of(alloc, program)?, arguments) {
        Ok(matches) => Ok(matches),
        Err(Unread::Memory) => Err(Mistake::Memory),
        Err(Unread::Arguments) => Err(mistake_in(program, arguments)),
    }
}

/// The subcommand that clap finds in arguments by the program's command.
fn subcommand_in<'a, R: Copy>(
    alloc: Global,
    program: &Program<R>,
    arguments: &'a [String],
) -> Result<Asked<'a, R>, Mistake<'a>>
    requires simple { is_simple (command (program_as program.now)) ≡ true }
    requires free { is_simple_and_free (command (program_as program.now)) ≡ true }
    ensures ok { IfOk result (λ asked.
        AsksFor (program_as program.now) (texts arguments.entry.now) (wish_as asked)) }
    ensures err { IfErr result (λ mistake. (mistake ≡ Memory)
        ⊎ ((subcommand : R) → (found : List Row)
        → ¬ HasSubcommand (program_as program.now) (texts arguments.entry.now) subcommand found)) }
    ensures mistake { IfErr result (λ mistake. (mistake ≡ Memory)
        ⊎ IsMisread (program_as program.now) (texts arguments.entry.now) mistake) }
{
    let mut matches = matches_in(alloc, program, arguments)?;
    let Some((name, inner)) = matches.remove_subcommand() else {
        return Err(mistake_in(program, arguments));
    };
    match subcommand_named(program, name) {
        Some((subcommand, usage)) => Ok(Asked::Subcommand(subcommand, Found::of(inner, usage))),
        None => Err(mistake_in(program, arguments)),
    }
}

/// Returns what arguments ask for, by a program's table of subcommands, or else what is wrong with
/// them.
pub fn asked_by<'a, R: Copy>(
    alloc: Global,
    program: &Program<R>,
    arguments: &'a [String],
) -> Result<Asked<'a, R>, Mistake<'a>>
    requires simple { is_simple (command (program_as program.now)) ≡ true }
    requires free { is_simple_and_free (command (program_as program.now)) ≡ true }
    ensures ok { IfOk result (λ asked.
        AsksFor (program_as program.now) (texts arguments.entry.now) (wish_as asked)) }
    ensures err { IfErr result (λ mistake. (wish : Wish R)
        → AsksFor (program_as program.now) (texts arguments.entry.now) wish → mistake ≡ Memory) }
    ensures in_place { IfOk result (λ asked. (wish : Wish R)
        → AsksInPlace (program_as program.now) (texts arguments.entry.now) wish
        → wish_as asked ≡ wish) }
    ensures never { IfErr result (λ _. (wish : Wish R)
        → ¬ AsksInPlace (program_as program.now) (texts arguments.entry.now) wish) }
    ensures mistake { IfErr result (λ mistake. (mistake ≡ Memory)
        ⊎ IsMisread (program_as program.now) (texts arguments.entry.now) mistake) }
{
    match wish_in(program, arguments) {
        Some(asked) => Ok(asked),
        None => subcommand_in(alloc, program, arguments),
    }
}
