//! What lines say.

ghost use Rattle.std.specs.Prelude.{◌≡◌, option_copied, IfErr, IfOk};
ghost use Rattle.console.specs.Commands.{IsCommand, address_in, alone, count_in, dump_command, is_end, rows_command, command_of, command_with, switches_in, watch_command};

use crate::readings::{MOST_ASKED, ParsedLine};
use crate::verbs::Verb;
use run_traces::Names;
use std::alloc::{AllocError, Global};
use units::Switches;

/// What a line lacks whose value is none.
#[derive(Clone, Copy)]
pub(crate) enum Fault {
    /// A count of instructions.
    Count,
    /// An address.
    Address,
    /// Sense switches.
    Switching,
}

/// What a line does.
#[derive(Clone, Copy)]
pub(crate) enum Action {
    /// So many instructions, each with its line.
    Step(u32),
    /// So many instructions at most, up to a stop.
    Go(u32),
    /// Sets a stop.
    Stop(u16),
    /// Clears a stop.
    Clear(u16),
    /// Watches a position.
    Watch(u16),
    /// Watches none.
    Unwatch,
    /// Presses the start button, with these switches.
    Start(Switches),
    /// Goes so many instructions back.
    Back(u32),
}

/// What a line asks for.
#[derive(Clone, Copy)]
pub(crate) enum Question {
    /// The stops.
    Stops,
    /// The machine, with the rows from a position to another.
    Dump(Option<u16>, Option<u16>),
    /// The registers and the units.
    Registers,
    /// The field that ends at a position.
    Field(u16),
    /// The punched cards.
    Cards,
    /// The printed lines.
    Lines,
    /// The lines that there are.
    Help,
}

/// The command of a line.
#[derive(Clone, Copy)]
pub(crate) enum Command {
    /// It has no word.
    Nothing,
    /// It is no line of a session.
    Unknown,
    /// A value is none.
    Wrong(Fault),
    /// It does this.
    Do(Action),
    /// It asks for this.
    Ask(Question),
    /// It ends the session.
    End,
}

/// The count of a line, or this one where it has none.
fn count_in(parsed: &ParsedLine, other: u32) -> Result<u32, Command>
    ensures { result ≡ count_in parsed.now other }
{
    if parsed.second.given {
        return Err(Command::Unknown);
    }
    if !parsed.first.given {
        return Ok(other);
    }
    parsed.first.count.ok_or(Command::Wrong(Fault::Count))
}

/// The address of a line.
fn address_in(parsed: &ParsedLine) -> Result<u16, Command>
    ensures { result ≡ address_in parsed.now }
{
    if parsed.second.given {
        return Err(Command::Unknown);
    }
    parsed.first.address().ok_or(Command::Wrong(Fault::Address))
}

/// The switches of a line.
fn switches_in(parsed: &ParsedLine) -> Result<Switches, Command>
    ensures { result ≡ switches_in parsed.now }
{
    if parsed.second.given {
        return Err(Command::Unknown);
    }
    parsed
        .first
        .switches
        .ok_or(Command::Wrong(Fault::Switching))
}

/// The command of a line that has its verb alone.
fn if_alone(parsed: &ParsedLine, command: Command) -> Command
    ensures { result ≡ alone parsed.now command }
{
    if parsed.first.given {
        Command::Unknown
    } else {
        command
    }
}

/// What a line `watch` says; where its value is no address, that is the error.
fn watch_command(parsed: &ParsedLine) -> Result<Command, Command>
    ensures command { IfOk result (λ command. command ≡ watch_command parsed.now) }
    ensures wrong { IfErr result (λ command. command ≡ watch_command parsed.now) }
{
    if !parsed.first.given {
        return Ok(Command::Do(Action::Unwatch));
    }
    Ok(Command::Do(Action::Watch(address_in(parsed)?)))
}

/// What a line `dump` says with two addresses.
fn rows_command(first: Option<u16>, last: Option<u16>) -> Command
    ensures { result ≡ rows_command first last }
{
    match (first, last) {
        (Some(first), Some(last)) => Command::Ask(Question::Dump(Some(first), Some(last))),
        _ => Command::Wrong(Fault::Address),
    }
}

/// What a line `dump` says.
fn dump_command(parsed: &ParsedLine) -> Command
    ensures { result ≡ dump_command parsed.now }
{
    if parsed.second.given {
        return rows_command(parsed.first.address(), parsed.second.address());
    }
    if parsed.first.given {
        return Command::Wrong(Fault::Address);
    }
    Command::Ask(Question::Dump(None, None))
}

/// The command of a line with this verb; where a value is none or there are too many, that is
/// the error.
fn command_with(verb: Verb, parsed: &ParsedLine) -> Result<Command, Command>
    ensures command { IfOk result (λ command. command ≡ command_with verb parsed.now) }
    ensures wrong { IfErr result (λ command. command ≡ command_with verb parsed.now) }
{
    match verb {
        Verb::Step => Ok(Command::Do(Action::Step(count_in(parsed, 1)?))),
        Verb::Go => Ok(Command::Do(Action::Go(count_in(parsed, MOST_ASKED)?))),
        Verb::Stop => Ok(Command::Do(Action::Stop(address_in(parsed)?))),
        Verb::Stops => Ok(if_alone(parsed, Command::Ask(Question::Stops))),
        Verb::Clear => Ok(Command::Do(Action::Clear(address_in(parsed)?))),
        Verb::Watch => watch_command(parsed),
        Verb::Dump => Ok(dump_command(parsed)),
        Verb::Registers => Ok(if_alone(parsed, Command::Ask(Question::Registers))),
        Verb::Field => Ok(Command::Ask(Question::Field(address_in(parsed)?))),
        Verb::Cards => Ok(if_alone(parsed, Command::Ask(Question::Cards))),
        Verb::Lines => Ok(if_alone(parsed, Command::Ask(Question::Lines))),
        Verb::Start => Ok(Command::Do(Action::Start(switches_in(parsed)?))),
        Verb::Back => Ok(Command::Do(Action::Back(count_in(parsed, 1)?))),
        Verb::Help => Ok(if_alone(parsed, Command::Ask(Question::Help))),
        Verb::End => Ok(if_alone(parsed, Command::End)),
    }
}

/// The command of a parsed line.
#[tactic(auto, unfolding(crate::specs::Commands::command_of))]
fn command_of(parsed: &ParsedLine) -> Command
    ensures { result ≡ command_of parsed.now }
{
    if !parsed.some {
        return Command::Nothing;
    }
    match parsed.verb {
        None => Command::Unknown,
        Some(_) if parsed.long => Command::Unknown,
        Some(verb) => match command_with(verb, parsed) {
            Ok(command) => command,
            Err(wrong) => wrong,
        },
    }
}

impl Command {
    /// The command of a line.
    pub(crate) fn of(
        alloc: Global,
        names: Option<&Names>,
        line: &[u8],
    ) -> Result<Command, AllocError>
        ensures { IfOk result (IsCommand (option_copied names.entry) line.now) }
    {
        let parsed = ParsedLine::of(alloc, names, line)?;
        Ok(command_of(&parsed))
    }

    /// Whether it ends a session.
    pub(crate) fn is_end(self) -> bool
        ensures { result ≡ is_end self }
    {
        matches!(self, Command::End)
    }
}
