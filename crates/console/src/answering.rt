//! The answers of a session.

ghost use Rattle.std.specs.Prelude.{◌≡◌, ◌++◌, codes, map, IfOk, OnOk};
ghost use Rattle.units.specs.Listing.{rendered};
ghost use Rattle.card_forms.specs.Images.{image_of};
ghost use Rattle.machine.specs.Run.{lines_of};
ghost use Rattle.console.specs.{
  Answers.{Answers, action_shown, done, dump_shown, next, printed, question_shown},
  Shown.{cards_shown},
  SessionStates.{HasCome},
};

use crate::commands::{Action, Command, Question};
use crate::sessions::Session;
use crate::showing::{fault_words, push_bare, push_fault, push_help, push_stops};
use card_forms::{CardImage, image_of};
use card_tools::{ListOptions, list};
use run_traces::{DumpOptions, push_machine};
use std::alloc::{AllocError, Global};
use units::{Punched, render};

/// The answer to a line.
#[derive(Drop)]
pub struct Answer {
    /// What is printed.
    pub text: Vec<u8>,
    /// Whether the line ends the session.
    pub ends: bool,
}

/// Adds the rows from a position to another, or all, and the registers and the units.
fn push_dump(
    alloc: Global,
    text: &mut Vec<u8>,
    session: &Session,
    first: Option<u16>,
    last: Option<u16>,
) -> Result<(), AllocError>
    ensures { OnOk result (text.new.items
        ≡ text.old.items ++ dump_shown session.now.machine first last) }
{
    let options = DumpOptions {
        after: None,
        stop: None,
        first,
        last,
    };
    push_machine(alloc, text, options, session.parts())
}

/// The images of the cards that were punched.
fn images_of(alloc: Global, punched: &[Punched]) -> Result<Vec<CardImage>, AllocError>
    ensures { IfOk result (λ images. images.items
        ≡ map (λ card. image_of card.card) punched.now) }
{
    punched
        .iter()
        .map(|card| image_of(&card.card))
        .collect(alloc)
}

/// Adds the cards that were punched.
fn push_cards(alloc: Global, text: &mut Vec<u8>, session: &Session) -> Result<(), AllocError>
    ensures { OnOk result (text.new.items
        ≡ text.old.items ++ cards_shown session.now.machine.works.units.punch.cards) }
{
    let images = images_of(alloc, &session.parts().units.punch.cards)?;
    let options = ListOptions {
        ruler: false,
        punches: false,
    };
    let shown = list(alloc, &images, options)?;
    text.extend_from_slice(&shown)
}

/// Adds the lines that were printed.
fn push_lines(alloc: Global, text: &mut Vec<u8>, session: &Session) -> Result<(), AllocError>
    ensures { OnOk result (text.new.items
        ≡ text.old.items ++ rendered (lines_of session.now.machine)) }
{
    let shown = render(alloc, &session.parts().units.printer.lines)?;
    text.extend_from_slice(&shown)
}

/// Adds what is printed for a question.
fn show(
    alloc: Global,
    text: &mut Vec<u8>,
    session: &Session,
    line: &[u8],
    question: Question,
) -> Result<(), AllocError>
    ensures { OnOk result (text.new.items
        ≡ text.old.items ++ question_shown session.now line.now question) }
{
    match question {
        Question::Stops => push_stops(text, session.stops()),
        Question::Dump(first, last) => push_dump(alloc, text, session, first, last),
        Question::Registers => push_bare(alloc, text, session.parts()),
        Question::Field(position) => session.push_field(alloc, text, line, position),
        Question::Cards => push_cards(alloc, text, session),
        Question::Lines => push_lines(alloc, text, session),
        Question::Help => push_help(text),
    }
}

/// Does an action, and adds what is printed for it.
fn act(
    alloc: Global,
    text: &mut Vec<u8>,
    session: &mut Session,
    line: &[u8],
    action: Action,
) -> Result<(), AllocError>
    requires { HasCome session.old }
    ensures next { OnOk result (session.new ≡ done session.old action) }
    ensures text { OnOk result (text.new.items
        ≡ text.old.items ++ action_shown session.old line.now action) }
{
    match action {
        Action::Step(count) => session.step(alloc, text, count),
        Action::Go(count) => session.go(alloc, text, count),
        Action::Stop(stop) => session.stop(alloc, text, line, stop),
        Action::Clear(stop) => session.clear(alloc, text, stop),
        Action::Watch(position) => session.watch(alloc, text, line, position),
        Action::Unwatch => session.unwatch(text),
        Action::Start(switches) => session.start(alloc, text, line, switches),
        Action::Back(count) => session.back(alloc, text, line, count),
    }
}

/// Carries out the command of a line, and adds what is printed for it.
fn take(
    alloc: Global,
    text: &mut Vec<u8>,
    session: &mut Session,
    line: &[u8],
    command: Command,
) -> Result<(), AllocError>
    requires { HasCome session.old }
    ensures next { OnOk result (session.new ≡ next session.old command) }
    ensures text { OnOk result (text.new.items
        ≡ text.old.items ++ printed session.old line.now command) }
{
    match command {
        Command::Nothing => Ok(()),
        Command::Unknown => text.extend_from_slice(b"no such line; help lists them\n"),
        Command::Wrong(fault) => push_fault(text, line, fault_words(fault)),
        Command::Do(action) => act(alloc, text, session, line, action),
        Command::Ask(question) => show(alloc, text, session, line, question),
        Command::End => Ok(()),
    }
}

/// Answers a line; `help` prints what lines there are. Fails only if there is no memory: what the
/// session has done until then is not known, and it may not be asked again.
pub fn answer_line(alloc: Global, session: &mut Session, line: &[u8]) -> Result<Answer, AllocError>
    requires { HasCome session.old }
    ensures answer { IfOk result (λ answer.
        Answers session.old line.now session.new answer.text.items answer.ends) }
    ensures come { OnOk result (HasCome session.new) }
{
    let command = Command::of(alloc, session.names(), line)?;
    let mut text = Vec::new(alloc);
    take(alloc, &mut text, session, line, command)?;
    Ok(Answer {
        text,
        ends: command.is_end(),
    })
}
