//! The tasks of the subcommands that run a machine on the bench.

ghost use Rattle.std.specs.Prelude.{◌≡◌, IfOk, codes, decimal};
ghost use Rattle.command_line.specs.Arguments.{HasArgument, given};
ghost use Rattle.core_store.specs.Storage.{positions_of};
ghost use Rattle.texts.specs.Switches.{text_of};
ghost use Rattle.units.specs.Switches.{AreSeven};
ghost use Rattle.workbench_arguments.specs.{
  Tasks.{GivesCount, GivesNumber, HasCount, HasNumber, IsSetup, WantsCode, WantsConsole, WantsDump, WantsFilm, WantsProfile, WantsTrace},
  Values.{IsCount},
};

use crate::complaints::{NO_AFTER, NO_COUNT, NO_FIRST, NO_FROM, NO_LAST};
use crate::tasks::{Coding, Dumping, Filming, Setup, Task, Tracing, number};
use crate::values::count_of;
use command_line::{Found, Mistake, SIZE_COMPLAINT, SWITCHES_COMPLAINT};
use core_store::Size;
use texts::{size_of, switches_of};
use units::Switches;

/// What an argument gives, or what is said of it.
type Given<T> = Result<T, Mistake<'static>>;

/// The size of storage in SIZE.
fn size_in(found: &Found<'_>) -> Result<Size, Mistake<'static>>
    ensures { IfOk result (λ size.
        HasArgument (codes "SIZE") (given found.now) (decimal (positions_of size))) }
{
    size_of(found.needed("SIZE")?).ok_or(Mistake::Value(SIZE_COMPLAINT))
}

/// The sense switches in SWITCHES.
fn switches_in(found: &Found<'_>) -> Result<Switches, Mistake<'static>>
    ensures seven { IfOk result AreSeven }
    ensures switches { IfOk result (λ switches.
        HasArgument (codes "SWITCHES") (given found.now) (text_of switches)) }
{
    switches_of(found.needed("SWITCHES")?).ok_or(Mistake::Value(SWITCHES_COMPLAINT))
}

/// What a machine begins with, whose deck or source is in an argument.
pub(crate) fn setup_in<'a>(
    found: &Found<'a>,
    name: &'static str,
) -> Result<Setup<'a>, Mistake<'static>>
    ensures { IfOk result (IsSetup name.now (given found.now)) }
{
    Ok(Setup {
        input: found.needed(name)?,
        size: size_in(found)?,
        switches: switches_in(found)?,
    })
}

/// A number that may be 0. Of another text this is said.
fn count(text: &str, complaint: &'static str) -> Result<u32, Mistake<'static>>
    ensures { IfOk result (IsCount text.now) }
{
    count_of(text).ok_or(Mistake::Value(complaint))
}

/// The number of an option, if it is given. Of another text this is said.
fn number_in(found: &Found<'_>, name: &str, complaint: &'static str) -> Given<Option<u32>>
    ensures { IfOk result (λ number. GivesNumber name.now (given found.now) number) }
{
    match found.value(name) {
        Some(text) => Ok(Some(number(text, complaint)?)),
        None => Ok(None),
    }
}

/// The number of an option that may be 0, if it is given. Of another text this is said.
fn count_in(found: &Found<'_>, name: &str, complaint: &'static str) -> Given<Option<u32>>
    ensures { IfOk result (λ count. GivesCount name.now (given found.now) count) }
{
    match found.value(name) {
        Some(text) => Ok(Some(count(text, complaint)?)),
        None => Ok(None),
    }
}

/// The number of `--from`; 1 where it is not given.
fn from_in(found: &Found<'_>) -> Result<u32, Mistake<'static>>
    ensures { IfOk result (λ from. HasNumber (codes "from") 1 (given found.now) from) }
{
    let Some(text) = found.value("from") else {
        return Ok(1);
    };
    number(text, NO_FROM)
}

/// The number of `--count`; another one where it is not given.
fn shown_in(found: &Found<'_>, other: u32) -> Result<u32, Mistake<'static>>
    ensures { IfOk result (λ count.
        HasCount (codes "count") other (given found.now) count) }
{
    let Some(text) = found.value("count") else {
        return Ok(other);
    };
    count(text, NO_COUNT)
}

/// The task of a subcommand `trace`.
pub(crate) fn trace_task<'a>(found: &Found<'a>) -> Result<Task<'a>, Mistake<'static>>
    ensures { IfOk result (WantsTrace (given found.now)) }
{
    Ok(Task::Trace(Tracing {
        setup: setup_in(found, "DECK")?,
        from: from_in(found)?,
        count: shown_in(found, 1000)?,
        stop: found.value("stop"),
        names: found.value("names"),
        fields: found.has_flag("fields"),
    }))
}

/// The task of a subcommand `film`.
pub(crate) fn film_task<'a>(found: &Found<'a>) -> Result<Task<'a>, Mistake<'static>>
    ensures { IfOk result (WantsFilm (given found.now)) }
{
    Ok(Task::Film(Filming {
        setup: setup_in(found, "DECK")?,
        out: found.needed("OUT")?,
        names: found.value("names"),
        from: from_in(found)?,
        last: number_in(found, "last", NO_LAST)?,
        count: shown_in(found, 2000)?,
        title: found.value("title"),
    }))
}

/// The task of a subcommand `code`.
pub(crate) fn code_task<'a>(found: &Found<'a>) -> Result<Task<'a>, Mistake<'static>>
    ensures { IfOk result (WantsCode (given found.now)) }
{
    Ok(Task::Code(Coding {
        deck: found.needed("DECK")?,
        size: size_in(found)?,
        out: found.value("OUT"),
        names: found.value("names"),
        after: count_in(found, "after", NO_AFTER)?,
        runs: found.has_flag("run"),
        numbers: found.has_flag("numbers"),
    }))
}

/// The task of a subcommand `dump`.
pub(crate) fn dump_task<'a>(found: &Found<'a>) -> Result<Task<'a>, Mistake<'static>>
    ensures { IfOk result (WantsDump (given found.now)) }
{
    Ok(Task::Dump(Dumping {
        setup: setup_in(found, "DECK")?,
        after: count_in(found, "after", NO_AFTER)?,
        stop: found.value("stop"),
        first: count_in(found, "first", NO_FIRST)?,
        last: number_in(found, "last", NO_LAST)?,
    }))
}

/// The task of a subcommand `profile`.
pub(crate) fn profile_task<'a>(found: &Found<'a>) -> Result<Task<'a>, Mistake<'static>>
    ensures { IfOk result (WantsProfile (given found.now)) }
{
    let setup = setup_in(found, "DECK")?;
    let names = found.value("names");
    Ok(Task::Profile { setup, names })
}

/// The task of a subcommand `console`.
pub(crate) fn console_task<'a>(found: &Found<'a>) -> Result<Task<'a>, Mistake<'static>>
    ensures { IfOk result (WantsConsole (given found.now)) }
{
    let setup = setup_in(found, "DECK")?;
    let names = found.value("names");
    Ok(Task::Console { setup, names })
}
