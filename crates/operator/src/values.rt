//! The values of the subcommands' arguments.

ghost use Rattle.std.specs.Prelude.{IfOk, IfSome};
ghost use Rattle.clap.specs.Words.{first_of};
ghost use Rattle.command_line.specs.Arguments.{ReadsIf, ReadsOr, given};
ghost use Rattle.operator.specs.Values.{IsUpTo};

use command_line::{Found, Mistake};
use texts::number_up_to;

/// What is said of the number of an option that is none, or too great.
fn no_number(name: &str) -> &'static str {
    match name {
        "slice" => "--slice must be a number from 1 to 2000",
        "rounds" => "--rounds must be a number from 1 to 999999999",
        _ => "--pause must be a number from 1 to 3600",
    }
}

/// The number of an option, or another where it is not given.
pub(crate) fn up_to_or(
    found: &Found<'_>,
    name: &str,
    most: u32,
    other: u32,
) -> Result<u32, Mistake<'static>>
    ensures { IfOk result
        (ReadsOr (IsUpTo most) other (first_of name.now (given found.now))) }
{
    let Some(text) = found.value(name) else {
        return Ok(other);
    };
    number_up_to(text, most).ok_or(Mistake::Value(no_number(name)))
}

/// The number of an option, if it is given.
pub(crate) fn up_to_if(
    found: &Found<'_>,
    name: &str,
    most: u32,
) -> Result<Option<u32>, Mistake<'static>>
    ensures { IfOk result (ReadsIf (IsUpTo most) (first_of name.now (given found.now))) }
{
    let Some(text) = found.value(name) else {
        return Ok(None);
    };
    match number_up_to(text, most) {
        Some(number) => Ok(Some(number)),
        None => Err(Mistake::Value(no_number(name))),
    }
}
