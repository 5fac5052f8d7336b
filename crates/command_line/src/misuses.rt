//! What is wrong with the arguments after a subcommand's name.

ghost use Rattle.std.specs.Prelude.{◌≡◌, IfErr, IfOk};
ghost use Rattle.command_line.specs.{
  Misuses.{arguments_as, at_end, misuse, misuse_as, place_as},
  Plain.{texts},
};

use crate::places::Place;
use crate::plain::first_argument;
use crate::tables::Kind;

/// What is wrong with the arguments after a subcommand's name.
#[derive(Clone, Copy)]
pub enum Misuse<'a> {
    /// This argument is none of its options; the option that it nearly is.
    NoOption(&'a str, Option<&'static str>),
    /// The value of this option is missing.
    NoValue(&'static str),
    /// This value is one too many.
    TooMany(&'a str),
    /// This value is missing.
    Missing(&'static str),
    /// An option comes twice, or has a value that it does not take.
    OfOptions,
}

/// How far the arguments after the name of a subcommand that has these are read, or the first of
/// them that is wrong.
#[tactic(auto, using(crate::proofs::MisuseSteps::ends))]
fn place_behind<'a>(
    all: &'static [(&'static str, Kind)],
    arguments: &'a [String],
) -> Result<Place, Misuse<'a>>
    ensures ok { IfOk result (λ place. misuse (arguments_as all.now) (texts arguments.entry.now)
        ≡ at_end (place_as place).awaited (place_as place).to_come) }
    ensures err { IfErr result (λ it.
        misuse (arguments_as all.now) (texts arguments.entry.now) ≡ misuse_as it) }
{
    let mut place = Place::beginning(all);
    let mut rest = arguments;
    while let Some((argument, more)) = first_argument(rest) {
        match place.after(all, argument) {
            Ok(next) => place = next,
            Err(misuse) => return Err(misuse),
        }
        rest = more;
    }
    Ok(place)
}

/// The first thing that is wrong with the arguments after the name of a subcommand that has these,
/// where something is.
pub(crate) fn misuse_of<'a>(
    all: &'static [(&'static str, Kind)],
    arguments: &'a [String],
) -> Misuse<'a>
    ensures { misuse_as result ≡ misuse (arguments_as all.now) (texts arguments.entry.now) }
{
    match place_behind(all, arguments) {
        Ok(place) => place.lacks(),
        Err(misuse) => misuse,
    }
}
