//! Arguments that are no options.

ghost use Rattle.std.specs.Prelude.{◌≡◌, ◌∷◌, [], find, option_map, IfSome, IfNone};
ghost use Rattle.command_line.specs.{
  Plain.{is_odd, is_plain, texts},
  Programs.{has_dashes, is_clear, program_as},
};

use crate::programs::{Program, subcommand_named};

/// Returns the first argument, and those after it.
pub(crate) fn first_argument<'a>(arguments: &'a [String]) -> Option<(&'a str, &'a [String])>
    ensures some { IfSome result (λ p. texts arguments.entry.now ≡ p.0.now ∷ texts p.1.now) }
    ensures none { IfNone result (texts arguments.entry.now ≡ []) }
{
    match arguments.split_first() {
        Some((argument, more)) => Some((argument.as_str(), more)),
        None => None,
    }
}

/// Whether an argument does not begin with a hyphen, or is one byte long.
pub(crate) fn is_plain_argument(argument: &str) -> bool
    ensures { result ≡ is_plain argument.now }
{
    match argument.as_bytes() {
        [] | [_] => true,
        [first, ..] => *first != b'-',
    }
}

/// Returns the first argument that begins with a hyphen, and is not `-` alone.
pub(crate) fn odd_argument<'a>(arguments: &'a [String]) -> Option<&'a str>
    ensures { option_map (λ s. s.now) result ≡ find is_odd (texts arguments.entry.now) }
{
    let mut rest = arguments;
    while let Some((argument, more)) = first_argument(rest) {
        if !is_plain_argument(argument) {
            return Some(argument);
        }
        rest = more;
    }
    None
}

/// Returns whether a subcommand's name comes first, and then `--`.
pub(crate) fn has_dashes<R: Copy>(program: &Program<R>, arguments: &[String]) -> bool
    ensures { result ≡ has_dashes (program_as program.now) (texts arguments.now) }
{
    match arguments {
        [name, argument, ..] => subcommand_named(program, name.as_str()).is_some()
            && argument.as_str() == "--",
        _ => false,
    }
}

/// Returns whether no argument is an option, or a subcommand's name and `--` come first.
pub(crate) fn is_clear<R: Copy>(program: &Program<R>, arguments: &[String]) -> bool
    ensures { result ≡ is_clear (program_as program.now) (texts arguments.now) }
{
    has_dashes(program, arguments) || odd_argument(arguments).is_none()
}
