//! Options and values among the arguments of a subcommand.

ghost use Rattle.std.specs.Prelude.{◌≡◌, ◌≤◌, ◌∷◌, [], IfNone, IfSome, length, option_map};
ghost use Rattle.command_line.specs.Misuses.{argument_as, arguments_as, awaited_by, awaits_value, bare_name, behind_hyphens, equals_in, is_named, is_nearly, name_in, near_option, next_value, option_in, option_named};

use crate::near::is_near;
use crate::tables::Kind;

/// The first of these arguments, and those after it.
fn first_of<'a>(
    arguments: &'a [(&'static str, Kind)],
) -> Option<((&'static str, Kind), &'a [(&'static str, Kind)])>
    ensures some { IfSome result (λ p.
        arguments_as arguments.entry.now ≡ argument_as p.0 ∷ arguments_as p.1.now) }
    ensures none { IfNone result (arguments_as arguments.entry.now ≡ []) }
{
    match arguments.split_first() {
        Some((argument, more)) => Some((*argument, more)),
        None => None,
    }
}

/// What is behind two hyphens.
fn behind_hyphens(word: &str) -> Option<&[u8]>
    ensures { option_map (λ text. text.now) result ≡ behind_hyphens word.now }
{
    word.as_bytes().strip_prefix(b"--")
}

/// Where a text has a `=`.
fn equals_in(text: &[u8]) -> Option<usize>
    ensures place { result ≡ equals_in text.now }
    ensures within { IfSome result (λ place. place ≤ length text.now) }
{
    text.iter().position(|byte| *byte == b'=')
}

/// A text up to its `=`.
fn name_in(text: &[u8]) -> &[u8]
    ensures { result.now ≡ name_in text.now }
{
    match equals_in(text) {
        None => text,
        Some(place) => &text[..place],
    }
}

/// Whether the argument is the option with this name.
fn is_named(argument: (&'static str, Kind), name: &[u8]) -> bool
    ensures { result ≡ is_named name.now (argument_as argument.entry) }
{
    argument.1.is_option() && argument.0.as_bytes() == name
}

/// Whether the argument is an option with nearly this name.
fn is_nearly(argument: (&'static str, Kind), name: &[u8]) -> bool
    ensures { result ≡ is_nearly name.now (argument_as argument.entry) }
{
    argument.1.is_option() && is_near(argument.0.as_bytes(), name)
}

/// The option with this name.
fn option_named(arguments: &[(&'static str, Kind)], name: &[u8]) -> Option<(&'static str, Kind)>
    ensures { option_map argument_as result ≡ option_named (arguments_as arguments.now) name.now }
{
    let Some((argument, more)) = first_of(arguments) else {
        return None;
    };
    if is_named(argument, name) {
        return Some(argument);
    }
    option_named(more, name)
}

/// The option as which an argument is written.
pub(crate) fn option_in(
    arguments: &[(&'static str, Kind)],
    word: &str,
) -> Option<(&'static str, Kind)>
    ensures { option_map argument_as result
        ≡ option_in (arguments_as arguments.now) (behind_hyphens word.now) }
{
    match behind_hyphens(word) {
        Some(text) => option_named(arguments, name_in(text)),
        None => None,
    }
}

/// The name that is meant by an argument that is no option.
fn bare_name(word: &str) -> &[u8]
    ensures { result.now ≡ bare_name word.now }
{
    match behind_hyphens(word) {
        Some(text) => name_in(text),
        None => word.as_bytes(),
    }
}

/// The first option with nearly this name.
fn nearly_named(arguments: &[(&'static str, Kind)], name: &[u8]) -> Option<&'static str>
    ensures { option_map (λ name. name.now) result
        ≡ near_option (arguments_as arguments.now) name.now }
{
    let Some((argument, more)) = first_of(arguments) else {
        return None;
    };
    if is_nearly(argument, name) {
        return Some(argument.0);
    }
    nearly_named(more, name)
}

/// The option that an argument nearly is.
pub(crate) fn near_option(arguments: &[(&'static str, Kind)], word: &str) -> Option<&'static str>
    ensures { option_map (λ name. name.now) result
        ≡ near_option (arguments_as arguments.now) (bare_name word.now) }
{
    nearly_named(arguments, bare_name(word))
}

/// Whether an option of this kind has its value in the next argument where it is written so.
fn awaits_value(kind: Kind, word: &str) -> bool
    ensures { result ≡ awaits_value kind word.now }
{
    match kind {
        Kind::Setting => equals_in(word.as_bytes()).is_none(),
        _ => false,
    }
}

/// The name of an option, if it awaits its value where it is written so.
pub(crate) fn awaited_by(name: &'static str, kind: Kind, word: &str) -> Option<&'static str>
    ensures { option_map (λ name. name.now) result ≡ awaited_by name.now kind word.now }
{
    if awaits_value(kind, word) {
        Some(name)
    } else {
        None
    }
}

/// The next value that may come: its name and its kind, and the arguments behind it.
#[tactic(auto, unfolding(crate::specs::Misuses::next_value))]
pub(crate) fn next_value<'a>(
    arguments: &'a [(&'static str, Kind)],
) -> Option<(&'static str, Kind, &'a [(&'static str, Kind)])>
    ensures { option_map (λ p. (p.0.now, p.1, arguments_as p.2.now)) result
        ≡ next_value (arguments_as arguments.entry.now) }
{
    let Some((argument, more)) = first_of(arguments) else {
        return None;
    };
    if argument.1.is_option() {
        return next_value(more);
    }
    Some((argument.0, argument.1, more))
}
