//! The values of the subcommands' arguments.

ghost use Rattle.std.specs.Prelude.{◌≡◌, ◌++◌, ◌∷◌, [], true, IfSome, IfOk};
ghost use Rattle.workbench_arguments.specs.Values.{AreStops, IsColumn, IsCount, rises, stops_text, word_of_empty, word_of_signs, word_of_width};

use card_texts::{EmptyLine, Signs};
use itoa::Buffer;
use std::alloc::{AllocError, Global};
use texts::number_of;

/// The number of columns of a card.
const COLUMNS: u8 = 80;

/// The column, 1 to 80, that a text names in plain decimal.
pub(crate) fn column_of(text: &str) -> Option<u8>
    ensures { IfSome result (IsColumn text.now) }
{
    let Some(number) = number_of(text) else {
        return None;
    };
    if number > COLUMNS as u32 {
        return None;
    }
    Some(number as u8)
}

/// The number of a text, which may also be 0 alone.
pub(crate) fn count_of(text: &str) -> Option<u32>
    ensures { IfSome result (IsCount text.now) }
{
    if text == "0" {
        return Some(0);
    }
    number_of(text)
}

/// Whether columns rise from behind one, and end at 80 at most.
#[tactic(auto, unfolding(crate::specs::Values::rises))]
fn rises(stops: &[u8]) -> bool
    ensures { result ≡ rises 1 stops.now }
{
    let mut last = 1;
    let mut rest = stops;
    while let Some((&stop, more)) = rest.split_first() {
        if stop <= last || stop > COLUMNS {
            return false;
        }
        last = stop;
        rest = more;
    }
    true
}

/// The columns that a text may name, with commas between them.
fn stops_within(alloc: Global, text: &str) -> Result<Vec<u8>, AllocError> {
    let mut stops = Vec::new(alloc);
    for part in text.split(',') {
        if let Some(stop) = column_of(part) {
            stops.push(stop)?;
        }
    }
    Ok(stops)
}

/// Columns in decimal, each with a comma behind it.
fn text_of_stops(alloc: Global, stops: &[u8]) -> Result<Vec<u8>, AllocError>
    ensures { IfOk result (λ text. text.items ≡ stops_text stops.now) }
{
    let mut text = Vec::new(alloc);
    for &stop in stops {
        let mut buffer = Buffer::new();
        text.extend_from_slice(buffer.format(stop).as_bytes())?;
        text.push(b',')?;
    }
    Ok(text)
}

/// A text with a comma behind it.
fn with_comma(alloc: Global, text: &str) -> Result<Vec<u8>, AllocError>
    ensures { IfOk result (λ longer. longer.items ≡ text.now ++ 44 ∷ []) }
{
    let mut longer = Vec::new(alloc);
    longer.extend_from_slice(text.as_bytes())?;
    longer.push(b',')?;
    Ok(longer)
}

/// Whether columns are those that a text names.
fn are_stops(alloc: Global, text: &str, stops: &[u8]) -> Result<bool, AllocError>
    ensures { IfOk result (λ are. are ≡ true → AreStops text.now stops.now) }
{
    if !rises(stops) {
        return Ok(false);
    }
    let shown = text_of_stops(alloc, stops)?;
    let given = with_comma(alloc, text)?;
    Ok(shown.as_slice() == given.as_slice())
}

/// The columns, rising from 2 to 80, that a text names with commas between them.
pub(crate) fn stops_of(alloc: Global, text: &str) -> Result<Option<Vec<u8>>, AllocError>
    ensures { IfOk result (λ found. IfSome found (λ stops. AreStops text.now stops.items)) }
{
    let stops = stops_within(alloc, text)?;
    if !are_stops(alloc, text, &stops)? {
        return Ok(None);
    }
    Ok(Some(stops))
}

/// The signs with this name: `simh`.
pub(crate) fn signs_of(argument: &str) -> Option<Signs>
    ensures { IfSome result (λ signs. argument.now ≡ word_of_signs signs) }
{
    match argument {
        "simh" => Some(Signs::Simh),
        "glyphs" => Some(Signs::Bureau),
        _ => None,
    }
}

/// What an empty line is, by its name: `card`, `drop` or `fault`.
pub(crate) fn empty_of(argument: &str) -> Option<EmptyLine>
    ensures { IfSome result (λ empty. argument.now ≡ word_of_empty empty) }
{
    match argument {
        "card" => Some(EmptyLine::Card),
        "drop" => Some(EmptyLine::Dropped),
        "fault" => Some(EmptyLine::Fault),
        _ => None,
    }
}

/// Whether a width is that of the narrow listing: `80`, and not `120`.
pub(crate) fn narrow_of(argument: &str) -> Option<bool>
    ensures { IfSome result (λ narrow. argument.now ≡ word_of_width narrow) }
{
    match argument {
        "80" => Some(true),
        "120" => Some(false),
        _ => None,
    }
}
