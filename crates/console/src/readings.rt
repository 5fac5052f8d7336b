//! A line, parsed: what each of its words may be.

ghost use Rattle.std.specs.Prelude.{◌≡◌, ◌<◌, ℕ, MatchOption, option_copied, IfOk};
ghost use Rattle.core_store.specs.Storage.{largest_size};
ghost use Rattle.console.specs.{
  Commands.{address_of},
  Readings.{IsCountOf, IsParsedOf, IsPositionOf, IsReadingOf, NamesAddress},
};

use crate::verbs::Verb;
use crate::words::{Words, text_of};
use core_store::LARGEST_SIZE;
use run_traces::Names;
use std::alloc::{AllocError, Global};
use texts::{number_of, switches_of};
use units::Switches;

/// The greatest count of instructions that a line asks for.
pub(crate) const MOST_ASKED: u32 = 1_000_000;

/// What a word may be, each where it is that.
#[derive(Clone, Copy)]
pub(crate) struct Reading {
    /// Whether there is such a word.
    pub(crate) given: bool,
    /// A count of instructions.
    pub(crate) count: Option<u32>,
    /// A position.
    pub(crate) position: Option<u16>,
    /// The address of a name.
    pub(crate) named: Option<u16>,
    /// Sense switches.
    pub(crate) switches: Option<Switches>,
}

/// A line, parsed: what each of its words may be.
#[derive(Clone, Copy)]
pub(crate) struct ParsedLine {
    /// Whether it has a word.
    pub(crate) some: bool,
    /// What its first word is.
    pub(crate) verb: Option<Verb>,
    /// What its second word may be.
    pub(crate) first: Reading,
    /// What its third word may be.
    pub(crate) second: Reading,
    /// Whether it has a fourth word.
    pub(crate) long: bool,
}

/// The count that a text is.
fn count_of(text: &str) -> Option<u32>
    ensures { MatchOption result ((count : ℕ) → ¬ IsCountOf text.now count) (IsCountOf text.now) }
{
    let Some(number) = number_of(text) else {
        return None;
    };
    if number > MOST_ASKED {
        return None;
    }
    Some(number)
}

/// The position that a text is.
fn position_of(text: &str) -> Option<u16>
    ensures { MatchOption result ((position : ℕ) → ¬ IsPositionOf text.now position)
        (IsPositionOf text.now) }
{
    if text == "0" {
        return Some(0);
    }
    let Some(number) = number_of(text) else {
        return None;
    };
    if number >= u32::from(LARGEST_SIZE) {
        return None;
    }
    Some(number as u16)
}

/// The address that a text names by the names of the source.
fn find_address(alloc: Global, names: Option<&Names>, text: &str) -> Result<Option<u16>, AllocError>
    ensures { IfOk result (λ found. MatchOption found
        ((address : ℕ) → ¬ NamesAddress (option_copied names.entry) text.now address)
        (NamesAddress (option_copied names.entry) text.now)) }
{
    match names {
        None => Ok(None),
        Some(names) => names.position_named(alloc, text),
    }
}

impl Reading {
    /// What a word may be.
    fn of(alloc: Global, names: Option<&Names>, word: &[u8]) -> Result<Reading, AllocError>
        ensures { IfOk result (IsReadingOf (option_copied names.entry) word.now) }
    {
        let text = text_of(word);
        let named = find_address(alloc, names, text)?;
        Ok(Reading {
            given: !word.is_empty(),
            count: count_of(text),
            position: position_of(text),
            named,
            switches: switches_of(text),
        })
    }

    /// The address that a word is.
    pub(crate) fn address(&self) -> Option<u16>
        ensures { result ≡ address_of self.now }
    {
        match self.position {
            None => self.named,
            Some(position) => Some(position),
        }
    }
}

impl ParsedLine {
    /// What is parsed of the words of a line.
    pub(crate) fn of(
        alloc: Global,
        names: Option<&Names>,
        line: &[u8],
    ) -> Result<ParsedLine, AllocError>
        ensures { IfOk result (IsParsedOf (option_copied names.entry) line.now) }
    {
        let words = Words::of(line);
        let first = Reading::of(alloc, names, words.second)?;
        let second = Reading::of(alloc, names, words.third)?;
        Ok(ParsedLine {
            some: !words.first.is_empty(),
            verb: Verb::of(words.first),
            first,
            second,
            long: words.has_more,
        })
    }
}
