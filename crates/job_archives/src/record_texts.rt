//! Reading a record: what it tells of a job beside its deck.

ghost use Rattle.std.specs.Prelude.{◌≡◌, IfSome, true};
ghost use Rattle.texts.specs.Names.{is_customer, is_number};

use core_store::Size;
use itoa::Buffer;
use office::{Kind, Stretch};
use std::alloc::{AllocError, Global};
use texts::{JobName, is_customer, is_number, number_of, size_of, switches_of};
use units::Profile;

/// A part of a record.
#[derive(Clone, Copy, Debug, PartialEq, Eq)]
pub enum RecordPart {
    /// The lines `customer` and `number`.
    Name,
    /// The lines `kind`, `size` and `profile`.
    Machine,
    /// The lines `stretch`.
    Stretches,
    /// The lines `standing`, `held` and `collected`.
    Flags,
}

/// What the lines of `kind`, `size` and `profile` tell.
#[derive(Clone, Copy)]
pub(crate) struct ToldMachine {
    pub kind: Kind,
    pub size: Size,
    pub profile: Profile,
}

/// The value of the line with this word and a blank at the front of a text, and what is behind it.
fn split_value<'a>(text: &'a str, word: &str) -> Option<(&'a str, &'a str)> {
    let behind = text.strip_prefix(word)?;
    behind.split_once('\n')
}

/// The number that a text spells in plain decimal.
fn plain_number(text: &str) -> Option<u32> {
    let number = text.parse::<u32>().ok()?;
    let mut buffer = Buffer::new();
    if buffer.format(number) == text {
        Some(number)
    } else {
        None
    }
}

/// The name of the job, and what is behind its lines.
pub(crate) fn split_name(text: &str) -> Option<(JobName<'_>, &str)>
    ensures customer { IfSome result (λ found. is_customer found.0.customer.now ≡ true) }
    ensures number { IfSome result (λ found. is_number found.0.number ≡ true) }
{
    let (customer, rest) = split_value(text, "customer ")?;
    if !is_customer(customer) {
        return None;
    }
    let (number, rest) = split_value(rest, "number ")?;
    let number = number_of(number)?;
    if !is_number(number) {
        return None;
    }
    Some((JobName { customer, number }, rest))
}

/// The kind of this word.
fn kind_of(word: &str) -> Option<Kind> {
    match word {
        "object" => Some(Kind::Object),
        "autocoder" => Some(Kind::Autocoder),
        _ => None,
    }
}

/// The profile of this word.
fn profile_of(word: &str) -> Option<Profile> {
    match word {
        "1" => Some(Profile::Plain),
        "2" => Some(Profile::Selecting),
        _ => None,
    }
}

/// The kind, size and profile, and what is behind their lines.
pub(crate) fn split_machine(text: &str) -> Option<(ToldMachine, &str)> {
    let (kind, rest) = split_value(text, "kind ")?;
    let (size, rest) = split_value(rest, "size ")?;
    let (profile, rest) = split_value(rest, "profile ")?;
    let machine = ToldMachine {
        kind: kind_of(kind)?,
        size: size_of(size)?,
        profile: profile_of(profile)?,
    };
    Some((machine, rest))
}

/// The stretch of a value: its switches, and how many instructions were granted.
fn stretch_of(value: &str) -> Option<Stretch> {
    let (letters, number) = value.split_once(' ')?;
    let switches = switches_of(letters)?;
    let granted = plain_number(number)?;
    Some(Stretch { switches, granted })
}

/// The stretches, and what is behind their lines.
pub(crate) fn split_stretches(
    alloc: Global,
    text: &str,
) -> Result<Option<(Vec<Stretch>, &str)>, AllocError> {
    let mut stretches = Vec::new(alloc);
    let mut rest = text;
    for _line in 0..text.len() {
        let Some((value, behind)) = split_value(rest, "stretch ") else {
            break;
        };
        let Some(stretch) = stretch_of(value) else {
            return Ok(None);
        };
        stretches.push(stretch)?;
        rest = behind;
    }
    Ok(Some((stretches, rest)))
}

/// The flag of this word.
fn flag_of(word: &str) -> Option<bool> {
    match word {
        "yes" => Some(true),
        "no" => Some(false),
        _ => None,
    }
}

/// Whether the job is held and whether it was collected, behind the line of its standing.
pub(crate) fn flags_in(text: &str) -> Option<(bool, bool)> {
    let (_standing, rest) = split_value(text, "standing ")?;
    let (held, rest) = split_value(rest, "held ")?;
    let (collected, _rest) = split_value(rest, "collected ")?;
    Some((flag_of(held)?, flag_of(collected)?))
}
