//! What differs first in the rows of a job.

ghost use Rattle.std.specs.Prelude.{◌≡◌, map};
ghost use Rattle.sqlite.specs.declared.types.Value.TheVariants.{Blob, Int};
ghost use Rattle.sqlite_value.specs.Value.{owned};
ghost use Rattle.job_checks.specs.Apart.{AreApart, IsApart, NamesColumn, TellsApart, column_name, columns_of};
ghost use Rattle.job_checks.specs.declared.differences.Stop.TheVariants.{Differs, NoMemory};

use crate::cells::value_at;
use office::Refusal;
use sqlite::Row;
use sqlite::types::ValueRef;
use std::alloc::AllocError;

/// A row of a job, by its table and its place there.
#[derive(Clone, Copy, Debug, PartialEq, Eq)]
pub enum Place {
    Job,
    /// By its place, from 0.
    Stretch(usize),
    State,
    Page(u32),
    Card(u32),
    Pocket(u32),
    Line(u32),
    Profile,
}

/// What was found at a place.
#[derive(Clone, Copy, Debug, PartialEq, Eq)]
pub enum Found {
    /// There is no such row.
    Nothing,
    /// There is a row there, and no such row is wanted.
    OneTooMany,
    /// Another number in the column of this name.
    Number {
        name: &'static str,
        found: i64,
        wanted: i64,
    },
    /// Another byte in the column of this name, by its place there, from 0.
    Byte {
        name: &'static str,
        at: u32,
        found: u8,
        wanted: u8,
    },
    /// Another value in the column of this name.
    Value {
        name: &'static str,
    },
}

/// The first difference of a job.
#[derive(Drop)]
pub enum Difference {
    /// Its row in `jobs` is not that of a job: none has such a value in the column of this name.
    NoJob { name: &'static str },
    /// Its deck is refused.
    Refused(Refusal),
    /// This stretch of it is none, by its place from 0.
    NoStretch(usize),
    /// Its stretches are none that a job may have.
    NoStretches,
    /// It was at no halt before this stretch, by its place from 0.
    NotAtHalt(usize),
    /// Its profile is none.
    NoProfile,
    /// A row differs.
    Row(Place, Found),
}

/// Why a job was not found to be as it ran.
#[derive(Drop)]
pub(crate) enum Stop {
    NoMemory,
    Differs(Difference),
}

impl From<AllocError> for Stop {
    ghost from_gives = { λ _ stop. stop ≡ NoMemory };

    /// No memory.
    fn from(_: AllocError) -> Stop {
        Stop::NoMemory
    }
}

impl From<Difference> for Stop {
    ghost from_gives = { λ difference stop. stop ≡ Differs difference };

    /// A difference.
    fn from(difference: Difference) -> Stop {
        Stop::Differs(difference)
    }
}

/// The names of the columns of a row.
fn column_names(place: Place) -> &'static [&'static str]
    ensures { map (λ name. name.now) result.now ≡ columns_of place }
{
    match place {
        Place::Job => &[
            "customer",
            "number",
            "kind",
            "size",
            "deck",
            "loaded",
            "held",
            "collected",
        ],
        Place::Stretch(_) => &["customer", "number", "place", "switches", "granted"],
        Place::State => &[
            "customer", "number", "i", "a", "b", "compare", "overflow", "channel", "waiting",
            "form", "line", "taken", "cards", "lines", "standing",
        ],
        Place::Page(_) => &["customer", "number", "page", "storage"],
        Place::Card(_) => &["customer", "number", "place", "card"],
        Place::Pocket(_) => &["customer", "number", "place", "pocket"],
        Place::Line(_) => &["customer", "number", "place", "form", "line", "image"],
        Place::Profile => &["customer", "number", "profile", "chosen"],
    }
}

/// The name of a column of a row.
fn column_name(place: Place, at: usize) -> &'static str
    ensures { result.now ≡ column_name place at }
{
    match column_names(place).get(at) {
        Some(name) => *name,
        None => "row",
    }
}

/// The first byte that differs in the column of this name.
fn byte_apart(name: &'static str, found: &[u8], wanted: &[u8]) -> Found
    ensures apart { AreApart found.now wanted.now result }
    ensures named { NamesColumn name.now result }
{
    if found.len() != wanted.len() {
        return Found::Value { name };
    }
    for at in 0..u32::MAX {
        let place = at as usize;
        if place == found.len() {
            return Found::Value { name };
        }
        if found[place] != wanted[place] {
            return Found::Byte {
                name,
                at,
                found: found[place],
                wanted: wanted[place],
            };
        }
    }
    Found::Value { name }
}

/// How a value differs from a number, in the column of this name.
fn number_apart(name: &'static str, found: ValueRef<'_>, wanted: i64) -> Found
    ensures apart { IsApart (owned found.entry) (Int wanted) result }
    ensures named { NamesColumn name.now result }
{
    match found {
        ValueRef::Int(found) => Found::Number {
            name,
            found,
            wanted,
        },
        _ => Found::Value { name },
    }
}

/// How a value differs from bytes, in the column of this name.
fn bytes_apart(name: &'static str, found: ValueRef<'_>, wanted: &[u8]) -> Found
    ensures apart { IsApart (owned found.entry) (Blob wanted.now) result }
    ensures named { NamesColumn name.now result }
{
    match found {
        ValueRef::Blob(found) => byte_apart(name, found, wanted),
        _ => Found::Value { name },
    }
}

/// How a value differs from the one that is wanted, in the column of this name.
fn values_apart(name: &'static str, found: ValueRef<'_>, wanted: ValueRef<'_>) -> Found
    ensures apart { IsApart (owned found.entry) (owned wanted.entry) result }
    ensures named { NamesColumn name.now result }
{
    match wanted {
        ValueRef::Int(wanted) => number_apart(name, found, wanted),
        ValueRef::Blob(wanted) => bytes_apart(name, found, wanted),
        _ => Found::Value { name },
    }
}

/// How a row differs in a column.
#[tactic(auto, unfolding(crate::specs::Apart::TellsApart))]
pub(crate) fn value_apart(place: Place, row: &Row, wanted: &[ValueRef<'_>], at: usize) -> Found
    ensures { TellsApart place row.now (map owned wanted.now) at result }
{
    let name = column_name(place, at);
    match wanted.get(at) {
        Some(wanted) => values_apart(name, value_at(row, at), *wanted),
        None => Found::Value { name },
    }
}
