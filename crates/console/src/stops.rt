//! Stops.

ghost use Rattle.std.specs.Prelude.{◌≡◌, ◌==◌, filter, nat_le, nat_lt, not, IfOk};
ghost use Rattle.console.specs.Answers.{starts_until, with_stop, without_stop};

use crate::starts::Start;
use std::alloc::{AllocError, Global};

/// The stops below an address.
fn stops_below(alloc: Global, stops: &[u16], stop: u16) -> Result<Vec<u16>, AllocError>
    ensures { IfOk result (λ found. found.items ≡ filter (λ other. nat_lt other stop) stops.now) }
{
    stops
        .iter()
        .filter(|other| **other < stop)
        .copied()
        .collect(alloc)
}

/// The stops above an address.
fn stops_above(alloc: Global, stops: &[u16], stop: u16) -> Result<Vec<u16>, AllocError>
    ensures { IfOk result (λ found. found.items ≡ filter (λ other. nat_lt stop other) stops.now) }
{
    stops
        .iter()
        .filter(|other| stop < **other)
        .copied()
        .collect(alloc)
}

/// The stops with one more.
pub(crate) fn with_stop(alloc: Global, stop: u16, stops: &[u16]) -> Result<Vec<u16>, AllocError>
    ensures { IfOk result (λ found. found.items ≡ with_stop stop stops.now) }
{
    let mut found = stops_below(alloc, stops, stop)?;
    let above = stops_above(alloc, stops, stop)?;
    found.push(stop)?;
    found.extend_from_slice(&above)?;
    Ok(found)
}

/// The stops without one.
pub(crate) fn without_stop(alloc: Global, stop: u16, stops: &[u16]) -> Result<Vec<u16>, AllocError>
    ensures { IfOk result (λ found. found.items ≡ without_stop stop stops.now) }
{
    stops
        .iter()
        .filter(|other| **other != stop)
        .copied()
        .collect(alloc)
}

/// The starts of a past that is cut off after so many instructions.
pub(crate) fn starts_until(
    alloc: Global,
    made: u32,
    starts: &[Start],
) -> Result<Vec<Start>, AllocError>
    ensures { IfOk result (λ found. found.items ≡ starts_until made starts.now) }
{
    starts
        .iter()
        .filter(|start| start.made <= made)
        .copied()
        .collect(alloc)
}
