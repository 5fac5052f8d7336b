//! Trials: steps over disks of which one fails from some call on, each call in turn, and what is
//! found on the disks opened again.

use crate::trials::disks::{Calls, Ended, Failing, disks_after, session_over, told_on};
use sqlite::Files;
use sqlite_disk::Memory;
use std::alloc::Global;
use std::test::Fail;

/// A step: the reply to it, the reply if it was carried out before, and its stage.
pub(crate) type Step = (&'static str, &'static str, &'static str);

/// Steps that are done in one session over disks; and stages for the end, with what they then tell.
#[derive(Clone, Copy)]
pub(crate) struct Trial<'a> {
    pub(crate) disks: &'a Files<Memory>,
    pub(crate) steps: &'a [Step],
    pub(crate) last: &'a str,
    pub(crate) told: &'a str,
}

/// The number of stops after which the step that was not acknowledged was lost, and the number
/// after which it was kept.
#[derive(Clone, Copy)]
pub(crate) struct Stops {
    pub(crate) lost: u32,
    pub(crate) kept: u32,
}

/// No stop.
pub(crate) const NONE: Stops = Stops { lost: 0, kept: 0 };

/// How the bureau is opened, and every row: before the first step, and after each.
fn offices_of(alloc: Global, trial: &Trial<'_>) -> Result<Vec<String>, Fail> {
    let mut offices = Vec::new(alloc);
    let mut disks = disks_after(alloc, trial.disks, "", "")?;
    for (reply, _, stage) in trial.steps {
        offices.push(told_on(alloc, &disks, "adopt#rows")?)?;
        disks = disks_after(alloc, &disks, stage, reply)?;
    }
    offices.push(told_on(alloc, &disks, "adopt#rows")?)?;
    Ok(offices)
}

/// The stages of steps in one session: a shift, if there are some.
fn stages_of(alloc: Global, steps: &[Step]) -> Result<String, Fail> {
    let mut stages = String::new(alloc);
    for (place, (_, _, stage)) in steps.iter().enumerate() {
        stages.push_str(if place == 0 { "" } else { "~" })?;
        stages.push_str(stage)?;
    }
    Ok(stages)
}

/// The number of steps that a session acknowledged before it was stopped.
fn acknowledged(steps: &[Step], told: &str) -> Option<usize> {
    let mut rest = told;
    for (place, (reply, _, _)) in steps.iter().enumerate() {
        match rest.strip_prefix(*reply) {
            Some(more) => rest = more,
            None if rest.is_empty() || rest == "fault 2/" => return Some(place),
            None => return None,
        }
    }
    Some(steps.len())
}

/// Whether a text is what is told of an office, then a reply, and then what is told at the end.
fn is_made_of(text: &str, office: &str, reply: &str, told: &str) -> bool {
    let Some(rest) = text.strip_prefix(office) else {
        return false;
    };
    rest.strip_prefix(reply) == Some(told)
}

/// What is left after a stop.
#[derive(Clone, Copy)]
enum Left {
    Lost,
    Kept,
    /// All steps were acknowledged.
    Ended,
}

/// What is left after so many acknowledged steps, if this is found: how the bureau is opened and
/// every row, the reply to the next step, or to the last one again, and what is told at the end.
fn left_by(trial: &Trial<'_>, offices: &[String], count: usize, found: &str) -> Option<Left> {
    let old = offices.get(count)?.as_str();
    let Some((reply, again, _)) = trial.steps.get(count) else {
        let (_, again, _) = trial.steps.last()?;
        return is_made_of(found, old, again, trial.told).then_some(Left::Ended);
    };
    if is_made_of(found, old, reply, trial.told) {
        return Some(Left::Lost);
    }
    let next = offices.get(count.saturating_add(1))?.as_str();
    is_made_of(found, next, again, trial.told).then_some(Left::Kept)
}

/// What is found on disks that a stop left after so many acknowledged steps.
fn found_on(
    alloc: Global,
    trial: &Trial<'_>,
    disks: &Files<Memory>,
    count: usize,
) -> Result<String, Fail> {
    let step = trial.steps.get(count).or(trial.steps.last());
    let (_, _, stage) = step.ok_or("a step")?;
    let stages = format!(in alloc; "adopt#rows#{stage}#{}", trial.last)?;
    told_on(alloc, disks, stages.as_str())
}

/// Stops a trial after these numbers of calls.
fn stop(
    alloc: Global,
    trial: &Trial<'_>,
    offices: &[String],
    stages: &str,
    calls: Calls,
) -> Result<Left, Fail> {
    let Ended { told, disks, .. } = session_over(alloc, trial.disks, calls, stages)?;
    let count = acknowledged(trial.steps, told.as_str()).ok_or("another reply")?;
    let found = found_on(alloc, trial, &disks, count)?;
    Ok(left_by(trial, offices, count, found.as_str()).ok_or("another office")?)
}

/// Stops a trial at each call of a disk in turn, until all steps are acknowledged. Adds the stops
/// to those before.
pub(crate) fn stop_each(
    alloc: Global,
    trial: &Trial<'_>,
    failing: Failing,
    stops: &mut Stops,
) -> Result<(), Fail> {
    let offices = offices_of(alloc, trial)?;
    let stages = stages_of(alloc, trial.steps)?;
    for calls in 0..1000 {
        match stop(
            alloc,
            trial,
            &offices,
            stages.as_str(),
            failing.after(calls),
        )? {
            Left::Lost => stops.lost = stops.lost.saturating_add(1),
            Left::Kept => stops.kept = stops.kept.saturating_add(1),
            Left::Ended => return Ok(()),
        }
    }
    Err("no end")?
}
