//! What the units did in an attempt.

ghost use Rattle.std.specs.Prelude.{◌≡◌, Some, slice_get, option_copied, IfOk, OnOk};
ghost use Rattle.run_traces.specs.Effects.{effects_since, line_words, made_by, printed_words, punched_words, read_words, with_comma, with_effect};

use core_store::Core;
use machine::Parts;
use std::alloc::{AllocError, Global};
use units::Line;

/// What the units had made before an attempt.
#[derive(Clone, Copy)]
pub(crate) struct Made {
    /// How many cards were read.
    pub(crate) taken: u16,
    /// How many lines were printed, in all.
    pub(crate) lines: usize,
    /// How many cards were punched, in all.
    pub(crate) cards: usize,
}

/// What the units of a machine have made.
pub(crate) fn made_by<C: Core>(parts: &Parts<C>) -> Made
    ensures { result ≡ made_by parts.now }
{
    Made {
        taken: parts.units.hopper.taken,
        lines: parts.units.lines_in_all(),
        cards: parts.units.cards_in_all(),
    }
}

/// Adds a comma to effects, if there are any.
fn push_comma(effects: &mut Vec<u8>) -> Result<(), AllocError>
    ensures { OnOk result (effects.new.items ≡ with_comma effects.old.items) }
{
    match effects.as_slice() {
        [] => Ok(()),
        _ => effects.extend_from_slice(b", "),
    }
}

/// Adds an effect to others.
fn push_effect(effects: &mut Vec<u8>, effect: &[u8]) -> Result<(), AllocError>
    ensures { OnOk result (effects.new.items ≡ with_effect effects.old.items effect.now) }
{
    match effect {
        [] => Ok(()),
        _ => {
            push_comma(effects)?;
            effects.extend_from_slice(effect)
        }
    }
}

/// The line with this number, from 0, if there is one.
fn line_at(lines: &[Line], number: usize) -> Option<&Line>
    ensures { option_copied result ≡ slice_get lines.now number }
{
    lines.get(number)
}

/// The words for a line that was printed.
fn line_words(alloc: Global, printed: &Line) -> Result<Vec<u8>, AllocError>
    ensures { IfOk result (λ words. words.items ≡ line_words (Some printed.now)) }
{
    let form = printed.form;
    let line = printed.line;
    let words = format!(in alloc; "printed {form}.{line}")?;
    Ok(words.into_bytes())
}

impl Made {
    /// The card that was read, if one was.
    fn read_words<C: Core>(self, alloc: Global, parts: &Parts<C>) -> Result<Vec<u8>, AllocError>
        ensures { IfOk result (λ words. words.items ≡ read_words self parts.now) }
    {
        let taken = parts.units.hopper.taken;
        if self.taken >= taken {
            return Ok(Vec::new(alloc));
        }
        let words = format!(in alloc; "read {taken}")?;
        Ok(words.into_bytes())
    }

    /// The line that was printed, if one was.
    fn printed_words<C: Core>(self, alloc: Global, parts: &Parts<C>) -> Result<Vec<u8>, AllocError>
        ensures { IfOk result (λ words. words.items ≡ printed_words self parts.now) }
    {
        let place = self.lines.saturating_sub(parts.units.before.lines as usize);
        match line_at(&parts.units.printer.lines, place) {
            None => Ok(Vec::new(alloc)),
            Some(printed) => line_words(alloc, printed),
        }
    }

    /// How many cards were punched, if one was.
    fn punched_words<C: Core>(self, alloc: Global, parts: &Parts<C>) -> Result<Vec<u8>, AllocError>
        ensures { IfOk result (λ words. words.items ≡ punched_words self parts.now) }
    {
        let cards = parts.units.cards_in_all();
        if self.cards >= cards {
            return Ok(Vec::new(alloc));
        }
        let words = format!(in alloc; "punched {cards}")?;
        Ok(words.into_bytes())
    }
}

/// What the units did.
#[tactic(auto, unfolding(crate::specs::Effects::effects_since))]
pub(crate) fn effects_since<C: Core>(
    alloc: Global,
    before: Made,
    parts: &Parts<C>,
) -> Result<Vec<u8>, AllocError>
    ensures { IfOk result (λ effects. effects.items ≡ effects_since before parts.now) }
{
    let mut effects = before.read_words(alloc, parts)?;
    let printed = before.printed_words(alloc, parts)?;
    push_effect(&mut effects, &printed)?;
    let punched = before.punched_words(alloc, parts)?;
    push_effect(&mut effects, &punched)?;
    Ok(effects)
}
