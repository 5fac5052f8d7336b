//! A name that is not defined, and what the layout knows of it.

ghost use Rattle.std.specs.Prelude.{◌≡◌, ◌++◌, take, OnOk};
ghost use Rattle.autocoder_layout.specs.Source.{IsInRange};
ghost use Rattle.source_reports.specs.UnknownNames.{name_of_base, name_in, name_of_either, unknown_name, usable_by, near_text, known_text, unknown_hint};

use crate::names::{Known, first_card, near_name, push_name};
use crate::pieces::push_text;
use autocoder_layout::{Layout, Line, Slot, expressions_of};
use autocoder_statements::{Base, Expression, Name, Statement};
use std::alloc::{AllocError, Global};

/// The name of a base, if it is one.
fn name_of_base(base: Base) -> Option<Name>
    ensures { result ≡ name_of_base base }
{
    match base {
        Base::Number(_) => None,
        Base::Name(name) => Some(name),
    }
}

/// The name that an expression begins with.
fn name_in(expression: &Option<Expression>) -> Option<Name>
    ensures { result ≡ name_in expression.now }
{
    match expression {
        None => None,
        Some(expression) => name_of_base(expression.base),
    }
}

/// The name of the first of two expressions if that one is at fault, else of the second.
fn name_of_either(
    is_first: bool,
    first: &Option<Expression>,
    second: &Option<Expression>,
) -> Option<Name>
    ensures { result ≡ name_of_either is_first first.now second.now }
{
    if is_first {
        name_in(first)
    } else {
        name_in(second)
    }
}

/// The first name of a card that is not defined.
#[tactic(auto, unfolding(crate::specs::UnknownNames::unknown_name))]
fn unknown_name(layout: &Layout, line: &Line) -> Option<Name>
    requires { IsInRange line.now }
    ensures { result ≡ unknown_name layout.now line.now }
{
    match line {
        Ok(Statement::Origin(expression)) => name_of_base(expression.base),
        Ok(Statement::Equate { expression, .. }) => name_of_base(expression.base),
        _ => {
            let (first, second) = expressions_of(line);
            let is_first = layout.has_unknown_name(first);
            name_of_either(is_first, &first, &second)
        }
    }
}

/// The first so many cards.
fn before(slots: &[Slot], index: usize) -> &[Slot]
    ensures { result.now ≡ take index slots.now }
{
    if index < slots.len() {
        &slots[..index]
    } else {
        slots
    }
}

/// The cards whose names a card may use.
fn usable_by<'a>(line: &Line, index: usize, slots: &'a [Slot]) -> &'a [Slot]
    ensures { result.now ≡ usable_by line.now index slots.now }
{
    match line {
        Ok(Statement::Origin(_)) => before(slots, index),
        Ok(Statement::Equate { .. }) => before(slots, index),
        _ => slots,
    }
}

/// Adds a name that is nearly the same as another one.
fn push_near(alloc: Global, text: &mut Vec<u8>, known: &Known) -> Result<(), AllocError>
    ensures { OnOk result (text.new.items ≡ text.old.items ++ near_text known.now) }
{
    let card = known.card;
    push_text(text, "; did you mean ")?;
    push_name(text, &known.name)?;
    let told = format!(in alloc; " (card {card})?")?;
    push_text(text, told.as_str())?;
    Ok(())
}

/// Adds the card that has a name too late, or else the name that is nearly the same.
fn push_known(
    alloc: Global,
    text: &mut Vec<u8>,
    late: Option<usize>,
    near: Option<Known>,
) -> Result<(), AllocError>
    ensures { OnOk result (text.new.items ≡ text.old.items ++ known_text late near) }
{
    if let Some(card) = late {
        let told = format!(in alloc; "; card {card} has it, which is too late")?;
        return push_text(text, told.as_str());
    }
    match near {
        None => Ok(()),
        Some(known) => push_near(alloc, text, &known),
    }
}

/// Adds a name that is not defined, and what is known of it.
#[tactic(auto, unfolding(crate::specs::UnknownNames::unknown_hint))]
pub(crate) fn push_unknown(
    alloc: Global,
    text: &mut Vec<u8>,
    layout: &Layout,
    index: usize,
    line: &Line,
) -> Result<(), AllocError>
    requires { IsInRange line.now }
    ensures { OnOk result (text.new.items
        ≡ text.old.items ++ unknown_hint layout.now index line.now) }
{
    let Some(name) = unknown_name(layout, line) else {
        return Ok(());
    };
    push_text(text, ": ")?;
    push_name(text, &name)?;
    let late = first_card(layout.slots(), &name);
    let near = near_name(usable_by(line, index, layout.slots()), &name);
    push_known(alloc, text, late, near)
}
