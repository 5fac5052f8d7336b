//! An address outside the storage: its number, and the size of the storage.

ghost use Rattle.std.specs.Prelude.{◌≡◌, ◌++◌, ◌≤◌, IfSome, Some, decimal, OnOk};
ghost use Rattle.autocoder_layout.specs.{Bounds.{farthest}, Source.{IsInRange}};
ghost use Rattle.autocoder_statements.specs.Ranges.{IsExpressionInRange, IsAdjustmentInRange};
ghost use Rattle.source_reports.specs.OutsideAddresses.{either_expression, outside_expression, number_text, reached_text, number_hint, outside_hint};

use crate::pieces::push_text;
use autocoder_layout::{Layout, Line, base_number, expressions_of};
use autocoder_statements::{Adjustment, Expression, Statement};
use std::alloc::AllocError;
use texts::push_decimal;

/// The first of two expressions if that one is at fault, or the second if that one is.
fn either_expression(
    is_first: bool,
    is_second: bool,
    first: &Option<Expression>,
    second: &Option<Expression>,
) -> Option<Expression>
    ensures { result ≡ either_expression is_first is_second first.now second.now }
{
    if is_first {
        return *first;
    }
    if is_second {
        return *second;
    }
    None
}

/// The first expression of a card that is outside the storage.
#[tactic(auto, unfolding(crate::specs::OutsideAddresses::outside_expression))]
fn outside_expression(layout: &Layout, line: &Line) -> Option<Expression>
    requires { IsInRange line.now }
    ensures expression { result ≡ outside_expression layout.now line.now }
    ensures range { IfSome result IsExpressionInRange }
{
    match line {
        Ok(Statement::Origin(expression)) => Some(*expression),
        Ok(Statement::Equate { expression, .. }) => Some(*expression),
        _ => {
            let (first, second) = expressions_of(line);
            let is_first = layout.has_value_outside(first);
            let is_second = layout.has_value_outside(second);
            either_expression(is_first, is_second, &first, &second)
        }
    }
}

/// Adds a number with its sign, if it is negative.
fn push_signed(text: &mut Vec<u8>, is_negative: bool, number: u32) -> Result<(), AllocError>
    ensures { OnOk result (text.new.items ≡ text.old.items ++ number_text is_negative number) }
{
    let sign = if is_negative { "-" } else { "" };
    push_text(text, sign)?;
    push_decimal(text, number as usize)
}

/// Adds the number of a base with an adjustment.
fn push_reached(text: &mut Vec<u8>, number: u32, adjustment: Adjustment) -> Result<(), AllocError>
    requires number { number ≤ farthest }
    requires range { IsAdjustmentInRange adjustment }
    ensures { OnOk result (text.new.items ≡ text.old.items ++ reached_text adjustment number) }
{
    match adjustment {
        Adjustment::Nothing => push_signed(text, false, number),
        Adjustment::Plus(more) => push_signed(text, false, number + more),
        Adjustment::Minus(less) => match number.checked_sub(less) {
            Some(number) => push_signed(text, false, number),
            None => push_signed(text, true, less - number),
        },
    }
}

/// Adds the size of the storage behind some words.
fn push_size(text: &mut Vec<u8>, words: &str, size: u16) -> Result<(), AllocError>
    ensures { OnOk result (text.new.items ≡ text.old.items ++ (words.now ++ decimal size)) }
{
    push_text(text, words)?;
    push_decimal(text, size as usize)
}

/// Adds the number of an address and the size of the storage.
fn push_number_and_size(
    text: &mut Vec<u8>,
    size: u16,
    number: u32,
    adjustment: Adjustment,
) -> Result<(), AllocError>
    requires number { number ≤ farthest }
    requires range { IsAdjustmentInRange adjustment }
    ensures { OnOk result (text.new.items
        ≡ text.old.items ++ number_hint size adjustment (Some number)) }
{
    push_text(text, ": ")?;
    push_reached(text, number, adjustment)?;
    push_size(text, ", and the size is ", size)?;
    Ok(())
}

/// Adds the number of an address that is outside the storage, and the storage's size.
#[tactic(auto, unfolding(crate::specs::OutsideAddresses::outside_hint))]
pub(crate) fn push_outside(
    text: &mut Vec<u8>,
    layout: &Layout,
    line: &Line,
) -> Result<(), AllocError>
    requires { IsInRange line.now }
    ensures { OnOk result (text.new.items ≡ text.old.items ++ outside_hint layout.now line.now) }
{
    let size = layout.size();
    let Some(expression) = outside_expression(layout, line) else {
        return push_size(text, "; the size is ", size);
    };
    let Some(number) = base_number(layout.slots(), expression.base) else {
        return push_size(text, "; the size is ", size);
    };
    push_number_and_size(text, size, number, expression.adjustment)
}
