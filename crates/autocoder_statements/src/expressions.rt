//! Numbers and addresses at the beginning of a text.
//!
//! Each reader returns what it read and how many characters that takes.

ghost use Rattle.std.specs.Prelude.{◌≡◌, ◌<◌, ◌≤◌, length, IfSome};
ghost use Rattle.autocoder_statements.specs.{
  Ranges.{IsBaseInRange, IsAdjustmentInRange, IsExpressionInRange, IsPositiveInRange},
  Limits.{number_limit},
  Expressions.{number, adjustment_by, positive, signed_run, base, adjustment, index, expression, address},
};

use crate::characters::{Class, begins, begins_with_letter, number_of};
use crate::names::{Name, name_of};
use addresses::IndexLocation;
use bcd::Code;

/// The greatest number of digits of a number.
pub const MOST_DIGITS: usize = 5;

/// Every number is below this one.
pub const NUMBER_LIMIT: u32 = 100_000;

/// The beginning of an address.
#[derive(Clone, Copy)]
pub enum Base {
    /// A number below 100,000.
    Number(u32),
    /// A name.
    Name(Name),
}

/// A number added to a base or subtracted from it.
#[derive(Clone, Copy)]
pub enum Adjustment {
    /// Nothing.
    Nothing,
    /// This number, below 100,000, is added.
    Plus(u32),
    /// This number, below 100,000, is subtracted.
    Minus(u32),
}

/// A base and its adjustment.
#[derive(Clone, Copy)]
pub struct Expression {
    /// The name or number that it begins with.
    pub base: Base,
    /// The number added to the base or subtracted from it.
    pub adjustment: Adjustment,
}

/// An address operand: an expression and an index location.
#[derive(Clone, Copy)]
pub struct Address {
    /// The address without its index location.
    pub expression: Expression,
    /// The index location that it names, if any.
    pub index: Option<IndexLocation>,
}

/// Reads one to five digits.
#[tactic(auto, unfolding(crate::specs::Expressions::number))]
pub fn read_number(text: &[Code]) -> Option<(u32, usize)>
    ensures number { result ≡ number text.now }
    ensures below { IfSome result (λ found. found.0 < number_limit) }
    ensures within { IfSome result (λ found. found.1 ≤ length text.now) }
{
    let count = Class::Digit.run(text);
    if count == 0 {
        return None;
    }
    if count > MOST_DIGITS {
        return None;
    }
    Some((number_of(&text[..count]), count))
}

/// Reads one to five digits of a number that is not 0.
#[tactic(auto, unfolding(crate::specs::Expressions::positive))]
pub fn read_positive(text: &[Code]) -> Option<(u32, usize)>
    ensures number { result ≡ positive text.now }
    ensures range { IfSome result (λ found. IsPositiveInRange found.0) }
    ensures within { IfSome result (λ found. found.1 ≤ length text.now) }
{
    let (number, count) = read_number(text)?;
    if number == 0 {
        return None;
    }
    Some((number, count))
}

/// The number of digits after the sign that a text begins with.
#[tactic(auto, unfolding(crate::specs::Expressions::signed_run))]
pub fn signed_run(text: &[Code]) -> usize
    ensures run { result ≡ signed_run text.now }
    ensures within { result ≤ length text.now }
    ensures below { 0 < result → result < length text.now }
{
    if begins(text, b"&") {
        return Class::Digit.run(&text[1..]);
    }
    if begins(text, b"-") {
        return Class::Digit.run(&text[1..]);
    }
    0
}

/// Reads the base of an address: a name, or else a number.
#[tactic(auto, unfolding(crate::specs::Expressions::base))]
fn read_base(text: &[Code]) -> Option<(Base, usize)>
    ensures base { result ≡ base text.now }
    ensures range { IfSome result (λ found. IsBaseInRange found.0) }
    ensures within { IfSome result (λ found. found.1 ≤ length text.now) }
{
    if begins_with_letter(text) {
        let count = Class::LetterOrDigit.run(text);
        let name = name_of(&text[..count])?;
        return Some((Base::Name(name), count));
    }
    let (number, count) = read_number(text)?;
    Some((Base::Number(number), count))
}

/// The adjustment by a number that is added or subtracted.
fn adjustment_by(plus: bool, number: u32) -> Adjustment
    requires { number < number_limit }
    ensures adjustment { result ≡ adjustment_by plus number }
    ensures range { IsAdjustmentInRange result }
{
    if plus {
        Adjustment::Plus(number)
    } else {
        Adjustment::Minus(number)
    }
}

/// Reads an adjustment: a number after a sign, or `Nothing` if no digit follows a sign.
#[tactic(auto, unfolding(crate::specs::Expressions::adjustment))]
fn read_adjustment(text: &[Code]) -> Option<(Adjustment, usize)>
    ensures adjustment { result ≡ adjustment text.now }
    ensures range { IfSome result (λ found. IsAdjustmentInRange found.0) }
    ensures within { IfSome result (λ found. found.1 ≤ length text.now) }
{
    if signed_run(text) == 0 {
        return Some((Adjustment::Nothing, 0));
    }
    let (number, count) = read_number(&text[1..])?;
    Some((adjustment_by(begins(text, b"&"), number), 1 + count))
}

/// Reads the index location that is named, if any.
#[tactic(auto, unfolding(crate::specs::Expressions::index))]
fn read_index(text: &[Code]) -> (Option<IndexLocation>, usize)
    ensures index { result ≡ index text.now }
    ensures within { result.1 ≤ length text.now }
{
    if begins(text, b"&X1") {
        return (Some(IndexLocation::First), 3);
    }
    if begins(text, b"&X2") {
        return (Some(IndexLocation::Second), 3);
    }
    if begins(text, b"&X3") {
        return (Some(IndexLocation::Third), 3);
    }
    (None, 0)
}

/// Reads a base and its adjustment.
#[tactic(auto, unfolding(crate::specs::Expressions::expression))]
pub fn read_expression(text: &[Code]) -> Option<(Expression, usize)>
    ensures expression { result ≡ expression text.now }
    ensures range { IfSome result (λ found. IsExpressionInRange found.0) }
    ensures within { IfSome result (λ found. found.1 ≤ length text.now) }
{
    let (base, base_count) = read_base(text)?;
    let (adjustment, count) = read_adjustment(&text[base_count..])?;
    Some((Expression { base, adjustment }, base_count + count))
}

/// Reads an expression and an index location.
#[tactic(auto, unfolding(crate::specs::Expressions::address))]
pub fn read_address(text: &[Code]) -> Option<(Address, usize)>
    ensures address { result ≡ address text.now }
    ensures range { IfSome result (λ found. IsExpressionInRange found.0.expression) }
    ensures within { IfSome result (λ found. found.1 ≤ length text.now) }
{
    let (expression, expression_count) = read_expression(text)?;
    let (index, count) = read_index(&text[expression_count..]);
    Some((Address { expression, index }, expression_count + count))
}
