//! The column of a card under which the caret of its fault stands.

ghost use Rattle.std.specs.Prelude.{◌≡◌, ◌≤◌, ◌<◌, length, not, position, IfSome};
ghost use Rattle.autocoder_statements.specs.{
  Characters.{is_blank},
  Limits.{longest_text},
  Statements.{operand_field},
};
ghost use Rattle.autocoder_layout.specs.Source.{IsInRange};
ghost use Rattle.source_reports.specs.Places.{stray, broken_column, kind_of, length_in, column_of_second, second_column, address_column, unknown_column, place_column, outside_column, place_of};

use crate::operand_hints::wrong_column;
use autocoder_layout::{Layout, Line, SourceFault, expressions_of};
use autocoder_statements::{
    Class, Operand, OperandKind, Statement, StatementFault, is_blank, label_field, operand_field,
    operation_field, read_operand,
};
use bcd::Code;
use cards::Card;

/// The first column of the label field.
const LABEL: usize = 6;

/// The first column of the operation field.
const OPERATION: usize = 16;

/// The first column of the operand field.
const OPERAND: usize = 21;

/// The index of the first character that is no blank.
pub(crate) fn first_filled(text: &[Code]) -> Option<usize>
    ensures index { result ≡ position (λ code. not (is_blank code)) text.now }
    ensures within { IfSome result (λ index. index < length text.now) }
{
    text.iter().position(|code| !is_blank(*code))
}

/// The index in a field of the first character behind a blank.
#[tactic(auto, unfolding(crate::specs::Places::stray))]
fn stray(field: &[Code]) -> Option<usize>
    ensures index { result ≡ stray field.now }
    ensures within { IfSome result (λ index. index < length field.now) }
{
    let word = Class::Filled.run(field);
    let Some(behind) = first_filled(&field[word..]) else {
        return None;
    };
    Some(word + behind)
}

/// The column of the first character behind a blank in the label field, or else in the operation
/// field.
#[tactic(auto, unfolding(crate::specs::Places::broken_column))]
fn broken_column(card: &Card) -> usize
    ensures { result ≡ broken_column card.now }
{
    if let Some(index) = stray(label_field(card)) {
        return LABEL + index;
    }
    if let Some(index) = stray(operation_field(card)) {
        return OPERATION + index;
    }
    OPERATION
}

/// The kind by which an operand that was read is read again.
fn kind_of(operand: &Operand) -> OperandKind
    ensures { result ≡ kind_of operand.now }
{
    match operand {
        Operand::Address(_) => OperandKind::Branch,
        Operand::Literal(_) => OperandKind::Field,
    }
}

/// How many characters an operand takes at the beginning of a card's operand field.
#[tactic(auto, unfolding(crate::specs::Places::length_in))]
fn length_on(card: &Card, first: &Operand) -> usize
    ensures length { result ≡ length_in (operand_field card.now) first.now }
    ensures within { result ≤ longest_text }
{
    match read_operand(kind_of(first), operand_field(card)) {
        Some((_, count)) => count,
        None => 0,
    }
}

/// The column of the second of two operands, behind the first one and a comma.
fn column_of_second(card: &Card, first: &Option<Operand>, second: &Option<Operand>) -> usize
    ensures { result ≡ column_of_second card.now first.now second.now }
{
    match (first, second) {
        (Some(first), Some(_)) => OPERAND + (length_on(card, first) + 1),
        _ => OPERAND,
    }
}

/// The column of the second operand of a card, if it has two.
fn second_column(card: &Card, line: &Line) -> usize
    ensures { result ≡ second_column card.now line.now }
{
    match line {
        Ok(Statement::Instruction { instruction, .. }) => {
            column_of_second(card, &instruction.first, &instruction.second)
        }
        _ => OPERAND,
    }
}

/// The column of the first of two addresses that is at fault, or another column.
fn address_column(card: &Card, line: &Line, first: bool, second: bool, other: usize) -> usize
    ensures { result ≡ address_column card.now line.now first second other }
{
    if first {
        return OPERAND;
    }
    if second {
        return second_column(card, line);
    }
    other
}

/// The column of the first name that is not defined.
#[tactic(auto, unfolding(crate::specs::Places::unknown_column))]
fn unknown_column(layout: &Layout, card: &Card, line: &Line) -> usize
    requires { IsInRange line.now }
    ensures { result ≡ unknown_column layout.now card.now line.now }
{
    let (first, second) = expressions_of(line);
    let is_first = layout.has_unknown_name(first);
    let is_second = layout.has_unknown_name(second);
    address_column(card, line, is_first, is_second, OPERAND)
}

/// The column of what is outside the storage, if that is no operand of an instruction or of `END`.
fn place_column(line: &Line) -> usize
    ensures { result ≡ place_column line.now }
{
    match line {
        Ok(Statement::Origin(_)) => OPERAND,
        Ok(Statement::Equate { .. }) => OPERAND,
        _ => OPERATION,
    }
}

/// The column of the first address that is outside the storage, or of the operation.
#[tactic(auto, unfolding(crate::specs::Places::outside_column))]
fn outside_column(layout: &Layout, card: &Card, line: &Line) -> usize
    requires { IsInRange line.now }
    ensures { result ≡ outside_column layout.now card.now line.now }
{
    let (first, second) = expressions_of(line);
    let is_first = layout.has_value_outside(first);
    let is_second = layout.has_value_outside(second);
    address_column(card, line, is_first, is_second, place_column(line))
}

/// The column of a card, from 1, under which the caret of its fault stands.
#[tactic(auto, unfolding(crate::specs::Places::place_of))]
pub(crate) fn place_of(
    layout: &Layout,
    card: &Card,
    line: &Line,
    fault: SourceFault,
) -> Option<usize>
    requires { IsInRange line.now }
    ensures { result ≡ place_of layout.now card.now line.now fault }
{
    match fault {
        SourceFault::NoMemory => None,
        SourceFault::Statement(StatementFault::BrokenField) => Some(broken_column(card)),
        SourceFault::Statement(StatementFault::UnknownOperation) => Some(OPERATION),
        SourceFault::Statement(StatementFault::Operand) => Some(wrong_column(card)),
        SourceFault::Statement(StatementFault::Label) => Some(LABEL),
        SourceFault::TakenLabel => Some(LABEL),
        SourceFault::UnknownName => Some(unknown_column(layout, card, line)),
        SourceFault::Outside => Some(outside_column(layout, card, line)),
        SourceFault::Reserved => Some(OPERATION),
        SourceFault::Filled => Some(OPERATION),
        SourceFault::NoEnd => None,
    }
}
