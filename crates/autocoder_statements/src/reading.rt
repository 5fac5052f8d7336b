//! A card of a source, read as a statement.

ghost use Rattle.std.specs.Prelude.{◌≡◌, ◌≤◌, length, IfSome, IfOk, ◌||◌, if◌then◌else◌};
ghost use Rattle.autocoder_statements.specs.{
  Expressions.{positive, expression},
  Constants.{constant},
  Statements.{must_label, may_label, is_broken, label_field, operation_field, may_not_label, whole, size, start, statement_of, statement_on},
  Ranges.{IsExpressionInRange, IsConstantInRange, IsPositiveInRange, IsStatementInRange},
  Limits.{longest_text},
};

use crate::characters::{Class, begins, is_ended};
use crate::columns::{
    is_broken, is_comment, label_field, operand_field, operation_field, operation_in,
};
use crate::constants::{Constant, read_constant};
use crate::expressions::{Expression, read_expression, read_positive};
use crate::faults::StatementFault;
use crate::names::{Name, name_of};
use crate::operations::{Instruction, Mnemonic, Operation};
use bcd::Code;
use cards::Card;
use core_store::Size;

/// The statement of a card.
#[derive(Clone, Copy)]
pub enum Statement {
    /// No meaning to the assembler.
    Comment,
    /// A heading.
    Job,
    /// The size of storage.
    Control(Size),
    /// The place of the next cards.
    Origin(Expression),
    /// A name for an address.
    Equate {
        label: Name,
        expression: Expression,
    },
    /// A constant, with or without a word mark.
    Constant {
        label: Option<Name>,
        marked: bool,
        constant: Constant,
    },
    /// A number of positions that stay as they are, at least 1 and below 100,000.
    Area {
        label: Option<Name>,
        positions: u32,
    },
    /// The end of the source, and the start of its program. It may not have a label, but an `END`
    /// without a start is a fault of its operands first, and only the whole source shows that.
    End {
        start: Option<Expression>,
        labelled: bool,
    },
    /// An instruction.
    Instruction {
        label: Option<Name>,
        instruction: Instruction,
    },
}

/// The label of a card that requires one.
#[tactic(auto, unfolding(crate::specs::Statements::must_label))]
fn must_label(field: &[Code]) -> Result<Name, StatementFault>
    ensures { result ≡ must_label field.now }
{
    match name_of(&field[..Class::Filled.run(field)]) {
        Some(name) => Ok(name),
        None => Err(StatementFault::Label),
    }
}

/// The label of a card that may have one.
#[tactic(auto, unfolding(crate::specs::Statements::may_label))]
fn may_label(field: &[Code]) -> Result<Option<Name>, StatementFault>
    ensures { result ≡ may_label field.now }
{
    if Class::Filled.run(field) == 0 {
        return Ok(None);
    }
    let name = must_label(field)?;
    Ok(Some(name))
}

/// The statement of a card that may not have a label.
#[tactic(auto, unfolding(crate::specs::Statements::may_not_label))]
fn may_not_label(field: &[Code], statement: Statement) -> Result<Statement, StatementFault>
    ensures statement { result ≡ may_not_label field.now statement }
    ensures same { IfOk result (λ found. found ≡ statement) }
{
    if Class::Filled.run(field) == 0 {
        Ok(statement)
    } else {
        Err(StatementFault::Label)
    }
}

/// The value that was read, if it takes the whole field.
#[tactic(auto, unfolding(crate::specs::Statements::whole))]
fn whole<T: Copy>(field: &[Code], found: Option<(T, usize)>) -> Option<T>
    requires { IfSome found (λ found. found.1 ≤ length field.now) }
    ensures { result ≡ whole field.now found }
{
    let (value, count) = found?;
    if !is_ended(&field[count..]) {
        return None;
    }
    Some(value)
}

/// The expression that takes a whole field.
fn whole_expression(field: &[Code]) -> Option<Expression>
    ensures expression { result ≡ whole field.now (expression field.now) }
    ensures range { IfSome result IsExpressionInRange }
{
    whole(field, read_expression(field))
}

/// The constant that takes a whole field.
fn whole_constant(field: &[Code]) -> Option<Constant>
    requires { length field.now ≤ longest_text }
    ensures constant { result ≡ whole field.now (constant field.now) }
    ensures range { IfSome result IsConstantInRange }
{
    whole(field, read_constant(field))
}

/// The number, not 0, that takes a whole field.
fn whole_positive(field: &[Code]) -> Option<u32>
    ensures number { result ≡ whole field.now (positive field.now) }
    ensures range { IfSome result IsPositiveInRange }
{
    whole(field, read_positive(field))
}

/// Reads the digit that gives the size.
#[tactic(auto, unfolding(crate::specs::Statements::size))]
fn read_size(text: &[Code]) -> Option<(Size, usize)>
    ensures size { result ≡ size text.now }
    ensures within { IfSome result (λ found. found.1 ≤ length text.now) }
{
    if begins(text, b"1") {
        return Some((Size::Positions1400, 1));
    }
    if begins(text, b"2") {
        return Some((Size::Positions2000, 1));
    }
    if begins(text, b"3") {
        return Some((Size::Positions4000, 1));
    }
    if begins(text, b"4") {
        return Some((Size::Positions8000, 1));
    }
    if begins(text, b"5") {
        return Some((Size::Positions12000, 1));
    }
    if begins(text, b"6") {
        return Some((Size::Positions16000, 1));
    }
    None
}

/// Reads the start of a program: an empty field, or an expression.
#[tactic(auto, unfolding(crate::specs::Statements::start))]
fn read_start(field: &[Code]) -> Option<Option<Expression>>
    ensures start { result ≡ start field.now }
    ensures range { IfSome result (λ start. IfSome start IsExpressionInRange) }
{
    if is_ended(field) {
        return Some(None);
    }
    let expression = whole_expression(field)?;
    Some(Some(expression))
}

/// The statement of a `CTL`.
#[tactic(auto, unfolding(crate::specs::Statements::statement_of))]
fn control_statement(label: &[Code], field: &[Code]) -> Result<Statement, StatementFault>
    ensures statement { result ≡ statement_of Operation.Control label.now field.now }
    ensures range { IfOk result IsStatementInRange }
{
    let Some(size) = whole(field, read_size(field)) else {
        return Err(StatementFault::Operand);
    };
    may_not_label(label, Statement::Control(size))
}

/// The statement of an `ORG`.
#[tactic(auto, unfolding(crate::specs::Statements::statement_of))]
fn origin_statement(label: &[Code], field: &[Code]) -> Result<Statement, StatementFault>
    ensures statement { result ≡ statement_of Operation.Origin label.now field.now }
    ensures range { IfOk result IsStatementInRange }
{
    let Some(expression) = whole_expression(field) else {
        return Err(StatementFault::Operand);
    };
    may_not_label(label, Statement::Origin(expression))
}

/// The statement of an `EQU`.
#[tactic(auto, unfolding(crate::specs::Statements::statement_of))]
fn equate_statement(label: &[Code], field: &[Code]) -> Result<Statement, StatementFault>
    ensures statement { result ≡ statement_of Operation.Equate label.now field.now }
    ensures range { IfOk result IsStatementInRange }
{
    let Some(expression) = whole_expression(field) else {
        return Err(StatementFault::Operand);
    };
    let label = must_label(label)?;
    Ok(Statement::Equate { label, expression })
}

/// The statement of a `DCW`, which has a word mark, or of a `DC`.
#[tactic(auto, unfolding(crate::specs::Statements::statement_of))]
fn constant_statement(
    marked: bool,
    label: &[Code],
    field: &[Code],
) -> Result<Statement, StatementFault>
    requires { length field.now ≤ longest_text }
    ensures statement { result ≡ statement_of
        (if marked then Operation.MarkedConstant else Operation.Constant) label.now field.now }
    ensures range { IfOk result IsStatementInRange }
{
    let Some(constant) = whole_constant(field) else {
        return Err(StatementFault::Operand);
    };
    let label = may_label(label)?;
    Ok(Statement::Constant {
        label,
        marked,
        constant,
    })
}

/// The statement of a `DS`.
#[tactic(auto, unfolding(crate::specs::Statements::statement_of))]
fn area_statement(label: &[Code], field: &[Code]) -> Result<Statement, StatementFault>
    ensures statement { result ≡ statement_of Operation.Area label.now field.now }
    ensures range { IfOk result IsStatementInRange }
{
    let Some(positions) = whole_positive(field) else {
        return Err(StatementFault::Operand);
    };
    let label = may_label(label)?;
    Ok(Statement::Area { label, positions })
}

/// The statement of an `END`.
#[tactic(auto, unfolding(crate::specs::Statements::statement_of))]
fn end_statement(label: &[Code], field: &[Code]) -> Result<Statement, StatementFault>
    ensures statement { result ≡ statement_of Operation.End label.now field.now }
    ensures range { IfOk result IsStatementInRange }
{
    let Some(start) = read_start(field) else {
        return Err(StatementFault::Operand);
    };
    Ok(Statement::End {
        start,
        labelled: Class::Filled.run(label) != 0,
    })
}

/// The statement of a mnemonic.
#[tactic(auto, unfolding(crate::specs::Statements::statement_of))]
fn instruction_statement(
    mnemonic: Mnemonic,
    label: &[Code],
    field: &[Code],
) -> Result<Statement, StatementFault>
    requires { length field.now ≤ longest_text }
    ensures statement { result ≡ statement_of (Operation.Instruction mnemonic) label.now field.now }
    ensures range { IfOk result IsStatementInRange }
{
    let Some(instruction) = mnemonic.instruction(field) else {
        return Err(StatementFault::Operand);
    };
    let label = may_label(label)?;
    Ok(Statement::Instruction { label, instruction })
}

/// The statement of an operation, by the fields of the label and of the operands.
#[tactic(auto, unfolding(crate::specs::Statements::statement_of))]
fn statement_of(
    operation: Operation,
    label: &[Code],
    field: &[Code],
) -> Result<Statement, StatementFault>
    requires { length field.now ≤ longest_text }
    ensures statement { result ≡ statement_of operation label.now field.now }
    ensures range { IfOk result IsStatementInRange }
{
    match operation {
        Operation::Job => may_not_label(label, Statement::Job),
        Operation::Control => control_statement(label, field),
        Operation::Origin => origin_statement(label, field),
        Operation::Equate => equate_statement(label, field),
        Operation::MarkedConstant => constant_statement(true, label, field),
        Operation::Constant => constant_statement(false, label, field),
        Operation::Area => area_statement(label, field),
        Operation::End => end_statement(label, field),
        Operation::Instruction(mnemonic) => instruction_statement(mnemonic, label, field),
    }
}

/// Whether the field of the label or of the operation has a character after its first blank.
fn has_broken_field(card: &Card) -> bool
    ensures { result ≡ (is_broken (label_field card.now) || is_broken (operation_field card.now)) }
{
    is_broken(label_field(card)) || is_broken(operation_field(card))
}

/// Returns the statement of a card, or else its lowest fault.
#[tactic(auto, unfolding(crate::specs::Statements::statement_on))]
pub fn read(card: &Card) -> Result<Statement, StatementFault>
    ensures statement { result ≡ statement_on card.now }
    ensures range { IfOk result IsStatementInRange }
{
    if is_comment(card) {
        return Ok(Statement::Comment);
    }
    if has_broken_field(card) {
        return Err(StatementFault::BrokenField);
    }
    let Some(operation) = operation_in(operation_field(card)) else {
        return Err(StatementFault::UnknownOperation);
    };
    statement_of(operation, label_field(card), operand_field(card))
}
