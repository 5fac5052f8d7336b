//! The operands of an instruction.

ghost use Rattle.std.specs.Prelude.{◌≡◌, ◌≤◌, length, IfSome};
ghost use Rattle.autocoder_statements.specs.{
  Operands.{begins_literal, operand, next_operand, without_modifier, with_modifier},
  Ranges.{IsOperandInRange, AreOperandsInRange},
  Limits.{longest_text},
};

use crate::characters::{begins, is_ended};
use crate::constants::read_literal;
use crate::expressions::{Address, read_address};
use crate::operand_kinds::OperandKind;
use crate::texts::Text;
use bcd::Code;

/// An operand of an instruction.
#[derive(Clone, Copy)]
pub enum Operand {
    /// An address.
    Address(Address),
    /// Characters that are to be placed; the operand means their address.
    Literal(Text),
}

/// The operands in an operand field.
#[derive(Clone, Copy)]
pub struct Operands {
    /// The first address.
    pub first: Option<Operand>,
    /// The second address.
    pub second: Option<Operand>,
    /// The last character of the instruction.
    pub modifier: Option<Code>,
}

/// Whether a text begins like a literal, as no address does.
fn begins_literal(text: &[Code]) -> bool
    ensures { result ≡ begins_literal text.now }
{
    begins(text, b"@") || (begins(text, b"&") || begins(text, b"-"))
}

/// Reads an operand of a kind.
#[tactic(auto, unfolding(crate::specs::Operands::operand))]
pub fn read_operand(kind: OperandKind, text: &[Code]) -> Option<(Operand, usize)>
    requires { length text.now ≤ longest_text }
    ensures operand { result ≡ operand kind text.now }
    ensures range { IfSome result (λ found. IsOperandInRange found.0) }
    ensures within { IfSome result (λ found. found.1 ≤ length text.now) }
{
    if kind == OperandKind::Field && begins_literal(text) {
        let (literal, count) = read_literal(text)?;
        return Some((Operand::Literal(literal), count));
    }
    let (address, count) = read_address(text)?;
    Some((Operand::Address(address), count))
}

/// Reads an operand of a kind after a comma.
#[tactic(auto, unfolding(crate::specs::Operands::next_operand))]
pub fn read_next_operand(kind: OperandKind, text: &[Code]) -> Option<(Operand, usize)>
    requires { length text.now ≤ longest_text }
    ensures operand { result ≡ next_operand kind text.now }
    ensures range { IfSome result (λ found. IsOperandInRange found.0) }
    ensures within { IfSome result (λ found. found.1 ≤ length text.now) }
{
    if !begins(text, b",") {
        return None;
    }
    let (operand, count) = read_operand(kind, &text[1..])?;
    Some((operand, 1 + count))
}

/// Operands without a last character, if the field is ended after them.
pub fn without_modifier(
    first: Option<Operand>,
    second: Option<Operand>,
    text: &[Code],
) -> Option<Operands>
    ensures operands { result ≡ without_modifier first second text.now }
    ensures range { IfSome first IsOperandInRange → IfSome second IsOperandInRange →
        IfSome result AreOperandsInRange }
{
    if !is_ended(text) {
        return None;
    }
    Some(Operands {
        first,
        second,
        modifier: None,
    })
}

/// Operands and a last character.
pub fn with_modifier(first: Option<Operand>, second: Option<Operand>, code: Code) -> Operands
    ensures { result ≡ with_modifier first second code }
{
    Operands {
        first,
        second,
        modifier: Some(code),
    }
}
