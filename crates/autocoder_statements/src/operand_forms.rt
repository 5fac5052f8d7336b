//! The forms of the operand field of an instruction.

ghost use Rattle.std.specs.Prelude.{◌≡◌, ◌≤◌, length, IfSome};
ghost use Rattle.autocoder_statements.specs.{
  Operands.{operands},
  Mnemonics.{operands_if, operands_in},
  Ranges.{AreOperandsInRange},
  Limits.{longest_text},
};

use crate::modifiers::{Modifiers, read_modifier, read_next_modifier};
use crate::operand_kinds::OperandKind;
use crate::operands::{Operands, read_next_operand, read_operand, with_modifier, without_modifier};
use bcd::Code;

/// The parts of an operand field, with commas between them.
#[derive(Clone, Copy)]
pub enum OperandForm {
    /// Nothing.
    Empty,
    /// A character.
    Modifier(Modifiers),
    /// An address.
    One(OperandKind),
    /// An address and a character.
    OneAndModifier(OperandKind, Modifiers),
    /// Two addresses.
    Two(OperandKind, OperandKind),
    /// Two addresses and a character.
    TwoAndModifier(OperandKind, OperandKind, Modifiers),
}

impl OperandForm {
    /// Reads the whole field in this form.
    #[tactic(auto, unfolding(crate::specs::Operands::operands))]
    pub fn read(self, text: &[Code]) -> Option<Operands>
        requires { length text.now ≤ longest_text }
        ensures operands { result ≡ operands self text.now }
        ensures range { IfSome result (λ found. AreOperandsInRange found) }
    {
        match self {
            OperandForm::Empty => without_modifier(None, None, text),
            OperandForm::Modifier(modifiers) => {
                let code = read_modifier(modifiers, text)?;
                Some(with_modifier(None, None, code))
            }
            OperandForm::One(kind) => {
                let (first, count) = read_operand(kind, text)?;
                without_modifier(Some(first), None, &text[count..])
            }
            OperandForm::OneAndModifier(kind, modifiers) => {
                let (first, count) = read_operand(kind, text)?;
                let code = read_next_modifier(modifiers, &text[count..])?;
                Some(with_modifier(Some(first), None, code))
            }
            OperandForm::Two(kind, other) => {
                let (first, count) = read_operand(kind, text)?;
                let rest = &text[count..];
                let (second, count) = read_next_operand(other, rest)?;
                without_modifier(Some(first), Some(second), &rest[count..])
            }
            OperandForm::TwoAndModifier(kind, other, modifiers) => {
                let (first, count) = read_operand(kind, text)?;
                let rest = &text[count..];
                let (second, count) = read_next_operand(other, rest)?;
                let code = read_next_modifier(modifiers, &rest[count..])?;
                Some(with_modifier(Some(first), Some(second), code))
            }
        }
    }
}

/// One to three forms.
#[derive(Clone, Copy)]
pub struct OperandForms {
    /// The form that is tried first.
    pub form: OperandForm,
    /// The form that is tried second.
    pub other: Option<OperandForm>,
    /// The form that is tried third.
    pub third: Option<OperandForm>,
}

/// The operands of a field in a form, if there is a form.
fn operands_if(form: Option<OperandForm>, text: &[Code]) -> Option<Operands>
    requires { length text.now ≤ longest_text }
    ensures operands { result ≡ operands_if form text.now }
    ensures range { IfSome result (λ found. AreOperandsInRange found) }
{
    form?.read(text)
}

impl OperandForms {
    /// The operands of a field, in the first form that it has.
    #[tactic(auto, unfolding(crate::specs::Mnemonics::operands_in))]
    pub fn read(&self, text: &[Code]) -> Option<Operands>
        requires { length text.now ≤ longest_text }
        ensures operands { result ≡ operands_in self.now text.now }
        ensures range { IfSome result (λ found. AreOperandsInRange found) }
    {
        if let Some(operands) = self.form.read(text) {
            return Some(operands);
        }
        if let Some(operands) = operands_if(self.other, text) {
            return Some(operands);
        }
        operands_if(self.third, text)
    }
}
