//! The operation field: the orders to the assembler and the mnemonics of instructions.

ghost use Rattle.std.specs.Prelude.{◌≡◌, ◌≤◌, length, IfSome, option_map};
ghost use Rattle.autocoder_statements.specs.{
  Characters.{begins},
  Mnemonics.{orders, mnemonics, entry, operation_named, code_of, instruction, or_else, present, instruction_length},
  Ranges.{IsInstructionInRange},
  Limits.{longest_text},
};

use crate::characters::begins;
use crate::mnemonics::mnemonic_rows;
use crate::operand_forms::OperandForms;
use crate::operands::Operand;
use bcd::Code;

/// The number of columns of the operation field.
pub const LONGEST_OPERATION: usize = 5;

/// The operation that a mnemonic means, and the forms of its operand field.
#[derive(Clone, Copy)]
pub struct Mnemonic {
    /// The glyph of the operation.
    pub operation: u8,
    /// The glyph of the last character, if it is fixed.
    pub modifier: Option<u8>,
    /// The forms of its operand field.
    pub forms: OperandForms,
}

/// The operation of a card.
#[derive(Clone, Copy)]
pub enum Operation {
    /// A heading.
    Job,
    /// The size of storage.
    Control,
    /// The place of the next cards.
    Origin,
    /// A name for an address.
    Equate,
    /// A constant with a word mark.
    MarkedConstant,
    /// A constant without a word mark.
    Constant,
    /// Positions that stay as they are.
    Area,
    /// The end of the source.
    End,
    /// An instruction.
    Instruction(Mnemonic),
}

/// An instruction as written on its card.
#[derive(Clone, Copy)]
pub struct Instruction {
    /// The operation's character.
    pub operation: Code,
    /// The first address.
    pub first: Option<Operand>,
    /// The second address.
    pub second: Option<Operand>,
    /// The last character.
    pub modifier: Option<Code>,
}

/// The orders to the assembler by their names.
const ORDERS: [([u8; LONGEST_OPERATION], Operation); 8] = [
    (*b"JOB  ", Operation::Job),
    (*b"CTL  ", Operation::Control),
    (*b"ORG  ", Operation::Origin),
    (*b"EQU  ", Operation::Equate),
    (*b"DCW  ", Operation::MarkedConstant),
    (*b"DC   ", Operation::Constant),
    (*b"DS   ", Operation::Area),
    (*b"END  ", Operation::End),
];

/// Whether a word is this name.
fn is_named(word: &[Code], name: [u8; LONGEST_OPERATION]) -> bool
    ensures { result ≡ begins name word.now }
{
    begins(word, &name)
}

/// The entry of a word in a table.
fn entry<T: Copy>(table: &[([u8; LONGEST_OPERATION], T)], word: &[Code]) -> Option<T>
    ensures { result ≡ entry table.now word.now }
{
    for index in 0..table.len() {
        let (name, found) = table[index];
        if is_named(word, name) {
            return Some(found);
        }
    }
    None
}

/// The order that a word names.
fn order_named(word: &[Code]) -> Option<Operation>
    ensures { result ≡ entry orders word.now }
{
    entry(&ORDERS, word)
}

/// The entry of a word in the table of mnemonics.
fn row_named(word: &[Code]) -> Option<(u8, Option<u8>, OperandForms)>
    ensures { result ≡ entry mnemonics word.now }
{
    entry(mnemonic_rows(), word)
}

/// The operation that a word of five characters names.
#[tactic(auto, unfolding(crate::specs::Mnemonics::operation_named))]
pub fn operation_named(word: &[Code]) -> Option<Operation>
    ensures { result ≡ operation_named word.now }
{
    if let Some(operation) = order_named(word) {
        return Some(operation);
    }
    let (operation, modifier, forms) = row_named(word)?;
    Some(Operation::Instruction(Mnemonic {
        operation,
        modifier,
        forms,
    }))
}

/// Returns the character of a glyph; the blank where it is that of none.
pub fn code_of(glyph: u8) -> Code
    ensures { result ≡ code_of glyph }
{
    match Code::from_glyph(glyph) {
        Some(code) => code,
        None => Code::blank(),
    }
}

/// The last character: the one that was read, or else the fixed one.
fn last(read: Option<Code>, fixed: Option<u8>) -> Option<Code>
    ensures { result ≡ or_else read (option_map code_of fixed) }
{
    if read.is_some() {
        return read;
    }
    Some(code_of(fixed?))
}

impl Mnemonic {
    /// The instruction with these operands, if the whole field has one of the forms.
    #[tactic(auto, unfolding(crate::specs::Mnemonics::instruction))]
    pub fn instruction(&self, text: &[Code]) -> Option<Instruction>
        requires { length text.now ≤ longest_text }
        ensures instruction { result ≡ instruction self.now text.now }
        ensures range { IfSome result (λ found. IsInstructionInRange found) }
    {
        let operands = self.forms.read(text)?;
        Some(Instruction {
            operation: code_of(self.operation),
            first: operands.first,
            second: operands.second,
            modifier: last(operands.modifier, self.modifier),
        })
    }
}

/// 1 if there is a value, else 0.
fn present<T: Copy>(part: Option<T>) -> u16
    ensures present { result ≡ present part }
    ensures most { result ≤ 1 }
{
    if part.is_some() { 1 } else { 0 }
}

impl Instruction {
    /// The number of positions that the instruction takes.
    pub fn length(&self) -> u16
        ensures { result ≡ instruction_length self.now }
    {
        1 + 3 * present(self.first) + 3 * present(self.second) + present(self.modifier)
    }
}
