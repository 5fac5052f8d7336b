//! The statements of an Autocoder source: what each card says, or its lowest fault.
//!
//! A card has a label in columns 6 to 15, an operation in 16 to 20 and an operand field in 21 to
//! 72; `*` in column 6 makes it a comment. The contract for the layer above: `read` returns the
//! statement that `specs/Statements.antt` defines for a card, by a definition for each thing that a
//! field may begin with and by one table of operations (`specs/Mnemonics.antt`). Its numbers are
//! below 100,000, its texts have at most 52 characters (`specs/Ranges.antt`). No call takes memory.
//!
//! Three laws. Digits are read as the number that they spell ([`a_number_is_read`]). The table of
//! operations has each word at most once ([`a_word_names_one_operation`]). A field without an
//! operand fits no form with one operand or two, and a field that fits a form with one fits none
//! with two ([`a_field_has_one_form`]).
#![tactic(auto)]

mod characters;
mod columns;
mod constants;
mod expressions;
mod faults;
mod laws;
mod mnemonics;
mod modifiers;
mod names;
mod operand_forms;
mod operand_kinds;
mod operands;
mod operations;
mod reading;
mod texts;

pub use characters::{Class, is_blank};
pub use columns::{is_comment, label_field, operand_field, operation_field, operation_of};
pub use constants::Constant;
pub use expressions::{Address, Adjustment, Base, Expression, NUMBER_LIMIT};
pub use faults::StatementFault;
pub use laws::{a_field_has_one_form, a_number_is_read, a_word_names_one_operation};
pub use mnemonics::{MnemonicRow, mnemonic_rows};
pub use modifiers::Modifiers;
pub use names::{LONGEST_NAME, Name};
pub use operand_forms::{OperandForm, OperandForms};
pub use operand_kinds::OperandKind;
pub use operands::{Operand, read_operand};
pub use operations::{Instruction, Mnemonic, Operation, code_of};
pub use reading::{Statement, read};
pub use texts::{LONGEST_TEXT, Text};
