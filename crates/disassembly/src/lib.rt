//! Instructions of the machine as statements of Autocoder, and a source made of a storage.
//!
//! [`statement_of`] returns the statement of which the assembler makes an instruction's characters,
//! or none if there is none (`specs/Statements.antt`); [`statement_at`] does so for the instruction
//! at a position of a storage. [`push_statement`] writes it, with the names of a source where they
//! are given (`specs/Texts.antt`). That the assembler makes of it just these characters is a law of
//! `autocoder_laws`.
//!
//! [`code_of`] makes a source of what is in a storage from 081 on. How it finds the instructions,
//! the constants and the labels has no contract; but it has the assembler assemble what it made,
//! and compares. Its contract for the layer above: a source that it calls whole has no faults, and
//! its image has the character and the word mark of each position from 081 on
//! (`specs/Sources.antt`). By [`code_loads`] the loading cards of such a source bring the same
//! characters and marks into a machine. Memory is taken for all that is written.
#![tactic(auto)]

mod comparing;
mod constants;
mod flows;
mod instructions;
mod labels;
mod laws;
mod names;
mod operands;
mod parts;
mod pieces;
mod positions;
mod punching;
mod shown;
mod sources;
mod statements;
mod stored;
mod writing;

pub use laws::code_loads;
pub use operands::push_operands;
pub use shown::push_statement;
pub use sources::{Code, CodeOptions, code_of};
pub use statements::{Statement, statement_of};
pub use stored::statement_at;
