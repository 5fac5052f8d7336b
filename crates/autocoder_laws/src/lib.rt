//! Laws of the assembler: a card that spells something is read as just that, and the machine reads
//! what the assembler makes.
//!
//! **Spelling.** The definition of reading goes from the left, and each part takes the longest run
//! of its characters. The definitions here say, without reading, which texts spell a number, an
//! address, a constant, operands or a whole card. The laws join the two ([`cards_are_read`] and
//! those of its parts): each text that spells a thing is read as that thing, whatever comment comes
//! after it, and each text that is read as a thing spells it. A card says one thing at most, and it
//! has a fault exactly if it spells nothing.
//!
//! **Faults.** What it is to have each fault is defined without the others, by what each operation
//! wants of its card (`specs/Needs.antt`, `specs/Faults.antt`). By [`lowest_faults_are_told`] the
//! faults of a source are the lowest of each card.
//!
//! **Meaning.** The table of mnemonics is the assembler's, the table of operations the machine's.
//! By [`instructions_are_decoded`] they agree: the machine decodes the characters of an assembled
//! mnemonic as the operation that the mnemonic means, in the form of their length, and in reading
//! them can refuse them only for an address. By [`operands_are_read`] it reads their addresses as the positions
//! that the card's operands mean.
//!
//! **Back.** By [`statements_are_exact`] the assembler makes of the statement that an instruction's
//! characters have (`disassembly`) just these characters, and what it makes of operands that are
//! numbers has a statement.
#![tactic(auto)]

mod constants;
mod expressions;
mod faults;
mod instructions;
mod numbers;
mod operand_fields;
mod operands;
mod source_cards;
mod statements;

pub use constants::constants_are_read;
pub use expressions::expressions_are_read;
pub use faults::lowest_faults_are_told;
pub use instructions::instructions_are_decoded;
pub use numbers::numbers_are_read;
pub use operand_fields::operand_fields_are_read;
pub use operands::operands_are_read;
pub use source_cards::cards_are_read;
pub use statements::statements_are_exact;
