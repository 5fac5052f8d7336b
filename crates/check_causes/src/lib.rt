//! Why a check stops an instruction of the machine, told as a cause and in words.
//!
//! A machine tests in a fixed order whether an instruction can be carried out, and changes nothing
//! before. The first test that fails is a check, which has only a name; a [`Cause`] says what was
//! wrong, and where. `specs/Causes.antt` defines the cause of the instruction at register I, test
//! by test in the machine's order. The contract for the layer above: [`cause_of`] returns exactly
//! that cause, whatever the standing. A check changes nothing but the standing, so the machine that
//! a check left is asked. Everything is generic over `Core`, and no call takes memory.
//!
//! Laws, of all storages, registers and units: a cause is told exactly where a check stops the
//! instruction, and it is one of that check ([`causes_are_of_checks`]); and what its words say is
//! so ([`causes_are_so`]). What they say is `IsSo` of `specs/Sentences.antt`, in the words of the
//! subject: by positions, marks, digits and counts, not by what the code computes.
#![tactic(auto)]

mod causes;
mod devices;
mod digits;
mod forms;
mod laws;
mod operands;
mod operations;
mod places;
mod telling;
mod words;
mod worked;
mod works;

pub use causes::Cause;
pub use laws::{causes_are_of_checks, causes_are_so};
pub use telling::cause_of;
pub use words::word_length;
pub use worked::fields_of;
