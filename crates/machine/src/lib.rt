//! The machine: an IBM 1401 with a card reader, a card punch and a printer.
//!
//! A machine works on storage, registers and units. `specs/Operations.antt` is the table of
//! operations, by which an instruction is decoded; `specs/Effect.antt` defines what it does to
//! them, `specs/Run.antt` defines steps and whole runs. The contract for the layers above: `run(n)`
//! is n steps, and the meter rises by the number of instructions attempted. Everything is generic
//! over `Core`. Memory is taken by `load` and `from_parts`, and by an instruction that punches or
//! prints. A machine of the plain profile has no stacker selection: `K` is a check, and where no
//! pocket was chosen before, as after the load button, all cards are in the normal pocket
//! ([`runs_only_add`]).
//!
//! A machine does not look at what it has punched and printed; it only counts it. So a run may begin
//! without the earlier cards and lines ([`outputs_are_put_back`]): it does what it would do with
//! them ([`earlier_outputs_stay_in_front`]).
#![tactic(auto)]

mod at_once;
mod branches;
mod cache;
mod characters;
mod cycle;
mod decode;
mod earlier;
mod forms;
mod instruction;
mod kinds;
mod meter;
mod named;
mod numbers;
mod operations;
mod parts;
mod ranges;
mod reports;
mod runs;
mod shapes;
mod standings;
mod whole_runs;

pub use decode::{Word, character, instructions_end_at_marks, word_length};
pub use earlier::{earlier_outputs_stay_in_front, outputs_are_put_back, outputs_are_set_aside};
pub use forms::{addresses_in, allows, has_form};
pub use instruction::Instruction;
pub use meter::Meter;
pub use numbers::{compare_number, standing_number, waiting_number};
pub use parts::Parts;
pub use reports::Report;
pub use runs::{Machine, Ran, runs_add, runs_only_add, stays_in_range};
pub use standings::{Event, Standing, StandingAt};
pub use whole_runs::{MOST_INSTRUCTIONS, machine_after};
