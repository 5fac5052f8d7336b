//! A machine at work on the bench: the trace of a run, its profile, and the dump of a machine.
//!
//! All that is shown is a function of the machine that is loaded and of a number of steps: after so
//! many steps it is `after` of `machine`, so no option of the bench changes what a program does. A
//! run has at most [`MOST_INSTRUCTIONS`](machine::MOST_INSTRUCTIONS) attempts, and may end at a
//! stop before (`specs/Ends.antt`). The contract for the layer above: [`trace`] returns exactly the
//! text of `specs/Traces.antt`, a check with its cause by `check_causes`; [`dump`] that of
//! `specs/Dumps.antt`, and [`profile`] that of `specs/Profiles.antt`; each fails only if there is
//! no memory. A trace and a profile end with the report of the machine at the end of the run
//! (`specs/Reports.antt`); without a stop that is the machine after a whole run. [`Names`] are
//! those of a source without faults (`specs/Names.antt`), by which a text says an address
//! (`specs/Addresses.antt`). Who goes on by single attempts uses the calls that make these texts:
//! [`push_shown`] and [`push_machine`]. An instruction's statement is that of `disassembly`
//! (`specs/Statements.antt`).
//!
//! Laws: a run ends at the first stop that it comes to ([`runs_end_at_the_first_stop`]), and
//! without one it is a whole run ([`runs_without_stop_are_whole`]). The counts of a profile add up
//! to the attempts ([`counts_add_up`]). What a dump shows of a storage is read back as that storage
//! ([`dump_is_read`]). An address is shown by the nearest name ([`names_are_the_nearest`]).
#![tactic(auto)]

mod accounts;
mod attempts;
mod causes;
mod counted_cards;
mod counting;
mod dumping;
mod effects;
mod ends;
mod fields;
mod laws;
mod named_positions;
mod names;
mod profiling;
mod reports;
mod rows;
mod shown;
mod statements;
mod tracing;

pub use accounts::Account;
pub use attempts::push_attempt;
pub use dumping::{DumpOptions, dump, push_machine, push_registers, push_storage, push_units};
pub use ends::{advance, load};
pub use fields::{push_field, push_shown};
pub use laws::{
    counts_add_up, dump_is_read, names_are_the_nearest, runs_end_at_the_first_stop,
    runs_without_stop_are_whole,
};
pub use names::Names;
pub use profiling::profile;
pub use statements::push_statement_next;
pub use tracing::{TraceOptions, trace};
