//! The arguments of the program `workbench`: the task that they ask for.
//!
//! A call is a subcommand's name, its values in their places and its options, in any order after
//! the name, or an argument that asks for the help or the version. They are read by one table
//! (`src/subcommands.rt`). The values of options (columns, a form, a number) are read after that,
//! before any file is opened. The contract for the layer above: [`task_of`] returns a task only if
//! the arguments ask for it (`specs/Tasks.antt`).
#![tactic(auto)]

mod bench_tasks;
mod complaints;
mod help;
mod picture_tasks;
mod subcommands;
mod tasks;
mod values;

pub use help::VERSION;
pub use subcommands::{Subcommand, WORKBENCH};
pub use tasks::{
    Coding, Cutting, DeckListing, Dumping, Ends, Filming, Intake, Manifest, Numbering, Punching,
    Setup, Task, Tracing, task_of,
};
