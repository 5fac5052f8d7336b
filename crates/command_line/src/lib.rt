//! The command line: the task that a program's arguments ask for, and what the program prints there.
//!
//! A program has its subcommands in a table, a [`Program`], from which clap's command is made.
//! [`asked_by`] returns what arguments ask for by such a table, and fails for arguments that ask for
//! something only if there is no memory (`specs/Programs.antt`). A subcommand comes with its
//! arguments as they were [`Found`], and [`tell_mistake`] prints exactly what is wrong with others
//! (`specs/Mistakes.antt`): the argument at fault, and a name that it nearly is
//! (`specs/Misuses.antt`, `specs/Near.antt`).
//!
//! The bureau's own table is in `src/subcommands.rt`. Its program is called without arguments, with a
//! subcommand and its values in their places, or for the help or the version by an argument with
//! hyphens. No other argument may begin with a hyphen, except `-` alone, unless `--` comes after the
//! subcommand: the values after it are taken unchanged. The values (a size, the switches) are read
//! after that, before any file is opened.
//!
//! The program takes the rows of words of `specs/Words.antt`, and [`words`] returns the row that the
//! arguments spell, or else what is wrong with them.
//!
//! The contracts for the layers above: [`task_of`] returns the task that the arguments ask for, or
//! else what is wrong with them (`specs/Tasks.antt`); [`arguments_are_those_of_the_table`] says which
//! arguments the table takes; and what is printed, for a fault, for a mistake or as help, is exactly
//! the text of `specs/Printed.antt` and `specs/Mistakes.antt`, or the writer failed. Names that are
//! nearly what was given are found by [`is_near`] (`specs/Near.antt`).
#![tactic(auto)]

mod arguments;
mod errors;
mod fault_rows;
mod faults;
mod help;
mod laws;
mod mistakes;
mod misuses;
mod near;
mod options;
mod places;
mod plain;
mod ports;
mod programs;
mod script_forms;
mod spelled;
mod spelling;
mod statuses;
mod subcommands;
mod tables;
mod tasks;
mod telling;
mod versions;

pub use arguments::Found;
pub use errors::Unfailing;
pub use fault_rows::{tell_fault_row, tell_refusal_row};
pub use faults::Fault;
pub use laws::arguments_are_those_of_the_table;
pub use mistakes::{Mistake, tell_mistake};
pub use misuses::Misuse;
pub use near::is_near;
pub use programs::{Asked, Program, Syntax, asked_by};
pub use script_forms::{tell_command_form, tell_commands};
pub use spelled::{Words, WordsFault};
pub use spelling::words;
pub use statuses::{Status, exit_code};
pub use subcommands::Subcommand;
pub use tables::Kind;
pub use tasks::{Input, SIZE_COMPLAINT, SWITCHES_COMPLAINT, Task, task_of};
pub use telling::{put_out, show_help, show_text, show_version, tell_fault};
