//! What went wrong, in words for a person: the place, and the way out.
//!
//! The lines that the program prints for scripts and services say what went wrong by a number. They
//! stay as they are. Where a person reads the standard error, or the surroundings ask for it, further
//! lines follow them. They are made of what those lines told ([`Overheard`]), of a second look at the
//! files, and of the rows of the help. Nothing is proved of their words but that making them cannot
//! fail otherwise than the writer; `cases/check-explanations` tries them.

mod bad_scripts;
mod decks;
mod files;
mod overheard;
mod told;

use crate::explaining::bad_scripts::explain_script;
use crate::explaining::decks::{explain_assembly, explain_run};
use crate::explaining::files::{explain_export, explain_file, explain_init, explain_service};
use crate::explaining::overheard::Heard;
pub(crate) use crate::explaining::overheard::Overheard;
use command_line::Task;
use std::io::{IsTerminal, Write};
use std::{env, io};

/// Whether what went wrong is to be explained: on a terminal, or where BUREAU_EXPLAIN is set.
pub(crate) fn is_wanted(rt: &HostRuntime) -> bool {
    rt.stderr().is_terminal() || env::var(rt, "BUREAU_EXPLAIN").is_ok()
}

/// Prints what went wrong with a task, by what was overheard on the output and on the standard
/// error, and what can be done.
pub(crate) fn explain<E: Write>(
    rt: &HostRuntime,
    task: Task<'_>,
    output: Heard,
    told: Heard,
    errors: &mut E,
) -> io::Result<()> {
    let last = told.last;
    match task {
        Task::Help(_) | Task::Version => Ok(()),
        Task::Run { deck, .. } => explain_run(rt, deck, last, errors),
        Task::Assemble { source, out } => {
            explain_assembly(rt, source, out, output.last, last, errors)
        }
        Task::Init { file } => explain_init(rt, file, last, errors),
        Task::Apply { file, script } => explain_script(rt, file, script, output, last, errors),
        Task::Export { file, .. } => explain_export(rt, file, last, errors),
        Task::Migrate { file } => explain_file(rt, file, last, errors),
        Task::Serve { file, port, .. } => explain_service(rt, file, port, last, errors),
    }
}
