//! The program `bureau`: connects local runs, and the bureau in its file, to the process's arguments,
//! files and streams.
//!
//! A bureau's file is created or migrated, a script is applied to it, requests are served from it, and
//! what a job made is exported from it. The work with the open bureau is in `bureau_work`: commands
//! that are carried out and replied to. Of [`apply`], [`serve`] and
//! [`export`] it is proved that their work is a round from the files that were found to whatever a
//! crash leaves ([`Ended`]), of [`migrate`] that the office stays, and of [`init`] that the new file
//! holds the office without jobs (both of `ledger_files`). Of [`apply`] it is also proved that the
//! lines of the replies are on the output, and of [`tell_migrated`] and [`show_outcome`] what is
//! printed. Each of these calls is for files of any contents (`Start`); `main` calls it for those that
//! nothing is known of.
//!
//! What the arguments ask for, what is printed and how the program ends is proved, and connected in
//! [`answer`]. The clauses of the kit do not mention the process's own arguments and streams, nor the
//! contents of files and sockets. So [`arguments_given`] and [`carry_out`] have no contract;
//! `cases/check` and `examples/check` test that the right files are read and written, and that OUT is
//! written only if a deck was made.
//!
#![tactic(auto)]

mod ended;
mod explaining;
mod exporting;
mod migrating;
mod scripting;
mod serving;

ghost use Rattle.std.specs.Prelude.{Option, IfOk};
ghost use Rattle.command_line.specs.{
  Printed.{IsTextShown, version_text},
  Asked.{IsHelp, page_of},
  Plain.{texts},
  Programs.{IsVersion},
  declared.subcommands.Subcommand.{Subcommand},
};
ghost use Rattle.bureau.specs.Answers.{HasAnswered, HasAssembled, HasEnded, HasEndedMigration, HasEndedScript};

use crate::ended::outcome_of_made;
use crate::explaining::{Overheard, explain, is_wanted};
use crate::exporting::export;
use crate::migrating::tell_migrated;
use crate::scripting::apply;
use crate::serving::serve;
use bureau_work::show_outcome;
use command_line::{
    Mistake, Status, Task, Unfailing, exit_code, show_help, show_version, task_of, tell_mistake,
};
use ledger_files::{init, migrate};
use local_runs::{assemble_file, run_input, write_out};
use sqlite::Unknown;
use std::io::Write;
use std::process::ExitCode;
use std::{env, io};

/// The arguments of the process. The first is the program's name.
fn arguments_given(rt: &HostRuntime) -> Result<Vec<String>, Mistake> {
    Ok(env::args(rt)?.collect(rt.alloc())?)
}

/// Assembles the source in a file, and writes the deck that runs its program. The first file is
/// read to its end before the second is opened, so both may be the same file.
fn assemble<W: Write, E: Write>(
    rt: &HostRuntime,
    source: &str,
    out: &str,
    output: &mut W,
    errors: &mut E,
) -> io::Result<Status>
    ensures { IfOk result (λ status. HasAssembled status
        (W.contents output.old) (W.contents output.new)
        (E.contents errors.old) (E.contents errors.new)) }
{
    let answer = assemble_file(rt, source, output, errors)?;
    write_out(rt, out, answer, errors)
}

/// Creates a bureau's file.
fn make_file<E: Write>(rt: &HostRuntime, file: &str, errors: &mut E) -> io::Result<Status>
    ensures { IfOk result (λ status. HasEnded status
        (E.contents errors.old) (E.contents errors.new)) }
{
    let made = init(rt, file, Unknown);
    show_outcome(errors, outcome_of_made(&made))
}

/// Serves requests from the bureau in a file.
fn serve_file<E: Write>(
    rt: &HostRuntime,
    file: &str,
    port: u16,
    count: u32,
    errors: &mut E,
) -> io::Result<Status>
    ensures { IfOk result (λ status. HasEnded status
        (E.contents errors.old) (E.contents errors.new)) }
{
    let ended = serve(rt, file, Unknown, port, count);
    show_outcome(errors, ended.outcome())
}

/// Writes what a job of the bureau in a file has made to files.
fn export_job<E: Write>(
    rt: &HostRuntime,
    file: &str,
    customer: &str,
    number: u32,
    errors: &mut E,
) -> io::Result<Status>
    ensures { IfOk result (λ status. HasEnded status
        (E.contents errors.old) (E.contents errors.new)) }
{
    let ended = export(rt, file, Unknown, customer, number);
    show_outcome(errors, ended.outcome())
}

/// Applies the script in a file to the bureau in a file.
fn apply_script<W: Write, E: Write>(
    rt: &HostRuntime,
    file: &str,
    script: &str,
    output: &mut W,
    errors: &mut E,
) -> io::Result<Status>
    ensures { IfOk result (λ status. HasEndedScript status
        (W.contents output.old) (W.contents output.new)
        (E.contents errors.old) (E.contents errors.new)) }
{
    let ended = apply(rt, file, Unknown, script, output);
    show_outcome(errors, ended.outcome())
}

/// Makes the bureau's file one of this version.
fn migrate_file<W: Write, E: Write>(
    rt: &HostRuntime,
    file: &str,
    output: &mut W,
    errors: &mut E,
) -> io::Result<Status>
    ensures { IfOk result (λ status. HasEndedMigration status
        (W.contents output.old) (W.contents output.new)
        (E.contents errors.old) (E.contents errors.new)) }
{
    let migrated = migrate(rt, file, Unknown);
    let outcome = tell_migrated(output, &migrated);
    show_outcome(errors, outcome)
}

/// Does what the arguments after the program's name ask for.
fn answer<W: Write, E: Write>(
    rt: &HostRuntime,
    arguments: &[String],
    output: &mut W,
    errors: &mut E,
) -> io::Result<Status>
    ensures help { (subcommand : Option Subcommand) → IsHelp subcommand (texts arguments.now)
        → IfOk result (λ status. IsTextShown (page_of subcommand) status
        (W.contents output.old) (W.contents output.new)
        (E.contents errors.old) (E.contents errors.new)) }
    ensures version { IsVersion (texts arguments.now)
        → IfOk result (λ status. IsTextShown version_text status
        (W.contents output.old) (W.contents output.new)
        (E.contents errors.old) (E.contents errors.new)) }
    ensures answered { IfOk result (λ status. HasAnswered (texts arguments.now) status
        (W.contents output.old) (W.contents output.new)
        (E.contents errors.old) (E.contents errors.new)) }
{
    match task_of(rt.alloc(), arguments) {
        Ok(Task::Help(subcommand)) => show_help(output, errors, subcommand),
        Ok(Task::Version) => show_version(output, errors),
        Ok(
            Task::Run {
                deck,
                size,
                switches,
            },
        ) => run_input(rt, deck, size, switches, output, errors),
        Ok(Task::Assemble { source, out }) => assemble(rt, source, out, output, errors),
        Ok(Task::Init { file }) => make_file(rt, file, errors),
        Ok(Task::Apply { file, script }) => apply_script(rt, file, script, output, errors),
        Ok(Task::Migrate { file }) => migrate_file(rt, file, output, errors),
        Ok(Task::Serve { file, port, count }) => serve_file(rt, file, port, count, errors),
        Ok(
            Task::Export {
                file,
                customer,
                number,
            },
        ) => export_job(rt, file, customer, number, errors),
        Err(mistake) => tell_mistake(errors, "bureau", mistake),
    }
}

/// Explains what went wrong with the task that the arguments after the program's name ask for.
fn explain_task<W: Write, E: Write>(
    rt: &HostRuntime,
    arguments: &[String],
    output: &Overheard<W>,
    errors: &mut Overheard<E>,
) -> io::Result<()> {
    let told = errors.heard();
    match task_of(rt.alloc(), arguments) {
        Ok(task) => explain(rt, task, output.heard(), told, errors),
        Err(_) => Ok(()),
    }
}

/// Does what the process's arguments ask for. What went wrong is explained if that is wanted.
fn carry_out(rt: &HostRuntime) -> io::Result<Status> {
    let is_explained = is_wanted(rt);
    let mut output = Overheard::new(rt.stdout(), is_explained);
    let mut errors = Overheard::new(Unfailing::new(rt.stderr()), is_explained);
    let arguments = match arguments_given(rt) {
        Ok(arguments) => arguments,
        Err(mistake) => return tell_mistake(&mut errors, "bureau", mistake),
    };
    let arguments = arguments.as_slice();
    let after_name = if arguments.is_empty() {
        arguments
    } else {
        &arguments[1..]
    };
    let status = answer(rt, after_name, &mut output, &mut errors)?;
    if is_explained {
        explain_task(rt, after_name, &output, &mut errors)?;
    }
    Ok(status)
}

fn main(rt: HostRuntime) -> ExitCode {
    exit_code(carry_out(&rt))
}
