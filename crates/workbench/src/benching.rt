//! The subcommands `trace`, `dump` and `profile`.

use crate::process::Process;
use crate::stops::{address_at, address_by, address_in};
use crate::undone::Undone;
use command_line::Status;
use core_store::LARGEST_SIZE;
use local_runs::status_at;
use machine::StandingAt;
use run_traces::{Account, DumpOptions, TraceOptions, dump, profile, trace};
use std::io::Write;
use workbench_arguments::{Dumping, Setup, Tracing};

/// The position that a number is; past the largest storage its last one.
fn position_at(number: u32) -> u16 {
    match address_at(number) {
        Some(address) => address,
        None => LARGEST_SIZE - 1,
    }
}

/// What is said of a run without a stop after which the machine is still running.
const STILL_RUNNING: &[u8] =
    b"1,000,000 instructions were done; workbench profile shows where, trace --fields at what\n";

/// Whether a machine is still running.
fn is_running(standing: StandingAt) -> bool {
    matches!(standing, StandingAt::Running)
}

/// Prints what is shown of a run; the status is that of the run.
fn print_account<W: Write, E: Write>(
    process: &mut Process<W, E>,
    account: &Account,
) -> Result<Status, Undone> {
    process.print(&account.text, status_at(account.standing))
}

/// Prints the trace of a run.
pub(crate) fn trace_deck<W: Write, E: Write>(
    process: &mut Process<W, E>,
    tracing: Tracing<'_>,
) -> Result<Status, Undone> {
    let names = process.names_at(tracing.names)?;
    let names = names.as_ref();
    let mut options = TraceOptions {
        from: tracing.from,
        count: tracing.count,
        stop: None,
        fields: tracing.fields,
    };
    if let Some(text) = tracing.stop {
        options.stop = Some(address_by(process, text, names, tracing.names)?);
    }
    let Setup { size, switches, .. } = tracing.setup;
    let deck = process.deck_to_run(tracing.setup.input)?;
    let account = trace(process.alloc(), &deck, size, switches, names, options)?;
    let status = print_account(process, &account)?;
    if tracing.stop.is_none() && is_running(account.standing) {
        process.errors.write_all(STILL_RUNNING)?;
    }
    Ok(status)
}

/// Prints how often a run did each instruction.
pub(crate) fn profile_deck<W: Write, E: Write>(
    process: &mut Process<W, E>,
    setup: Setup<'_>,
    names: Option<&str>,
) -> Result<Status, Undone> {
    let deck = process.deck_to_run(setup.input)?;
    let names = process.names_at(names)?;
    let alloc = process.alloc();
    let account = profile(alloc, &deck, setup.size, setup.switches, names.as_ref())?;
    print_account(process, &account)
}

/// Prints a machine after a run.
pub(crate) fn dump_deck<W: Write, E: Write>(
    process: &mut Process<W, E>,
    dumping: Dumping<'_>,
) -> Result<Status, Undone> {
    let mut options = DumpOptions {
        after: dumping.after,
        stop: None,
        first: dumping.first.map(position_at),
        last: dumping.last.map(position_at),
    };
    if let Some(text) = dumping.stop {
        options.stop = Some(address_in(text, &mut process.errors)?);
    }
    let setup = dumping.setup;
    let deck = process.deck_to_run(setup.input)?;
    let text = dump(process.alloc(), &deck, setup.size, setup.switches, options)?;
    process.print(&text, Status::Done)
}
