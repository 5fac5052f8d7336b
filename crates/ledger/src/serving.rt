//! Commands inside a transaction, and those that are refused before it.

ghost use Rattle.std.specs.Prelude.{◌≡◌, None};
ghost use Rattle.office.specs.{
  Meters.{RisenAtMost},
  Office.{name_refusal, value_refusal, customer_refusal, early_refusal, served, attempted_by, limit_of},
};
ghost use Rattle.ledger_tables.specs.Steps.{IsOpenStep};
ghost use Rattle.ledger.specs.{Serving.{OnlyReads}, Steps.{FailsWhere, Serves, Ticks, TicksAtMost}};

use crate::job_commands::command_job;
use crate::lists::{list_jobs, list_queue};
use crate::submissions::submit;
use ledger_tables::{Fault, OpenTables};
use machine::Meter;
use office::{Command, JobCommand, Refusal, Reply, Stacker, is_limit};
use sqlite::Alter;
use texts::{JobName, is_customer, is_number};

/// Why a job may not have this name, if it may not.
fn name_refusal(customer: &str, number: u32) -> Option<Refusal>
    ensures { result ≡ name_refusal customer.now number }
{
    if !is_customer(customer) {
        return Some(Refusal::Customer);
    }
    if !is_number(number) {
        return Some(Refusal::Number);
    }
    None
}

/// Why a slice is refused for its limit, if it is.
fn limit_refusal(limit: u32) -> Option<Refusal>
    ensures { result ≡ value_refusal (JobCommand.Slice limit) None }
{
    if is_limit(limit) {
        None
    } else {
        Some(Refusal::Limit)
    }
}

/// Why cards are not shown, for the pocket that was named, if they are not.
fn pocket_refusal(from: Stacker) -> Option<Refusal>
    ensures { result ≡ value_refusal (JobCommand.Cards from) None }
{
    match from {
        Stacker::All | Stacker::Of(_) => None,
        Stacker::Unknown => Some(Refusal::NoSuchPocket),
    }
}

/// Why a command on a job is refused for its value, if it is: a limit, or a pocket.
fn value_refusal(command: JobCommand) -> Option<Refusal>
    ensures { result ≡ value_refusal command None }
{
    match command {
        JobCommand::Slice { limit } => limit_refusal(limit),
        JobCommand::Cards { from } => pocket_refusal(from),
        JobCommand::Start { .. } => None,
        JobCommand::Hold | JobCommand::Release | JobCommand::Collect => None,
        JobCommand::Standing | JobCommand::Lines => None,
    }
}

/// Why a command on the job of this name is refused before the job is looked at, if it is.
fn job_refusal(customer: &str, number: u32, command: JobCommand) -> Option<Refusal>
    ensures { result ≡ value_refusal command (name_refusal customer.now number) }
{
    match name_refusal(customer, number) {
        Some(reason) => Some(reason),
        None => value_refusal(command),
    }
}

/// Why a customer may not have this name, if that is refused.
fn customer_refusal(customer: &str) -> Option<Refusal>
    ensures { result ≡ customer_refusal customer.now }
{
    if is_customer(customer) {
        None
    } else {
        Some(Refusal::Customer)
    }
}

/// Why a command is refused before any job is looked at, if it is.
pub fn early_refusal(command: &Command) -> Option<Refusal>
    ensures { result ≡ early_refusal command.now }
{
    match command {
        Command::Submit {
            customer,
            number,
            ..
        } => name_refusal(customer.as_str(), *number),
        Command::Job {
            customer,
            number,
            command,
        } => job_refusal(customer.as_str(), *number, *command),
        Command::Jobs { customer } => customer_refusal(customer.as_str()),
        Command::Queue => None,
    }
}

/// Carries out a command that `early_refusal` does not refuse. Returns the reply, or fault 1 or 2.
pub fn serve<S: Alter>(
    tables: &mut OpenTables<'_, '_, S>,
    command: &Command,
    meter: &mut Meter,
) -> Result<Reply, Fault>
    ensures step { IsOpenStep S.Store tables.old tables.new result }
    ensures done { Serves S.Store tables.old tables.new result (served command.now) }
    ensures meter { Ticks S.Store tables.old tables.new result
        meter.old meter.new (attempted_by command.now) }
    ensures given_up { TicksAtMost S.Store tables.old tables.new result
        meter.old meter.new (attempted_by command.now) }
    ensures most { RisenAtMost (limit_of command.now) meter.old meter.new }
    ensures failed { FailsWhere S.Store tables.old tables.new result (OnlyReads command.now) }
{
    match command {
        Command::Submit {
            customer,
            number,
            contents,
        } => {
            let name = JobName {
                customer: customer.as_str(),
                number: *number,
            };
            submit(tables, name, contents)
        }
        Command::Job {
            customer,
            number,
            command,
        } => {
            let name = JobName {
                customer: customer.as_str(),
                number: *number,
            };
            command_job(tables, name, *command, meter)
        }
        Command::Jobs { customer } => list_jobs(tables, customer.as_str()),
        Command::Queue => list_queue(tables),
    }
}
