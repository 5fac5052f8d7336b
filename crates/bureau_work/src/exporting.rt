//! Writing to files what a job has punched and printed.

ghost use Rattle.std.specs.Prelude.{◌≡◌, ◌⊎◌, false, IsTrue, IfErr, OnOk};
ghost use Rattle.ledger_tables.specs.Disks.{StaysClean};
ghost use Rattle.ledger.specs.Working.{HasWorked};
ghost use Rattle.bureau_work.specs.Work.{IsFileFor, TellsAsked, TellsExport, query_for};

use crate::outcomes::Outcome;
use cards::write_punched_cards;
use command_line::Fault as WritingFault;
use ledger::{Bureau, Fault, Work, kept_offices_run_whole};
use ledger_tables::OpenFault;
use local_runs::put_file;
use machine::Meter;
use office::{Command, JobCommand, Reply, Stacker};
use sqlite::Alter;
use std::alloc::Global;
use std::io::Write;
use units::{Pocket, render};

/// A part of what a job has made: its cards from a stacker, or its lines.
#[derive(Clone, Copy)]
enum Part {
    Cards(Stacker),
    Lines,
}

/// The parts, each with the ending of its file's name, in the order in which they are written.
const PARTS: [(&str, Part); 5] = [
    ("cards", Part::Cards(Stacker::All)),
    ("cards0", Part::Cards(Stacker::Of(Pocket::Normal))),
    ("cards4", Part::Cards(Stacker::Of(Pocket::Four))),
    ("cards8", Part::Cards(Stacker::Of(Pocket::Eight))),
    ("lines", Part::Lines),
];

impl Part {
    /// The query for it.
    fn query(self) -> JobCommand
        ensures { result ≡ query_for self }
    {
        match self {
            Part::Cards(from) => JobCommand::Cards { from },
            Part::Lines => JobCommand::Lines,
        }
    }
}

/// The file of a part: the ending of its name, and its bytes.
#[derive(Drop)]
struct Made {
    ending: &'static str,
    bytes: Vec<u8>,
}

/// The outcome if there is no memory.
const NO_MEMORY: Outcome = Outcome::Fault(OpenFault::NoMemory);

/// The reply to a query of a job.
fn ask<S: Alter>(
    alloc: Global,
    bureau: &mut Bureau<S>,
    customer: &str,
    number: u32,
    command: JobCommand,
) -> Result<Reply, Outcome>
    ensures works { HasWorked S.Store bureau.old.conn bureau.new.conn bureau.new.broken
        (TellsAsked customer.now number command) }
    ensures whole { OnOk result (bureau.new.broken ≡ false) }
    ensures told { IfErr result (λ own. (own ≡ Outcome.Fault OpenFault.NoMemory)
        ⊎ ((own ≡ Outcome.Fault OpenFault.Store) × IsTrue bureau.new.broken)) }
    ensures clean { StaysClean S.Store bureau.old.conn bureau.new.conn }
{
    // A law, for the proof: it does nothing.
    kept_offices_run_whole();
    let Ok(customer) = String::from_str(alloc, customer) else {
        return Err(NO_MEMORY);
    };
    let command = Command::Job {
        customer,
        number,
        command,
    };
    match bureau.apply(&command, &mut Meter::new()) {
        Ok(reply) => Ok(reply),
        Err(Fault::NoMemory) => Err(NO_MEMORY),
        Err(Fault::Store) => Err(Outcome::Fault(OpenFault::Store)),
    }
}

/// The bytes of the file for a reply of cards or of lines.
fn bytes_of(alloc: Global, reply: &Reply) -> Result<Vec<u8>, Outcome>
    ensures { IsFileFor reply.now result }
{
    let bytes = match reply {
        Reply::Cards(cards) => write_punched_cards(alloc, &cards.0),
        Reply::Lines(lines) => render(alloc, &lines.0),
        Reply::Refused(reason) => return Err(Outcome::Refused(reason.number())),
        _ => Ok(Vec::new(alloc)),
    };
    match bytes {
        Ok(bytes) => Ok(bytes),
        Err(_) => Err(NO_MEMORY),
    }
}

/// The bytes of the file of a part.
fn bytes_for<S: Alter>(
    alloc: Global,
    bureau: &mut Bureau<S>,
    customer: &str,
    number: u32,
    part: Part,
) -> Result<Vec<u8>, Outcome>
    ensures works { HasWorked S.Store bureau.old.conn bureau.new.conn bureau.new.broken
        (TellsAsked customer.now number (query_for part)) }
    ensures whole { OnOk result (bureau.new.broken ≡ false) }
    ensures clean { StaysClean S.Store bureau.old.conn bureau.new.conn }
{
    let reply = ask(alloc, bureau, customer, number, part.query())?;
    bytes_of(alloc, &reply)
}

/// The files of all parts.
fn made_by<S: Alter>(
    alloc: Global,
    bureau: &mut Bureau<S>,
    customer: &str,
    number: u32,
) -> Result<Vec<Made>, Outcome>
    ensures works { HasWorked S.Store bureau.old.conn bureau.new.conn bureau.new.broken
        (TellsExport customer.now number) }
    ensures clean { StaysClean S.Store bureau.old.conn bureau.new.conn }
{
    // A law, for the proof: it does nothing.
    kept_offices_run_whole();
    let mut made = Vec::new(alloc);
    for (ending, part) in PARTS {
        let bytes = bytes_for(alloc, bureau, customer, number, part)?;
        if made.push(Made { ending, bytes }).is_err() {
            return Err(NO_MEMORY);
        }
    }
    Ok(made)
}

/// Replaces the job's file of a part, in the folder where the program runs.
fn put(rt: &HostRuntime, customer: &str, number: u32, file: &Made) -> Result<(), Outcome>
    ensures { IfErr result (λ own. (own ≡ Outcome.Fault OpenFault.NoMemory)
        ⊎ (own ≡ Outcome.Device)) }
{
    let ending = file.ending;
    let Ok(name) = format!(in rt.alloc(); "{customer}-{number}.{ending}") else {
        return Err(NO_MEMORY);
    };
    match put_file(rt, &name, &file.bytes) {
        Ok(()) => Ok(()),
        Err(WritingFault::Memory) => Err(NO_MEMORY),
        Err(_) => Err(Outcome::Device),
    }
}

/// Writes what a job has made. Nothing is written before the bytes of all files are made.
fn write_made<S: Alter>(
    rt: &HostRuntime,
    bureau: &mut Bureau<S>,
    customer: &str,
    number: u32,
) -> Result<(), Outcome>
    ensures works { HasWorked S.Store bureau.old.conn bureau.new.conn bureau.new.broken
        (TellsExport customer.now number) }
    ensures clean { StaysClean S.Store bureau.old.conn bureau.new.conn }
{
    let made = made_by(rt.alloc(), bureau, customer, number)?;
    for file in &made {
        put(rt, customer, number, file)?;
    }
    Ok(())
}

/// The work of exporting a job.
#[derive(Drop)]
pub struct ExportWork<'a> {
    /// The customer whose job it is.
    pub customer: &'a str,
    /// The number of the job.
    pub number: u32,
    /// How the work ended.
    pub outcome: Outcome,
}

impl Work for ExportWork<'_> {
    ghost tells = { λ before after old new done replies.
        TellsExport before.customer.now before.number done replies };

    fn carry_out<S: Alter, O: Write>(
        &mut self,
        rt: &HostRuntime,
        bureau: &mut Bureau<S>,
        _output: &mut O,
    ) {
        if let Err(outcome) = write_made(rt, bureau, self.customer, self.number) {
            self.outcome = outcome;
        }
    }
}
