//! Jobs, and the effect of commands on them.

ghost use Rattle.std.specs.Prelude.{◌≡◌, ◌<◌, length, None, OnOk, OnErr, IfOk, IfSome, MatchOption};
ghost use Rattle.machine.specs.Run.{risen};
ghost use Rattle.office.specs.{
  Kept.{IsJobInRange, loaded_kept, summary_of, job_refusal, changed, answered, take_kept, attempts_of, attempted_on, limit_of, drive_command, flag_command, MakesOn, MayWant},
  Meters.{RisenAtMost},
  declared.commands.JobCommand.{JobCommand},
};

use crate::drives::Drive;
use crate::flags::FlagCommand;
use crate::replies::Reply;
use crate::stretches::{Stretch, Stretches};
use crate::summaries::Summary;
use cards::Deck;
use core_store::{Core, Size};
use machine::{Machine, Meter, Parts};
use std::alloc::{AllocError, Global};
use std::marker::Model;
use units::{Profile, Switches};

/// A job on which commands work: its stretches, its flags and its machine.
#[derive(Drop)]
pub struct Job<C: Core> {
    stretches: Stretches,
    held: bool,
    collected: bool,
    machine: Machine<C>,
}

impl<C: Core> Model for Job<C> {
    ghost use Rattle.office.specs.Kept.{Kept};

    ghost Value = { Kept };

    ghost view = { λ job. record {
      stretches = job.stretches;
      held = job.held;
      collected = job.collected;
      machine = job.machine;
    } };
}

/// The parts of a job. Between two calls they are its whole state.
#[derive(Drop)]
pub struct JobParts<C: Core> {
    pub stretches: Vec<Stretch>,
    pub held: bool,
    pub collected: bool,
    /// The picture of its machine.
    pub machine: Parts<C>,
}

impl<C: Core> Model for JobParts<C> {
    ghost use Rattle.office.specs.Kept.{Kept};

    ghost Value = { Kept };

    ghost view = { λ job. record {
      stretches = job.stretches.items;
      held = job.held;
      collected = job.collected;
      machine = job.machine;
    } };
}

/// The parts of a job, borrowed from it.
#[derive(Drop)]
pub struct ShownJob<'a, C: Core> {
    pub stretches: &'a [Stretch],
    pub held: bool,
    pub collected: bool,
    /// The picture of its machine.
    pub machine: &'a Parts<C>,
}

impl<C: Core> Job<C> {
    /// Returns a job whose machine has loaded a deck and selects stackers, with nothing granted yet.
    /// Fails only if there is no memory.
    pub(crate) fn load(
        alloc: Global,
        deck: Deck,
        size: Size,
        switches: Switches,
    ) -> Result<Job<C>, AllocError>
        requires { 0 < length deck }
        ensures { IfOk result (λ job. job ≡ loaded_kept deck size switches) }
    {
        Ok(Job {
            stretches: Stretches::of_one(alloc, switches)?,
            held: false,
            collected: false,
            machine: Machine::load(alloc, deck, size, switches.seven(), Profile::Selecting)?,
        })
    }

    /// Returns the job with these parts, or `None` if no job has them. From the parts that `parts`
    /// returns, the same job is made again. Memory is taken for the machine's second storage alone,
    /// and only for parts in range.
    pub fn from_parts(alloc: Global, parts: JobParts<C>) -> Result<Option<Job<C>>, AllocError>
        ensures job { IfOk result (λ made. IfSome made (λ job. job ≡ parts)) }
        ensures in_range { IfOk result (λ made.
            MatchOption made (¬ IsJobInRange parts) (λ _. IsJobInRange parts)) }
        ensures memory { OnErr result (IsJobInRange parts) }
    {
        let JobParts {
            stretches,
            held,
            collected,
            machine,
        } = parts;
        let Some(stretches) = Stretches::of_list(stretches) else {
            return Ok(None);
        };
        let Some(machine) = Machine::from_parts(alloc, machine)? else {
            return Ok(None);
        };
        Ok(Some(Job {
            stretches,
            held,
            collected,
            machine,
        }))
    }

    /// The parts of the job: its whole state between two calls.
    pub fn parts(&self) -> ShownJob<'_, C>
        ensures stretches { result.stretches.now ≡ self.now.stretches }
        ensures held { result.held ≡ self.now.held }
        ensures collected { result.collected ≡ self.now.collected }
        ensures machine { result.machine.now ≡ self.now.machine }
        ensures in_range { IsJobInRange self.now }
    {
        ShownJob {
            stretches: self.stretches.list(),
            held: self.held,
            collected: self.collected,
            machine: self.machine.parts(),
        }
    }

    /// The summary of the job, as replies have it.
    pub fn summary(&self) -> Summary
        ensures { result ≡ summary_of self.now }
    {
        let parts = self.machine.parts();
        Summary {
            standing: parts.standing_at(),
            held: self.held,
            collected: self.collected,
            granted: self.stretches.total_grant(),
            cards: parts.units.cards_in_all() as u32,
            lines: parts.units.lines_in_all() as u32,
        }
    }

    /// Runs for at most `limit` instructions.
    fn slice(&mut self, limit: u32, meter: &mut Meter) -> Result<Reply, AllocError>
        requires { job_refusal (JobCommand.Slice limit) (summary_of self.old) ≡ None }
        ensures reply { IfOk result (λ reply. reply ≡ answered (JobCommand.Slice limit) self.old) }
        ensures job { OnOk result (self.new ≡ changed (JobCommand.Slice limit) self.old) }
        ensures meter { OnOk result
            (meter.new ≡ risen meter.old (attempts_of (JobCommand.Slice limit) self.old)) }
        ensures unchanged { OnErr result (self.new ≡ self.old) }
        ensures memory { OnErr result (MakesOn (JobCommand.Slice limit) self.old) }
        ensures given_up { OnErr result
            (RisenAtMost (attempts_of (JobCommand.Slice limit) self.old) meter.old meter.new) }
    {
        let ran = self.machine.run(limit, meter)?;
        self.stretches.grant(limit);
        Ok(Reply::Ran {
            executed: ran.executed,
            standing: self.machine.parts().standing_at(),
        })
    }

    /// Starts again from a halt, with the switches set anew.
    fn start(&mut self, switches: Switches) -> Result<Reply, AllocError>
        requires { job_refusal (JobCommand.Start switches) (summary_of self.old) ≡ None }
        ensures reply { IfOk result (λ reply.
            reply ≡ answered (JobCommand.Start switches) self.old) }
        ensures job { OnOk result (self.new ≡ changed (JobCommand.Start switches) self.old) }
        ensures unchanged { OnErr result (self.new ≡ self.old) }
    {
        self.stretches.begin(switches)?;
        self.machine.start(switches.seven());
        Ok(Reply::Started)
    }

    /// Carries out a slice or a start that is not refused.
    fn carry_out(&mut self, drive: Drive, meter: &mut Meter) -> Result<Reply, AllocError>
        requires { job_refusal (drive_command drive) (summary_of self.old) ≡ None }
        ensures reply { IfOk result (λ reply. reply ≡ answered (drive_command drive) self.old) }
        ensures job { OnOk result (self.new ≡ changed (drive_command drive) self.old) }
        ensures meter { OnOk result
            (meter.new ≡ risen meter.old (attempts_of (drive_command drive) self.old)) }
        ensures unchanged { OnErr result (self.new ≡ self.old) }
        ensures memory { OnErr result (MakesOn (drive_command drive) self.old) }
        ensures given_up { OnErr result
            (RisenAtMost (attempts_of (drive_command drive) self.old) meter.old meter.new) }
    {
        match drive {
            Drive::Slice { limit } => self.slice(limit, meter),
            Drive::Start { switches } => self.start(switches),
        }
    }

    /// Carries out a slice or a start, unless it is refused; a refusal changes nothing. If there is
    /// no memory, the job is as before, but the instructions done until then have ticked. Only a
    /// slice ticks.
    pub fn drive(&mut self, drive: Drive, meter: &mut Meter) -> Result<Reply, AllocError>
        ensures reply { IfOk result (λ reply.
            reply ≡ (take_kept (drive_command drive) self.old).1) }
        ensures job { OnOk result (self.new ≡ (take_kept (drive_command drive) self.old).0) }
        ensures meter { OnOk result
            (meter.new ≡ risen meter.old (attempted_on (drive_command drive) self.old)) }
        ensures unchanged { OnErr result (self.new ≡ self.old) }
        ensures memory { OnErr result (MayWant (drive_command drive) self.old) }
        ensures given_up { OnErr result
            (RisenAtMost (attempted_on (drive_command drive) self.old) meter.old meter.new) }
        ensures most { RisenAtMost (limit_of (drive_command drive)) meter.old meter.new }
    {
        match drive.command().refusal(&self.summary()) {
            Some(reason) => Ok(Reply::Refused(reason)),
            None => self.carry_out(drive, meter),
        }
    }

    /// Carries out a command that needs the summary only and is not refused.
    fn set_flags(&mut self, command: FlagCommand) -> Reply
        ensures reply { result ≡ answered (flag_command command) self.old }
        ensures job { self.new ≡ changed (flag_command command) self.old }
    {
        let flags = command.on_flags(&self.summary());
        self.held = flags.held;
        self.collected = flags.collected;
        flags.reply
    }

    /// Carries out a command that needs the summary only, unless it is refused; a refusal changes
    /// nothing.
    pub(crate) fn flag(&mut self, command: FlagCommand) -> Reply
        ensures reply { result ≡ (take_kept (flag_command command) self.old).1 }
        ensures job { self.new ≡ (take_kept (flag_command command) self.old).0 }
    {
        match command.command().refusal(&self.summary()) {
            Some(reason) => Reply::Refused(reason),
            None => self.set_flags(command),
        }
    }
}
