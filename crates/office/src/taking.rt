//! Any command on a job.

ghost use Rattle.std.specs.Prelude.{◌≡◌, ◌∷◌, OnOk, OnErr, IfOk};
ghost use Rattle.machine.specs.Run.{lines_of, risen};
ghost use Rattle.office.specs.{
  Kept.{answered, take_kept, attempted_on, limit_of, MayWant},
  Meters.{RisenAtMost},
  declared.commands.JobCommand.{JobCommand},
};

use crate::commands::JobCommand;
use crate::drives::Drive;
use crate::flags::FlagCommand;
use crate::jobs::Job;
use crate::lists::Listing;
use crate::replies::Reply;
use crate::stackers::{Stacker, cards_from};
use core_store::Core;
use machine::Meter;
use std::alloc::{AllocError, Global};
use units::Line;

/// A copy of lines.
fn copy_of_lines(alloc: Global, lines: &[Line]) -> Result<Listing, AllocError>
    ensures { IfOk result (λ listing. listing ≡ lines.now) }
{
    let mut copy = Vec::new(alloc);
    copy.extend_from_slice(lines)?;
    Ok(Listing(copy))
}

/// The reply with the cards of a job that are asked for.
fn tell_cards<C: Core>(alloc: Global, job: &Job<C>, from: Stacker) -> Result<Reply, AllocError>
    ensures { IfOk result (λ reply. reply ≡ answered (JobCommand.Cards from) job.now) }
{
    let machine = job.parts().machine;
    let punched = &machine.units.punch.cards;
    Ok(Reply::Cards(cards_from(alloc, from, punched)?))
}

/// The reply with the lines of a job.
fn tell_lines<C: Core>(alloc: Global, job: &Job<C>) -> Result<Reply, AllocError>
    ensures { IfOk result (λ reply. reply ≡ answered JobCommand.Lines job.now) }
{
    let machine = job.parts().machine;
    let printed = &machine.units.printer.lines;
    Ok(Reply::Lines(copy_of_lines(alloc, printed)?))
}

/// Carries out a command on a job, unless the command is refused; a refusal changes nothing. Only a
/// slice ticks the meter. If memory runs out, the job is as before, and the meter has risen by at
/// most the number of instructions that the slice attempts.
pub fn take<C: Core>(
    alloc: Global,
    job: &mut Job<C>,
    command: &JobCommand,
    meter: &mut Meter,
) -> Result<Reply, AllocError>
    ensures reply { IfOk result (λ reply. reply ≡ (take_kept command.now job.old).1) }
    ensures job { OnOk result (job.new ≡ (take_kept command.now job.old).0) }
    ensures meter { OnOk result
        (meter.new ≡ risen meter.old (attempted_on command.now job.old)) }

    ensures unchanged { OnErr result (job.new ≡ job.old) }
    ensures memory { OnErr result (MayWant command.now job.old) }
    ensures given_up { OnErr result
        (RisenAtMost (attempted_on command.now job.old) meter.old meter.new) }
    ensures most { RisenAtMost (limit_of command.now) meter.old meter.new }
{
    match *command {
        JobCommand::Slice { limit } => job.drive(Drive::Slice { limit }, meter),
        JobCommand::Start { switches } => job.drive(Drive::Start { switches }, meter),
        JobCommand::Hold => Ok(job.flag(FlagCommand::Hold)),
        JobCommand::Release => Ok(job.flag(FlagCommand::Release)),
        JobCommand::Collect => Ok(job.flag(FlagCommand::Collect)),
        JobCommand::Standing => Ok(job.flag(FlagCommand::Standing)),
        JobCommand::Cards { from } => tell_cards(alloc, job, from),
        JobCommand::Lines => tell_lines(alloc, job),
    }
}
