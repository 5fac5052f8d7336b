//! The subcommand `work`.

use crate::clients::{QUEUE, ask};
use crate::tallies::{Tally, same_name};
use command_line::Status;
use queue_rounds::{
    JobName, MOST_TRIES, Next, Outcome, Passed, Ran, Rounds, Why, is_spent, outcome_of_queue,
    outcome_of_slice,
};
use std::io::Write;
use std::time::Duration;
use std::{io, thread};

/// The work on the queue of a bureau.
#[derive(Drop)]
struct Work {
    port: u16,
    slice: u32,
    tally: Tally,
    /// The jobs that were told to have all the instructions that a job can be granted.
    spent: Vec<JobName>,
}

impl Work {
    /// Asks for a slice of a job.
    fn ask_slice(&self, rt: &HostRuntime, job: &JobName) -> io::Result<Outcome> {
        let customer = job.customer.as_str();
        let number = job.number;
        let slice = self.slice;
        let request = format!(in rt.alloc();
            "POST /c/{customer}/j/{number}/slice/{slice} HTTP/1.1\r\nHost: localhost\r\n\
             Content-Length: 0\r\n\r\n"
        )?;
        let reply = ask(rt, self.port, request.as_bytes())?;
        Ok(outcome_of_slice(rt.alloc(), &reply)?)
    }

    /// Prints that a job has stopped, if its slice says so.
    fn tell<W: Write>(
        &mut self,
        rt: &HostRuntime,
        job: &JobName,
        ran: &Ran,
        output: &mut W,
    ) -> io::Result<()> {
        let executed = self.tally.add(rt.alloc(), job, ran.executed)?;
        let standing = ran.standing.as_str();
        if standing == "running" {
            return Ok(());
        }
        let customer = job.customer.as_str();
        let number = job.number;
        writeln!(
            output,
            "{customer} {number} {standing} after {executed} instructions"
        )?;
        output.flush()
    }

    /// Prints once that a job was granted all the instructions that a job can be, and the way out.
    fn tell_spent<E: Write>(
        &mut self,
        rt: &HostRuntime,
        job: &JobName,
        errors: &mut E,
    ) -> io::Result<()> {
        if self.spent.iter().any(|told| *told == *job) {
            return Ok(());
        }
        let customer = job.customer.as_str();
        let number = job.number;
        writeln!(
            errors,
            "{customer} {number} was granted all of its 1,000,000,000 instructions; \
             \"hold {customer} {number}\" takes it out of the queue"
        )?;
        self.spent.push(same_name(rt.alloc(), job)?)?;
        Ok(())
    }

    /// Makes the request that is next: for a slice of the job whose turn it is, or for the queue.
    fn ask_next<W: Write, E: Write>(
        &mut self,
        rt: &HostRuntime,
        rounds: &Rounds,
        output: &mut W,
        errors: &mut E,
    ) -> io::Result<Outcome> {
        let Some(job) = rounds.next() else {
            let reply = ask(rt, self.port, QUEUE)?;
            return Ok(outcome_of_queue(rt.alloc(), &reply)?);
        };
        let outcome = self.ask_slice(rt, job)?;
        match &outcome {
            Outcome::Ran(ran) => self.tell(rt, job, ran, output)?,
            Outcome::Passed(passed) if is_spent(*passed) => self.tell_spent(rt, job, errors)?,
            _ => {}
        }
        Ok(outcome)
    }
}

/// Prints why no slice ran, and the way out.
fn tell_idle<E: Write>(
    port: u16,
    rounds: u32,
    outcome: Option<Passed>,
    errors: &mut E,
) -> io::Result<()> {
    let word = if rounds == 1 { "round" } else { "rounds" };
    write!(errors, "port {port}: no slice ran in {rounds} {word}")?;
    match outcome {
        Some(Passed::Refused(number)) => writeln!(
            errors,
            "; the last was refused {number}: bureau --help says why"
        ),
        Some(Passed::Failed(status)) => {
            writeln!(
                errors,
                "; the last was answered {status}: its disk may be full, which df shows"
            )
        }
        Some(Passed::Lost) => writeln!(
            errors,
            "; the last was cut off: the bureau ended, or its disk is full, which df shows"
        ),
        None => writeln!(errors),
    }
}

/// Prints why the work ended, if it is not done.
fn tell_end<E: Write>(
    port: u16,
    why: Why,
    rounds: u32,
    outcome: Option<Passed>,
    errors: &mut E,
) -> io::Result<Status> {
    match why {
        Why::Empty | Why::Rounds | Why::Spent => return Ok(Status::Done),
        Why::Idle => tell_idle(port, rounds, outcome, errors)?,
        Why::Away => writeln!(
            errors,
            "port {port}: no answer in {MOST_TRIES} tries; begin bureau serve there"
        )?,
        Why::Foreign => writeln!(errors, "port {port}: the answer is not that of a bureau")?,
    }
    Ok(Status::NotDone)
}

/// Why a slice did not run, if its reply was read.
fn passed_in(outcome: &Outcome) -> Option<Passed> {
    match outcome {
        Outcome::Passed(passed) => Some(*passed),
        _ => None,
    }
}

/// Runs the queue of the bureau that is served at a port. Which request is next, and when there is
/// a pause or an end, is said by `queue_rounds`.
pub(crate) fn run_queue<W: Write, E: Write>(
    rt: &HostRuntime,
    port: u16,
    options: crate::tasks::Rounds,
    output: &mut W,
    errors: &mut E,
) -> io::Result<Status> {
    let mut rounds = Rounds::new(rt.alloc(), options.most, options.keeps);
    let mut work = Work {
        port,
        slice: options.slice,
        tally: Tally::new(rt.alloc()),
        spent: Vec::new(rt.alloc()),
    };
    for _request in 0..u64::MAX {
        let outcome = work.ask_next(rt, &rounds, output, errors)?;
        let passed = passed_in(&outcome);
        match rounds.advance(outcome) {
            Next::GoOn => {}
            Next::Pause => thread::sleep(rt, Duration::from_secs(u64::from(options.pause))),
            Next::End(why) => return tell_end(port, why, rounds.idle_rounds(), passed, errors),
        }
    }
    Ok(Status::NotDone)
}
