//! The subcommand `watch`.

use crate::clients::{QUEUE, ask, ask_standing};
use crate::tasks::Watching;
use command_line::Status;
use queue_rounds::{JobName, Outcome, Standing, changes_between, outcome_of_queue};
use std::alloc::Global;
use std::io::Write;
use std::time::Duration;
use std::{io, thread};
use texts::{Made, push_made};

/// What is known of the queue of a bureau.
#[derive(Drop)]
struct Watch {
    port: u16,
    /// The queue that was told last.
    queue: Vec<JobName>,
    /// Whether a queue was told.
    began: bool,
    /// Whether the bureau could not be asked last.
    is_away: bool,
}

/// What is printed of how a job stands.
fn standing_text(alloc: Global, standing: &Standing) -> io::Result<Vec<u8>> {
    let mut text = Vec::from_slice(alloc, standing.standing.as_bytes())?;
    push_made(
        &mut text,
        Made {
            granted: standing.granted,
            cards: standing.cards,
            lines: standing.lines,
            held: standing.held,
            collected: standing.collected,
        },
    )?;
    text.push(b'\n')?;
    Ok(text)
}

impl Watch {
    /// Prints that a job came into the queue or left it, and how it stands.
    fn tell_job<W: Write>(
        &self,
        rt: &HostRuntime,
        job: &JobName,
        moved: &str,
        output: &mut W,
    ) -> io::Result<()> {
        let customer = job.customer.as_str();
        let number = job.number;
        match ask_standing(rt, self.port, customer, number)? {
            Some(standing) => {
                write!(output, "{customer} {number} {moved}: ")?;
                output.write_all(&standing_text(rt.alloc(), &standing)?)?;
            }
            None => writeln!(output, "{customer} {number} {moved}")?,
        }
        output.flush()
    }

    /// Prints which jobs left and came from the queue before to this one.
    fn tell_queue<W: Write>(
        &mut self,
        rt: &HostRuntime,
        queue: Vec<JobName>,
        output: &mut W,
    ) -> io::Result<()> {
        if !self.began && queue.is_empty() {
            writeln!(output, "queue empty")?;
            output.flush()?;
        }
        let changes = changes_between(rt.alloc(), &self.queue, &queue)?;
        for job in &changes.left {
            self.tell_job(rt, job, "left", output)?;
        }
        for job in &changes.came {
            self.tell_job(rt, job, "came", output)?;
        }
        self.queue = queue;
        self.began = true;
        Ok(())
    }

    /// Prints that the bureau stopped answering, or that it answers again.
    fn tell_away<W: Write>(&mut self, is_away: bool, output: &mut W) -> io::Result<()> {
        let port = self.port;
        if is_away && !self.is_away {
            writeln!(output, "port {port}: no answer")?;
        }
        if !is_away && self.is_away {
            writeln!(output, "port {port}: answers again")?;
        }
        self.is_away = is_away;
        output.flush()
    }

    /// Asks for the queue, and prints what changed. Returns whether a bureau answers there, or
    /// nobody.
    fn look<W: Write>(&mut self, rt: &HostRuntime, output: &mut W) -> io::Result<bool> {
        let reply = ask(rt, self.port, QUEUE)?;
        match outcome_of_queue(rt.alloc(), &reply)? {
            Outcome::Listed(queue) => {
                self.tell_away(false, output)?;
                self.tell_queue(rt, queue, output)?;
                Ok(true)
            }
            Outcome::Nothing => {
                self.tell_away(true, output)?;
                Ok(true)
            }
            _ => Ok(false),
        }
    }
}

/// Prints what comes into the queue of the bureau that is served at a port, and what leaves it.
pub(crate) fn watch_queue<W: Write, E: Write>(
    rt: &HostRuntime,
    watching: Watching,
    output: &mut W,
    errors: &mut E,
) -> io::Result<Status> {
    let Watching {
        port,
        rounds,
        pause,
    } = watching;
    let mut watch = Watch {
        port,
        queue: Vec::new(rt.alloc()),
        began: false,
        is_away: false,
    };
    let most = match rounds {
        Some(rounds) => u64::from(rounds),
        None => u64::MAX,
    };
    for round in 0..most {
        if round > 0 {
            thread::sleep(rt, Duration::from_secs(u64::from(pause)));
        }
        if !watch.look(rt, output)? {
            writeln!(errors, "port {port}: the answer is not that of a bureau")?;
            return Ok(Status::NotDone);
        }
    }
    Ok(Status::Done)
}
