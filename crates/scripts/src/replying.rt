//! The lines of replies.

ghost use Rattle.std.specs.{Prelude.{◌++◌, codes, decimal}, List.{flat_map}};
ghost use Rattle.machine.specs.Standings.{standing_words};
ghost use Rattle.scripts.specs.{
  Replies.{bad_line, fault_line, fault_words, job_words, line_of, made_words, queued_words, refusal_line, reply_line, summary_words},
  Sending.{Writes},
};

use crate::faults::ScriptFault;
use crate::pieces::{Piece, put_all, standing, truth};
use crate::sending::put;
use crate::write_failed::WriteFailed;
use autocoder_layout::CardFault;
use machine::StandingAt;
use office::{JobLine, QueueLine, Refusal, Reply, Summary};
use std::io::Write;

/// Writes how far a job ran, and its standing.
fn put_ran<W: Write>(
    writer: &mut W,
    sent: &mut usize,
    executed: u32,
    now: StandingAt,
) -> Result<(), WriteFailed>
    ensures { Writes (line_of (codes "ran " ++ decimal executed ++ codes " " ++ standing_words now))
        (W.contents writer.old) (W.contents writer.new) sent.old sent.new result }
{
    let [first, second, third, fourth] = standing(now);
    let pieces = [
        Piece::Number(u64::from(executed)),
        Piece::Text(" "),
        first,
        second,
        third,
        fourth,
        Piece::Text("\n"),
    ];
    put_all(writer, sent, "ran ", &pieces)
}

/// Writes what a job was granted and has made, and its flags.
fn put_made<W: Write>(writer: &mut W, sent: &mut usize, job: &Summary) -> Result<(), WriteFailed>
    ensures { Writes (line_of (made_words job.now)) (W.contents writer.old) (W.contents writer.new)
        sent.old sent.new result }
{
    let pieces = [
        Piece::Text(truth(job.held)),
        Piece::Text(" collected "),
        Piece::Text(truth(job.collected)),
        Piece::Text(" granted "),
        Piece::Number(u64::from(job.granted)),
        Piece::Text(" cards "),
        Piece::Number(u64::from(job.cards)),
        Piece::Text(" lines "),
        Piece::Number(u64::from(job.lines)),
        Piece::Text("\n"),
    ];
    put_all(writer, sent, " held ", &pieces)
}

/// Writes the standing of a job, and what it has made.
fn put_summary<W: Write>(writer: &mut W, sent: &mut usize, job: &Summary) -> Result<(), WriteFailed>
    ensures { Writes (line_of (summary_words job.now)) (W.contents writer.old)
        (W.contents writer.new) sent.old sent.new result }
{
    match put_all(writer, sent, "standing ", &standing(job.standing)) {
        Ok(()) => put_made(writer, sent, job),
        Err(failed) => Err(failed),
    }
}

/// Writes the numbers of a customer's jobs.
fn put_jobs<W: Write>(writer: &mut W, sent: &mut usize, jobs: &[JobLine]) -> Result<(), WriteFailed>
    ensures { Writes (line_of (codes "jobs" ++ flat_map job_words jobs.now))
        (W.contents writer.old) (W.contents writer.new) sent.old sent.new result }
{
    match put(writer, sent, b"jobs") {
        Ok(()) => {}
        Err(failed) => return Err(failed),
    }
    for job in jobs {
        let pieces = [Piece::Number(u64::from(job.number))];
        match put_all(writer, sent, " ", &pieces) {
            Ok(()) => {}
            Err(failed) => return Err(failed),
        }
    }
    put(writer, sent, b"\n")
}

/// Writes the jobs in the queue.
fn put_queue<W: Write>(
    writer: &mut W,
    sent: &mut usize,
    jobs: &[QueueLine],
) -> Result<(), WriteFailed>
    ensures { Writes (line_of (codes "queue" ++ flat_map queued_words jobs.now))
        (W.contents writer.old) (W.contents writer.new) sent.old sent.new result }
{
    match put(writer, sent, b"queue") {
        Ok(()) => {}
        Err(failed) => return Err(failed),
    }
    for job in jobs {
        let pieces = [
            Piece::Text(job.customer.as_str()),
            Piece::Text("/"),
            Piece::Number(u64::from(job.number)),
        ];
        match put_all(writer, sent, " ", &pieces) {
            Ok(()) => {}
            Err(failed) => return Err(failed),
        }
    }
    put(writer, sent, b"\n")
}

/// Writes the faults of a source.
fn put_faults<W: Write>(
    writer: &mut W,
    sent: &mut usize,
    faults: &[CardFault],
) -> Result<(), WriteFailed>
    ensures { Writes (line_of (codes "refused 16" ++ flat_map fault_words faults.now))
        (W.contents writer.old) (W.contents writer.new) sent.old sent.new result }
{
    match put(writer, sent, b"refused 16") {
        Ok(()) => {}
        Err(failed) => return Err(failed),
    }
    for at in faults {
        let pieces = [
            Piece::Number(u64::from(at.card)),
            Piece::Text(":"),
            Piece::Number(u64::from(at.fault.number())),
        ];
        match put_all(writer, sent, " ", &pieces) {
            Ok(()) => {}
            Err(failed) => return Err(failed),
        }
    }
    put(writer, sent, b"\n")
}

/// Writes the line of a refusal, and adds the number of bytes written to the count.
pub fn write_refusal<W: Write>(
    writer: &mut W,
    sent: &mut usize,
    reason: &Refusal,
) -> Result<(), WriteFailed>
    ensures { Writes (refusal_line reason.now) (W.contents writer.old) (W.contents writer.new)
        sent.old sent.new result }
{
    match reason {
        Refusal::Assembly(faults) => put_faults(writer, sent, &faults.0),
        other => {
            let number = Piece::Number(u64::from(other.number()));
            put_all(writer, sent, "refused ", &[number, Piece::Text("\n")])
        }
    }
}

/// Writes the line of a reply, and adds the number of bytes written to the count. Fails only if the
/// writer does.
pub fn write_reply<W: Write>(
    writer: &mut W,
    sent: &mut usize,
    reply: &Reply,
) -> Result<(), WriteFailed>
    ensures { Writes (reply_line reply.now) (W.contents writer.old) (W.contents writer.new)
        sent.old sent.new result }
{
    match reply {
        Reply::Taken { cards } => {
            let cards = Piece::Number(u64::from(*cards));
            put_all(writer, sent, "taken ", &[cards, Piece::Text("\n")])
        }
        Reply::Ran { executed, standing } => put_ran(writer, sent, *executed, *standing),
        Reply::Started => put(writer, sent, b"started\n"),
        Reply::Held => put(writer, sent, b"held\n"),
        Reply::Released => put(writer, sent, b"released\n"),
        Reply::Collected { cards, lines } => {
            let cards = Piece::Number(u64::from(*cards));
            let lines = Piece::Number(u64::from(*lines));
            let pieces = [cards, Piece::Text(" "), lines, Piece::Text("\n")];
            put_all(writer, sent, "collected ", &pieces)
        }
        Reply::Standing(job) => put_summary(writer, sent, job),
        Reply::Cards(_) | Reply::Lines(_) => put(writer, sent, b"\n"),
        Reply::Jobs(jobs) => put_jobs(writer, sent, &jobs.0),
        Reply::Queue(jobs) => put_queue(writer, sent, &jobs.0),
        Reply::Refused(reason) => write_refusal(writer, sent, reason),
    }
}

/// Writes the line of a fault of the bureau, 1 or 2.
pub fn write_fault<W: Write>(
    writer: &mut W,
    sent: &mut usize,
    number: u8,
) -> Result<(), WriteFailed>
    ensures { Writes (fault_line number) (W.contents writer.old) (W.contents writer.new)
        sent.old sent.new result }
{
    let number = Piece::Number(u64::from(number));
    put_all(writer, sent, "fault ", &[number, Piece::Text("\n")])
}

/// Writes the line for bytes that are not a script. Fails only if the writer does.
pub fn write_bad<W: Write>(
    writer: &mut W,
    sent: &mut usize,
    fault: ScriptFault,
) -> Result<(), WriteFailed>
    ensures { Writes (bad_line fault) (W.contents writer.old) (W.contents writer.new)
        sent.old sent.new result }
{
    match fault {
        ScriptFault::BadLine(number) => {
            let number = Piece::Number(number as u64);
            put_all(writer, sent, "bad line ", &[number, Piece::Text("\n")])
        }
        ScriptFault::TooLong => put(writer, sent, b"bad size\n"),
        ScriptFault::NoMemory => write_fault(writer, sent, 1),
    }
}
