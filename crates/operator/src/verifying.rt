//! The subcommand `verify`.

use crate::bag_files::{faults_of, file_in};
use crate::faults::done_or_told;
use crate::help::agent;
use crate::job_folders::{Filed, compare_folder, is_older};
use crate::shelves::{Shelf, Shelved, shelf_at};
use command_line::Status;
use job_archives::{RecordPart, Unrun, bag_of, run_archived};
use job_checks::{JobReport, JobRun, job_text};
use std::io;
use std::io::{ErrorKind, Write};

/// What came of a job's bag.
#[derive(Drop)]
pub(crate) enum Verdict {
    /// It is the bag of this job, which was run again from it.
    AsItRan(JobRun),
    /// What is wrong with it, in words.
    Wrong(Vec<String>),
}

/// Which part of a record is none, in words.
fn words_of(part: RecordPart) -> &'static str {
    match part {
        RecordPart::Name => "customer and number",
        RecordPart::Machine => "kind, size and profile",
        RecordPart::Stretches => "its stretches",
        RecordPart::Flags => "standing, held and collected",
    }
}

/// A verdict with one thing that is wrong.
fn wrong(rt: &HostRuntime, words: String) -> io::Result<Verdict> {
    let mut told = Vec::new(rt.alloc());
    told.push(words)?;
    Ok(Verdict::Wrong(told))
}

/// The verdict on a job that no bureau has: what a check tells of it, behind its name.
fn no_job(rt: &HostRuntime, report: &JobReport) -> io::Result<Verdict> {
    let text = String::from_utf8_lossy(rt.alloc(), &job_text(rt.alloc(), report)?)?;
    let line = text.as_str().trim_end();
    let told = match line.split_once(": ") {
        Some((_name, told)) => told,
        None => line,
    };
    wrong(rt, String::from_str(rt.alloc(), told)?)
}

/// The verdict on a job that was run again: how its bag differs from the one that is there.
fn compare_run(rt: &HostRuntime, path: &str, run: JobRun) -> io::Result<Verdict> {
    let bag = bag_of(rt.alloc(), agent(), &run)?;
    match compare_folder(rt, path, &bag)? {
        Filed::Same => Ok(Verdict::AsItRan(run)),
        Filed::Differs(names) => {
            let mut told = Vec::new(rt.alloc());
            for name in &names {
                let name = name.as_str();
                told.push(format!(in rt.alloc(); "{name} is not what the job makes")?)?;
            }
            Ok(Verdict::Wrong(told))
        }
        _ => wrong(rt, format!(in rt.alloc(); "it is no bag")?),
    }
}

/// The verdict on a bag whose files are whole: its job is run again from two of them.
fn run_again(rt: &HostRuntime, path: &str, deck: &[u8], record: &[u8]) -> io::Result<Verdict> {
    match run_archived(rt.alloc(), deck, record) {
        Ok(run) | Err(Unrun::Other(run)) => compare_run(rt, path, run),
        Err(Unrun::NoMemory) => Err(io::Error::from(ErrorKind::OutOfMemory)),
        Err(Unrun::Deck(fault)) => {
            let card = fault.card;
            let column = fault.column;
            let number = fault.error.number();
            wrong(
                rt,
                format!(in rt.alloc();
                    "data/deck.text: card {card} column {column} fault {number}"
                )?,
            )
        }
        Err(Unrun::Record(part)) => {
            let words = words_of(part);
            wrong(rt, format!(in rt.alloc(); "data/record is none: {words}")?)
        }
        Err(Unrun::Job(report)) => no_job(rt, &report),
    }
}

/// The verdict on a job whose folder has another name.
fn of_its_name(rt: &HostRuntime, job: &Shelved, verdict: Verdict) -> io::Result<Verdict> {
    let Verdict::AsItRan(run) = verdict else {
        return Ok(verdict);
    };
    if run.customer() == job.customer.as_str() && run.number() == job.number {
        return Ok(Verdict::AsItRan(run));
    }
    let customer = run.customer();
    let number = run.number();
    wrong(
        rt,
        format!(in rt.alloc(); "this is the folder of {customer} {number}")?,
    )
}

/// Judges the bag of a job: its files are whole by its manifests, and it is the bag of the job that
/// is run again from its deck and its record alone.
pub(crate) fn judge(rt: &HostRuntime, folder: &str, job: &Shelved) -> io::Result<Verdict> {
    let customer = job.customer.as_str();
    let number = job.number;
    let path = format!(in rt.alloc(); "{folder}/{customer}/{number}")?;
    let path = path.as_str();
    if is_older(rt, path)? {
        return wrong(
            rt,
            format!(in rt.alloc(); "it is of the older form, which has no bags")?,
        );
    }
    let told = faults_of(rt, path)?;
    if !told.is_empty() {
        return Ok(Verdict::Wrong(told));
    }
    let deck = file_in(rt, path, "data/deck.text")?;
    let record = file_in(rt, path, "data/record")?;
    let (Ok(deck), Ok(record)) = (deck, record) else {
        return wrong(rt, format!(in rt.alloc(); "its files change")?);
    };
    let verdict = run_again(rt, path, &deck, &record)?;
    of_its_name(rt, job, verdict)
}

/// Prints what is wrong with a job's bag.
pub(crate) fn tell_wrong<W: Write>(
    job: &Shelved,
    told: &[String],
    output: &mut W,
) -> io::Result<()> {
    let customer = job.customer.as_str();
    let number = job.number;
    write!(output, "{customer} {number}")?;
    let mut between = ": ";
    for words in told {
        output.write_all(between.as_bytes())?;
        output.write_all(words.as_bytes())?;
        between = ", ";
    }
    output.write_all(b"\n")?;
    output.flush()
}

/// Prints what is in a shelf and is no job's folder.
pub(crate) fn tell_others<W: Write>(shelf: &Shelf, output: &mut W) -> io::Result<()> {
    for path in &shelf.others {
        let path = path.as_str();
        writeln!(output, "{path}: this is no job's folder")?;
    }
    Ok(())
}

/// The word for so many jobs that differ.
pub(crate) fn differ(count: usize) -> &'static str {
    if count == 1 { "differs" } else { "differ" }
}

/// Judges the bags of a shelf, and prints what is wrong with each.
fn judge_all<W: Write>(rt: &HostRuntime, folder: &str, output: &mut W) -> io::Result<Status> {
    let shelf = shelf_at(rt, folder)?;
    let mut differing: usize = 0;
    for job in &shelf.jobs {
        match judge(rt, folder, job)? {
            Verdict::AsItRan(_run) => {
                let customer = job.customer.as_str();
                let number = job.number;
                writeln!(output, "{customer} {number}: as it ran")?;
                output.flush()?;
            }
            Verdict::Wrong(told) => {
                differing = differing.saturating_add(1);
                tell_wrong(job, &told, output)?;
            }
        }
    }
    tell_others(&shelf, output)?;
    let jobs = shelf.jobs.len();
    let differ = differ(differing);
    writeln!(output, "jobs {jobs}, {differing} {differ}")?;
    output.flush()?;
    if differing == 0 && shelf.others.is_empty() {
        Ok(Status::Done)
    } else {
        Ok(Status::NotDone)
    }
}

/// Runs each job of a shelf again from its bag alone, and compares the bag with what it makes.
pub(crate) fn verify_shelf<W: Write, E: Write>(
    rt: &HostRuntime,
    folder: &str,
    output: &mut W,
    errors: &mut E,
) -> io::Result<Status> {
    done_or_told(judge_all(rt, folder, output), folder, errors)
}
