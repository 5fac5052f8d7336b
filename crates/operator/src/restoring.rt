//! The subcommand `restore`.

ghost use Rattle.std.specs.Prelude.{⊤};

use crate::copy_faults::{Made, tell_copy_fault, tell_unmade};
use crate::job_walks::{OnJob, walk_jobs};
use crate::shelves::{Shelf, Shelved, shelf_at};
use crate::verifying::{Verdict, differ, judge, tell_others, tell_wrong};
use command_line::Status;
use exchanges::{ScriptEnd, Scripted, script};
use file_copies::{NotRestored, Restoring, restore};
use job_archives::{Archive, files_of, flag_script, parts_of, stretch_script};
use job_checks::{JobReport, JobRun, job_text};
use ledger::{Bureau, Work};
use ledger_files::with_bureau;
use ledger_tables::OpenFault;
use machine::Meter;
use sqlite::{Alter, Unknown};
use std::alloc::AllocError;
use std::io;
use std::io::Write;

/// Why the commands of a job were not all carried out.
#[derive(Drop)]
enum Unapplied {
    /// A command was refused.
    Refused,
    /// The bureau's file could not be used, or there was no memory.
    File(OpenFault),
}

impl From<AllocError> for Unapplied {
    fn from(_error: AllocError) -> Unapplied {
        Unapplied::File(OpenFault::NoMemory)
    }
}

/// The work of carrying out the commands of a script in memory.
#[derive(Drop)]
struct ScriptWork<'a> {
    script: &'a [u8],
    scripted: Option<Scripted>,
}

impl Work for ScriptWork<'_> {
    ghost tells = { λ before after old new done replies. ⊤ };

    fn carry_out<S: Alter, O: Write>(
        &mut self,
        rt: &HostRuntime,
        bureau: &mut Bureau<S>,
        output: &mut O,
    ) {
        let mut reader = self.script;
        let mut meter = Meter::new();
        let scripted = script(rt.alloc(), &mut reader, output, bureau, &mut meter);
        self.scripted = Some(scripted);
    }
}

/// What came of a script.
fn done(scripted: Option<Scripted>) -> Result<(), Unapplied> {
    match scripted {
        Some(
            Scripted {
                ended: ScriptEnd::Whole,
                refused: false,
                ..
            },
        ) => Ok(()),
        Some(
            Scripted {
                ended: ScriptEnd::Fault(fault),
                ..
            },
        ) => Err(Unapplied::File(OpenFault::from(fault))),
        _ => Err(Unapplied::Refused),
    }
}

/// Carries out the commands of a script by the bureau whose file is at a path.
fn apply(rt: &HostRuntime, file: &str, script: &[u8]) -> Result<(), Unapplied> {
    let mut work = ScriptWork {
        script,
        scripted: None,
    };
    let mut replies = io::sink();
    match with_bureau(rt, file, Unknown, &mut work, &mut replies) {
        Ok(_closed) => done(work.scripted),
        Err(left) => Err(Unapplied::File(left.fault())),
    }
}

/// Hands a job in again: its deck, its starts and its slices, and its flags.
fn hand_in(rt: &HostRuntime, file: &str, run: &JobRun) -> Result<(), Unapplied> {
    let stretches = run.stretches();
    for at in 0..stretches.len() {
        for part in 0..parts_of(stretches[at]) {
            let script = stretch_script(rt.alloc(), run, at, stretches[at], part)?;
            apply(rt, file, &script)?;
        }
    }
    let flags = flag_script(rt.alloc(), run)?;
    apply(rt, file, &flags)
}

/// How many jobs of a shelf are the same in the new bureau, and how many are not.
#[derive(Clone, Copy)]
struct Counts {
    same: usize,
    differing: usize,
}

/// The comparison of the jobs of a new bureau with those of a shelf.
#[derive(Drop)]
struct Comparing<'a, W: Write> {
    rt: &'a HostRuntime,
    folder: &'a str,
    output: &'a mut W,
    counts: Counts,
}

/// The first line in which two records differ, of each.
fn first_other<'a>(kept: &'a [u8], now: &'a [u8]) -> (&'a [u8], &'a [u8]) {
    let mut others = now.split(|byte| *byte == b'\n');
    for line in kept.split(|byte| *byte == b'\n') {
        match others.next() {
            Some(other) if other == line => {}
            Some(other) => return (line, other),
            None => return (line, b""),
        }
    }
    (b"", b"")
}

/// Writes in which files two archives differ, and of their records the first line that does.
fn tell_apart<W: Write>(kept: &Archive, now: &Archive, output: &mut W) -> io::Result<()> {
    let (line, other) = first_other(&kept.facts, &now.facts);
    output.write_all(b"was ")?;
    output.write_all(line)?;
    output.write_all(b", and is now ")?;
    output.write_all(other)?;
    let files = [
        ("lines.text", kept.lines.as_slice() == now.lines.as_slice()),
        ("cards.text", kept.cards.as_slice() == now.cards.as_slice()),
    ];
    for (name, is_same) in files {
        let word = if is_same { "the same" } else { "other" };
        write!(output, ", {word} {name}")?;
    }
    output.write_all(b"\n")
}

/// Whether two archives have the same files.
fn are_same(kept: &Archive, now: &Archive) -> bool {
    kept.deck.as_slice() == now.deck.as_slice()
        && kept.loaded.as_slice() == now.loaded.as_slice()
        && kept.lines.as_slice() == now.lines.as_slice()
        && kept.punched.as_slice() == now.punched.as_slice()
        && kept.cards.as_slice() == now.cards.as_slice()
        && kept.facts.as_slice() == now.facts.as_slice()
}

impl<W: Write> Comparing<'_, W> {
    /// Compares a job of the new bureau with the one of the shelf.
    fn compare(&mut self, run: &JobRun) -> io::Result<()> {
        let customer = run.customer();
        let number = run.number();
        let shelved = Shelved {
            customer: String::from_str(self.rt.alloc(), customer)?,
            number,
        };
        let Verdict::AsItRan(kept) = judge(self.rt, self.folder, &shelved)? else {
            self.counts.differing = self.counts.differing.saturating_add(1);
            return writeln!(self.output, "{customer} {number}: its bag has changed");
        };
        let kept = files_of(self.rt.alloc(), &kept)?;
        let now = files_of(self.rt.alloc(), run)?;
        if are_same(&kept, &now) {
            self.counts.same = self.counts.same.saturating_add(1);
            return writeln!(self.output, "{customer} {number}: the same");
        }
        self.counts.differing = self.counts.differing.saturating_add(1);
        write!(self.output, "{customer} {number} differs: ")?;
        tell_apart(&kept, &now, self.output)
    }
}

impl<W: Write> OnJob for Comparing<'_, W> {
    fn begin(&mut self) -> io::Result<()> {
        Ok(())
    }

    fn take_job(&mut self, found: Result<JobRun, JobReport>) -> io::Result<()> {
        match found {
            Ok(run) => self.compare(&run)?,
            Err(report) => {
                self.counts.differing = self.counts.differing.saturating_add(1);
                let text = job_text(self.rt.alloc(), &report)?;
                self.output.write_all(&text)?;
            }
        }
        self.output.flush()
    }
}

/// Hands in the jobs of a shelf, and prints what is wrong with a bag. Returns how many are wrong.
fn hand_in_all<W: Write>(
    rt: &HostRuntime,
    folder: &str,
    shelf: &Shelf,
    file: &str,
    output: &mut W,
) -> Result<usize, Unrestored> {
    let mut wrong: usize = 0;
    for job in &shelf.jobs {
        match judge(rt, folder, job)? {
            Verdict::AsItRan(run) => match hand_in(rt, file, &run) {
                Ok(()) | Err(Unapplied::Refused) => {}
                Err(Unapplied::File(fault)) => return Err(Unrestored::File(fault)),
            },
            Verdict::Wrong(told) => {
                wrong = wrong.saturating_add(1);
                tell_wrong(job, &told, output)?;
            }
        }
    }
    Ok(wrong)
}

/// Compares the jobs of the new bureau with those of the shelf.
fn compare_all<W: Write>(
    rt: &HostRuntime,
    folder: &str,
    file: &str,
    output: &mut W,
) -> Result<Counts, Unrestored> {
    let mut comparing = Comparing {
        rt,
        folder,
        output,
        counts: Counts {
            same: 0,
            differing: 0,
        },
    };
    match walk_jobs(rt, file, &mut comparing)? {
        Ok(_walked) => Ok(comparing.counts),
        Err(fault) => Err(Unrestored::File(fault)),
    }
}

/// Why the jobs of a shelf were not handed in and compared.
#[derive(Drop)]
enum Unrestored {
    /// The shelf could not be read, or the output not be written.
    Shelf(io::Error),
    /// The new bureau's file could not be used, or there was no memory.
    File(OpenFault),
}

impl From<io::Error> for Unrestored {
    fn from(error: io::Error) -> Unrestored {
        Unrestored::Shelf(error)
    }
}

/// What came of the jobs of a shelf.
#[derive(Clone, Copy)]
struct Sum {
    /// How many there are.
    jobs: usize,
    /// How many were not handed in, since their bags are wrong.
    wrong: usize,
    /// How those that were handed in compare with their bags.
    counts: Counts,
    /// Whether the shelf has nothing but jobs' folders.
    is_pure: bool,
}

/// The handing in of the jobs of a shelf, with what is printed of it.
#[derive(Drop)]
struct Restoration<'a, W: Write> {
    folder: &'a str,
    output: &'a mut W,
}

impl<W: Write> Restoring for Restoration<'_, W> {
    type Sum = Sum;

    type Fault = Unrestored;

    ghost found_restored = { λ it sum. ⊤ };

    fn restore(&mut self, rt: &HostRuntime, path: &str) -> Result<Sum, Unrestored> {
        let shelf = shelf_at(rt, self.folder)?;
        let wrong = hand_in_all(rt, self.folder, &shelf, path, self.output)?;
        let counts = compare_all(rt, self.folder, path, self.output)?;
        tell_others(&shelf, self.output)?;
        Ok(Sum {
            jobs: shelf.jobs.len(),
            wrong,
            counts,
            is_pure: shelf.others.is_empty(),
        })
    }
}

impl Sum {
    /// Prints it for a new file.
    fn tell<W: Write>(self, new: &str, output: &mut W) -> io::Result<Status> {
        let Sum {
            jobs,
            wrong,
            counts: Counts { same, differing },
            is_pure,
        } = self;
        let differ = differ(differing);
        writeln!(
            output,
            "{new}: jobs {jobs}, {same} the same, {differing} {differ}, {wrong} not restored"
        )?;
        output.flush()?;
        if differing == 0 && wrong == 0 && is_pure {
            Ok(Status::Done)
        } else {
            Ok(Status::NotDone)
        }
    }
}

/// What is said where the jobs cannot be put into the new file.
const UNFILLED: &str =
    "it cannot be filled: its disk is full or fails; df shows whether it is full";

/// Hands in the jobs of a shelf to a new bureau, whose file gets its name when all of them were
/// compared with the shelf.
pub(crate) fn restore_shelf<W: Write, E: Write>(
    rt: &HostRuntime,
    folder: &str,
    new: &str,
    output: &mut W,
    errors: &mut E,
) -> io::Result<Status> {
    let mut restoration = Restoration { folder, output };
    match restore(rt, new, &mut restoration) {
        Ok(sum) => sum.tell(new, output),
        Err(NotRestored::File(fault)) => {
            let made = Made {
                file: folder,
                second: folder,
                new,
            };
            tell_copy_fault(rt, made, fault, &None, &None, errors)
        }
        Err(NotRestored::Jobs(Unrestored::File(fault))) => {
            tell_unmade(new, fault, UNFILLED, errors)
        }
        Err(NotRestored::Jobs(Unrestored::Shelf(error))) => {
            writeln!(errors, "{folder}: {error}")?;
            Ok(Status::NotDone)
        }
    }
}
