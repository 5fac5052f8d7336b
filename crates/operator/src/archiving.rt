//! The subcommand `archive`.

use crate::faults::{done_or_told, tell_unopened};
use crate::help::agent;
use crate::job_folders::{Filed, file_job};
use crate::job_walks::{OnJob, walk_jobs};
use crate::page_files::{PAGE, PageFound, page_at, write_page};
use crate::readme::put_readme;
use crate::verifying::differ;
use command_line::Status;
use job_archives::{bag_of, page_of};
use job_checks::{JobReport, JobRun, Walked, job_text, orphans_text};
use std::io::Write;
use std::{fs, io};

/// How many jobs were written, were there already, and differ or could not be written.
#[derive(Clone, Copy)]
struct Counts {
    written: usize,
    same: usize,
    differing: usize,
}

/// The archive of the jobs of a bureau into a folder.
#[derive(Drop)]
struct Archiving<'a, W: Write> {
    rt: &'a HostRuntime,
    folder: &'a str,
    /// Whether each job's folder gets its page too.
    pages: bool,
    output: &'a mut W,
    counts: Counts,
}

/// Prints the names in which a folder differs, with a comma between two.
fn show_names<W: Write>(names: &[String], output: &mut W) -> io::Result<()> {
    let mut between = ": ";
    for name in names {
        output.write_all(between.as_bytes())?;
        output.write_all(name.as_bytes())?;
        between = ", ";
    }
    output.write_all(b"\n")
}

/// What is said of a folder that was written.
fn written_words(with_page: bool) -> &'static str {
    if with_page {
        "6 files and a page"
    } else {
        "6 files"
    }
}

/// What is said of a folder that was there.
fn same_words(with_page: bool) -> &'static str {
    if with_page {
        "is there and the same, its page written"
    } else {
        "is there and the same"
    }
}

/// Whether a folder of which this came has a place for a page, or nothing wrong but what is there.
fn has_place(filed: &Filed) -> bool {
    match filed {
        Filed::Written | Filed::Same => true,
        Filed::Differs(names) => names.len() == 1 && names[0].as_str() == PAGE,
        Filed::Older | Filed::Hindered(_) => false,
    }
}

impl<W: Write> Archiving<'_, W> {
    /// Counts and prints what came of a job's archive, and whether its page was written.
    fn tell(&mut self, run: &JobRun, filed: &Filed, with_page: bool) -> io::Result<()> {
        let customer = run.customer();
        let number = run.number();
        match filed {
            Filed::Written => {
                self.counts.written = self.counts.written.saturating_add(1);
                let words = written_words(with_page);
                writeln!(self.output, "{customer} {number}: {words}")
            }
            Filed::Same => {
                self.counts.same = self.counts.same.saturating_add(1);
                let words = same_words(with_page);
                writeln!(self.output, "{customer} {number} {words}")
            }
            Filed::Differs(names) => {
                self.counts.differing = self.counts.differing.saturating_add(1);
                write!(self.output, "{customer} {number} is there and differs")?;
                show_names(names, self.output)
            }
            Filed::Older => {
                self.counts.differing = self.counts.differing.saturating_add(1);
                writeln!(
                    self.output,
                    "{customer} {number} is of the older form: move it away, and archive again"
                )
            }
            Filed::Hindered(path) => {
                self.counts.differing = self.counts.differing.saturating_add(1);
                let path = path.as_str();
                writeln!(
                    self.output,
                    "{customer} {number}: {path} is in the way; move it elsewhere"
                )
            }
        }
    }

    /// Puts the page of a job in its folder, of which this came. Returns what came of both, and
    /// whether the page was written.
    fn put_page(&self, run: &JobRun, filed: Filed) -> io::Result<(Filed, bool)> {
        if !has_place(&filed) {
            return Ok((filed, false));
        }
        let customer = run.customer();
        let number = run.number();
        let folder = self.folder;
        let path = format!(in self.rt.alloc(); "{folder}/{customer}/{number}")?;
        match page_at(self.rt, &path)? {
            PageFound::Missing(place) => {
                let page = page_of(self.rt.alloc(), agent(), run)?;
                write_page(self.rt, &place, &page)?;
                Ok((filed, true))
            }
            PageFound::Kept => Ok((filed, false)),
            PageFound::Hindered(path) => Ok((Filed::Hindered(path), false)),
        }
    }

    /// Files a job that is as it ran.
    fn file(&mut self, run: &JobRun) -> io::Result<()> {
        let bag = bag_of(self.rt.alloc(), agent(), run)?;
        let filed = file_job(self.rt, self.folder, run.customer(), run.number(), &bag)?;
        let (filed, with_page) = if self.pages {
            self.put_page(run, filed)?
        } else {
            (filed, false)
        };
        self.tell(run, &filed, with_page)
    }

    /// Prints what differs of a job.
    fn tell_difference(&mut self, report: &JobReport) -> io::Result<()> {
        self.counts.differing = self.counts.differing.saturating_add(1);
        let text = job_text(self.rt.alloc(), report)?;
        self.output.write_all(&text)
    }
}

impl<W: Write> OnJob for Archiving<'_, W> {
    fn begin(&mut self) -> io::Result<()> {
        make_folder(self.rt, self.folder)
    }

    fn take_job(&mut self, found: Result<JobRun, JobReport>) -> io::Result<()> {
        match found {
            Ok(run) => self.file(&run)?,
            Err(report) => self.tell_difference(&report)?,
        }
        self.output.flush()
    }
}

/// Makes the folder of an archive, and the text that says how to read it, unless they are there.
fn make_folder(rt: &HostRuntime, folder: &str) -> io::Result<()> {
    match fs::create_dir(rt, folder) {
        Err(error) if error.kind() == io::ErrorKind::AlreadyExists => {}
        made => made?,
    }
    put_readme(rt, folder)
}

/// Prints a row of `bureau` that is not as it is to be, and how many jobs were written, were there
/// and differ.
fn tell_end<W: Write>(
    rt: &HostRuntime,
    walked: &Walked,
    counts: Counts,
    output: &mut W,
) -> io::Result<Status> {
    let orphans = walked.orphans(rt.alloc())?;
    let text = orphans_text(rt.alloc(), &orphans)?;
    output.write_all(&text)?;
    let jobs = walked.jobs;
    let Counts {
        written,
        same,
        differing,
    } = counts;
    let differ = differ(differing);
    writeln!(
        output,
        "jobs {jobs}, {written} written, {same} the same, {differing} {differ}"
    )?;
    output.flush()?;
    if differing == 0 && orphans.is_empty() {
        Ok(Status::Done)
    } else {
        Ok(Status::NotDone)
    }
}

/// Runs each job of the bureau's file at a path again, and files those that are as they ran in a
/// folder, each with its page if pages are asked for.
pub(crate) fn archive_file<W: Write, E: Write>(
    rt: &HostRuntime,
    file: &str,
    folder: &str,
    pages: bool,
    output: &mut W,
    errors: &mut E,
) -> io::Result<Status> {
    let mut archiving = Archiving {
        rt,
        folder,
        pages,
        output,
        counts: Counts {
            written: 0,
            same: 0,
            differing: 0,
        },
    };
    let walked = walk_jobs(rt, file, &mut archiving);
    let Archiving { counts, output, .. } = archiving;
    match walked {
        Ok(Ok(walked)) => done_or_told(tell_end(rt, &walked, counts, output), folder, errors),
        Ok(Err(fault)) => tell_unopened(rt, file, fault, errors),
        Err(error) => done_or_told(Err(error), folder, errors),
    }
}
