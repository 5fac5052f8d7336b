//! The subcommand `class`: how the jobs of a list's customers stand.

use crate::class_pages::{PageFile, is_page_taken};
use crate::clients::{ask_jobs, ask_standing};
use crate::tasks::Class;
use command_line::Status;
use queue_rounds::{JobRow, push_page_row, push_row};
use std::alloc::{AllocError, Global};
use std::fs::File;
use std::io::Write;
use std::time::Duration;
use std::{io, thread};
use texts::{is_customer, read_up_to};

/// The most bytes that are read of a list of customers.
const MOST_BYTES: u64 = 1_000_000;

/// What the table on a terminal begins with.
const HEADING: &str = "customer      number      granted   cards   lines  standing\n";

/// What a page begins with, behind its title.
const PAGE_STYLE: &str = "\
<meta name=\"viewport\" content=\"width=device-width, initial-scale=1\">
<style>
body { font: 16px/1.5 sans-serif; margin: 1rem; }
div { overflow-x: auto; }
table { border-collapse: collapse; }
th, td { border-bottom: 1px solid #999; padding: 0.2rem 0.7rem; text-align: left; }
.n { font-variant-numeric: tabular-nums; text-align: right; }
tr { break-inside: avoid; }
@media (max-width: 40rem) {
  body { font-size: 14px; margin: 0.5rem; }
  th, td { padding: 0.15rem 0.3rem; }
}
</style>
</head>
<body>
";

/// The heading of a page's table.
const PAGE_HEADING: &str = "\
<div>
<table>
<thead><tr><th>customer</th><th class=\"n\">number</th><th>standing</th>\
<th class=\"n\">granted</th><th class=\"n\">cards</th><th class=\"n\">lines</th></tr></thead>
<tbody>
";

/// What a page ends with.
const PAGE_END: &str = "</tbody>\n</table>\n</div>\n</body>\n</html>\n";

/// What a list of customers is not.
enum NoNames {
    /// This line, counted from 1, is no customer's name.
    Line(usize),
    /// It has no line, or over 1,000,000 bytes, or is no text.
    Whole,
}

/// The rows of a table, and what they add up to.
#[derive(Drop)]
struct Table {
    is_page: bool,
    rows: Vec<u8>,
    customers: usize,
    /// The customers of whom nothing was told.
    untold: usize,
    jobs: usize,
    /// The jobs that are running.
    running: usize,
}

/// The customers of a list: the first word of each line, but for one that begins with `#`.
fn names_in(alloc: Global, text: &str) -> Result<Result<Vec<&str>, NoNames>, AllocError> {
    let mut names = Vec::new(alloc);
    let mut line = 0usize;
    for words in text.lines() {
        line = line.saturating_add(1);
        let Some(name) = words.split_ascii_whitespace().next() else {
            continue;
        };
        if name.starts_with('#') {
            continue;
        }
        if !is_customer(name) {
            return Ok(Err(NoNames::Line(line)));
        }
        names.push(name)?;
    }
    if names.is_empty() {
        return Ok(Err(NoNames::Whole));
    }
    Ok(Ok(names))
}

/// Prints what a list of customers is not.
fn tell_no_names<E: Write>(path: &str, no_names: NoNames, errors: &mut E) -> io::Result<Status> {
    match no_names {
        NoNames::Line(line) => writeln!(
            errors,
            "{path}: line {line} begins with no customer's name: 1 to 12 of A to Z and 0 to 9"
        )?,
        NoNames::Whole => writeln!(errors, "{path}: it is no list of customers, one a line")?,
    }
    Ok(Status::NotDone)
}

impl Table {
    /// A table without rows.
    fn new(alloc: Global, is_page: bool) -> Table {
        Table {
            is_page,
            rows: Vec::new(alloc),
            customers: 0,
            untold: 0,
            jobs: 0,
            running: 0,
        }
    }

    /// Adds a row that says something else of a customer than how a job stands.
    fn push_note(&mut self, customer: &str, note: &str) -> io::Result<()> {
        if self.is_page {
            return writeln!(
                self.rows,
                "<tr><td>{customer}</td><td></td><td colspan=\"4\">{note}</td></tr>"
            );
        }
        writeln!(self.rows, "{customer:12}{:39}{note}", "")
    }

    /// Adds the row of a job.
    fn push_job(&mut self, alloc: Global, row: JobRow<'_>) -> Result<(), AllocError> {
        self.jobs = self.jobs.saturating_add(1);
        if row.standing.standing.as_str() == "running" {
            self.running = self.running.saturating_add(1);
        }
        if self.is_page {
            return push_page_row(alloc, &mut self.rows, row);
        }
        push_row(alloc, &mut self.rows, row)
    }

    /// Asks for the jobs of a customer, and adds a row for each.
    fn push_customer(&mut self, rt: &HostRuntime, port: u16, customer: &str) -> io::Result<()> {
        self.customers = self.customers.saturating_add(1);
        let Some(numbers) = ask_jobs(rt, port, customer)? else {
            self.untold = self.untold.saturating_add(1);
            return self.push_note(customer, "no answer");
        };
        if numbers.is_empty() {
            return self.push_note(customer, "no job");
        }
        for number in &numbers {
            let number = *number;
            let Some(standing) = ask_standing(rt, port, customer, number)? else {
                self.push_note(customer, "no answer")?;
                continue;
            };
            let row = JobRow {
                customer,
                number,
                standing: &standing,
            };
            self.push_job(rt.alloc(), row)?;
        }
        Ok(())
    }

    /// Writes the sum of the rows.
    fn write_sum<W: Write>(&self, output: &mut W) -> io::Result<()> {
        let (customers, jobs, running) = (self.customers, self.jobs, self.running);
        write!(
            output,
            "customers {customers}, jobs {jobs}, {running} running"
        )
    }

    /// Tells of how many customers there was no answer. Returns the status that this gives.
    fn tell_untold<E: Write>(&self, port: u16, errors: &mut E) -> io::Result<Status> {
        let untold = self.untold;
        if untold == 0 {
            return Ok(Status::Done);
        }
        writeln!(
            errors,
            "port {port}: no answer of a bureau for {untold} of the customers; begin bureau serve there"
        )?;
        Ok(Status::NotDone)
    }

    /// Prints the table.
    fn print<W: Write>(&self, output: &mut W) -> io::Result<()> {
        output.write_all(HEADING.as_bytes())?;
        output.write_all(&self.rows)?;
        self.write_sum(output)?;
        output.write_all(b"\n")?;
        output.flush()
    }

    /// The page of the table. A browser loads it anew where it is shown again and again.
    fn page(&self, alloc: Global, class: Class<'_>) -> io::Result<Vec<u8>> {
        let (port, pause) = (class.port, class.pause);
        let mut page = Vec::new(alloc);
        write!(
            page,
            "<!DOCTYPE html>\n<html lang=\"en\">\n<head>\n<meta charset=\"utf-8\">\n\
             <title>Class at port {port}</title>\n"
        )?;
        if class.watches {
            writeln!(page, "<meta http-equiv=\"refresh\" content=\"{pause}\">")?;
        }
        page.extend_from_slice(PAGE_STYLE.as_bytes())?;
        write!(page, "<h1>Class at port {port}</h1>\n<p>")?;
        self.write_sum(&mut page)?;
        page.extend_from_slice(b"</p>\n")?;
        page.extend_from_slice(PAGE_HEADING.as_bytes())?;
        page.extend_from_slice(&self.rows)?;
        page.extend_from_slice(PAGE_END.as_bytes())?;
        Ok(page)
    }
}

/// Asks for the jobs of each customer once.
fn ask_all(rt: &HostRuntime, class: Class<'_>, names: &[&str]) -> io::Result<Table> {
    let mut table = Table::new(rt.alloc(), class.page.is_some());
    for customer in names {
        table.push_customer(rt, class.port, customer)?;
    }
    Ok(table)
}

/// Shows the jobs of customers, once or again and again: prints a table, or writes its page.
fn show_all<W: Write, E: Write>(
    rt: &HostRuntime,
    class: Class<'_>,
    names: &[&str],
    output: &mut W,
    errors: &mut E,
) -> io::Result<Status> {
    let mut file = PageFile::at(class.page);
    for _round in 0..u64::MAX {
        let table = ask_all(rt, class, names)?;
        match &mut file {
            Some(file) => {
                let page = table.page(rt.alloc(), class)?;
                if !file.write_or_tell(rt, page, errors)? {
                    return Ok(Status::NotDone);
                }
            }
            None => table.print(output)?,
        }
        let status = table.tell_untold(class.port, errors)?;
        if !class.watches {
            return Ok(status);
        }
        thread::sleep(rt, Duration::from_secs(u64::from(class.pause)));
    }
    Ok(Status::NotDone)
}

/// The text of a list of customers; none if it is too long or no text.
fn text_of(rt: &HostRuntime, path: &str) -> io::Result<Option<String>> {
    let bytes = read_up_to(rt.alloc(), File::open(rt, path)?, MOST_BYTES + 1)?;
    if bytes.len() as u64 > MOST_BYTES {
        return Ok(None);
    }
    Ok(String::from_utf8(bytes).ok())
}

impl Class<'_> {
    /// Shows how the jobs of the customers of a list stand at the bureau that is served at a port.
    pub(crate) fn carry_out<W: Write, E: Write>(
        self,
        rt: &HostRuntime,
        output: &mut W,
        errors: &mut E,
    ) -> io::Result<Status> {
        if let Some(page) = self.page
            && is_page_taken(rt, page, errors)?
        {
            return Ok(Status::NotDone);
        }
        let path = self.names;
        let text = match text_of(rt, path) {
            Ok(Some(text)) => text,
            Ok(None) => return tell_no_names(path, NoNames::Whole, errors),
            Err(error) => {
                writeln!(errors, "{path}: {error}")?;
                return Ok(Status::NotDone);
            }
        };
        match names_in(rt.alloc(), text.as_str())? {
            Ok(names) => show_all(rt, self, &names, output, errors),
            Err(no_names) => tell_no_names(path, no_names, errors),
        }
    }
}
