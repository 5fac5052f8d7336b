//! The row of a fault or of a refusal in the help.

use crate::help::HELP;
use std::io;
use std::io::Write;
use texts::number_or_zero;

/// Where the number of a row begins in its line.
const NUMBER: usize = 2;

/// Where it says what the fault is.
const WHAT: usize = 10;

/// Where it says the way out.
const WAY: usize = 44;

/// The text between two columns of a line, without the blanks behind it.
fn between(line: &'static str, begin: usize, end: usize) -> &'static str {
    let end = end.min(line.len());
    match line.get(begin..end) {
        Some(text) => text.trim_end(),
        None => "",
    }
}

/// The part of the help that has the rows of the refusals.
const REFUSALS: &str = "refusals of a bureau";

/// The rows of the refusals. One of them has the number of a fault.
fn refusal_rows() -> &'static str {
    match HELP.split_once(REFUSALS) {
        Some((_, rows)) => rows,
        None => HELP,
    }
}

/// Writes what the first row of a number has between two columns. Its further lines have none.
fn tell_column<E: Write>(
    errors: &mut E,
    rows: &'static str,
    number: u32,
    begin: usize,
    end: usize,
) -> io::Result<()> {
    let mut is_row = false;
    for line in rows.lines() {
        let named = between(line, NUMBER, WHAT);
        if is_row && !named.is_empty() {
            return Ok(());
        }
        let text = between(line, begin, end);
        if is_row && !text.is_empty() {
            write!(errors, " {text}")?;
        }
        if number_or_zero(named) == number {
            is_row = true;
            write!(errors, "{text}")?;
        }
    }
    Ok(())
}

/// Writes a row: what it is, and the way out.
fn tell_row<E: Write>(errors: &mut E, rows: &'static str, number: u32) -> io::Result<()> {
    tell_column(errors, rows, number, WHAT, WAY)?;
    write!(errors, "; ")?;
    tell_column(errors, rows, number, WAY, usize::MAX)
}

/// Writes the row of the help on the fault of a number: what it is, and the way out. A number
/// without a row writes a semicolon alone.
pub fn tell_fault_row<E: Write>(errors: &mut E, number: u32) -> io::Result<()> {
    tell_row(errors, HELP, number)
}

/// Writes the row of the help on the refusal of a number, as that of a fault.
pub fn tell_refusal_row<E: Write>(errors: &mut E, number: u32) -> io::Result<()> {
    tell_row(errors, refusal_rows(), number)
}
