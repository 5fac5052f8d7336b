//! Explanations of scripts that are not carried out, or not without refusals.

use crate::explaining::decks::{bytes_at, line_in, tell_line, tell_unread};
use crate::explaining::files::{explain_file, tell_refusal};
use crate::explaining::overheard::Heard;
use crate::explaining::told::Told;
use command_line::{tell_command_form, tell_commands};
use std::io;
use std::io::Write;
use texts::number_or_zero;

/// What is said of a line with a carriage return at its end.
const RETURN: &str = "it ends in CR LF, and each line ends in LF alone";

/// The number of cards that follow a line, if it begins a submission.
fn cards_after(line: &[u8]) -> u32 {
    let Ok(line) = str::from_utf8(line) else {
        return 0;
    };
    if !line.starts_with("submit ") {
        return 0;
    }
    match line.rsplit_once(' ') {
        Some((_, number)) => number_or_zero(number),
        None => 0,
    }
}

/// Whether the line of this number is a card of a submission above it.
fn is_card(bytes: &[u8], number: u32) -> bool {
    let mut is_card = false;
    let mut follow = 0u32;
    for line in bytes.split(|byte| *byte == b'\n').take(number as usize) {
        is_card = follow > 0;
        follow = match follow.checked_sub(1) {
            Some(left) => left,
            None => cards_after(line),
        };
    }
    is_card
}

/// Whether the line of this number has no end: nothing of the text comes behind it.
fn is_unended(bytes: &[u8], number: u32) -> bool {
    bytes.iter().filter(|byte| **byte == b'\n').count() < number as usize
}

/// The first word of a line, if it can be shown.
fn verb_of(line: &[u8]) -> Option<&str> {
    let line = str::from_utf8(line).ok()?;
    let verb = match line.split_once(' ') {
        Some((verb, _)) => verb,
        None => line,
    };
    if verb.is_empty() || !verb.bytes().all(|byte| byte.is_ascii_graphic()) {
        return None;
    }
    Some(verb)
}

/// Prints what is wrong with a line that is to be a command.
fn tell_command<E: Write>(errors: &mut E, line: &[u8]) -> io::Result<()> {
    let Some(verb) = verb_of(line) else {
        write!(errors, "it does not begin with a command; ")?;
        return tell_commands(errors);
    };
    if tell_command_form(errors, verb)? {
        return Ok(());
    }
    write!(errors, "{verb} is no command; ")?;
    tell_commands(errors)
}

/// Explains the line of a script that is bad, which has this number.
fn tell_bad<E: Write>(
    errors: &mut E,
    script: &str,
    bytes: &[u8],
    number: u32,
    line: &[u8],
) -> io::Result<()> {
    if is_card(bytes, number) && line.len() != 80 && !line.is_empty() {
        return tell_line(errors, script, line, number, 1, 30);
    }
    write!(errors, "{script}: line {number}: ")?;
    match line {
        [] if is_unended(bytes, number) => {
            writeln!(
                errors,
                "the script ends here, before all cards of the submission above"
            )
        }
        _ if is_unended(bytes, number) => writeln!(errors, "it has no line feed at its end"),
        [.., b'\r'] => writeln!(errors, "{RETURN}"),
        _ if is_card(bytes, number) => {
            writeln!(
                errors,
                "it is a card of the submission above, with a character of no card"
            )
        }
        _ => {
            tell_command(errors, line)?;
            writeln!(errors)
        }
    }
}

/// Explains the line of the script at a path that is bad, which has this number.
fn tell_bad_line<E: Write>(
    rt: &HostRuntime,
    script: &str,
    number: u32,
    errors: &mut E,
) -> io::Result<()> {
    let Some(bytes) = bytes_at(rt, script) else {
        return writeln!(
            errors,
            "{script}: line {number} is no command; `bureau apply --help` has their forms"
        );
    };
    match line_in(&bytes, number) {
        Some(line) => tell_bad(errors, script, &bytes, number, line),
        None => Ok(()),
    }
}

/// Prints a row of the help for each reason for which a command was refused.
fn tell_refusals<E: Write>(refusals: &[bool], errors: &mut E) -> io::Result<()> {
    for (number, is_told) in (0u32..).zip(refusals.iter()) {
        if *is_told {
            tell_refusal(errors, number)?;
        }
    }
    Ok(())
}

/// The number of the first line of a text that ends in CR LF.
fn return_in(bytes: &[u8]) -> Option<u32> {
    let lines = (1u32..).zip(bytes.split(|byte| *byte == b'\n'));
    for (number, line) in lines {
        if let [.., b'\r'] = line {
            return Some(number);
        }
    }
    None
}

/// Tells that lines of a script that was read end in CR LF, so that their last value has one more
/// character.
fn tell_return<E: Write>(rt: &HostRuntime, script: &str, errors: &mut E) -> io::Result<()> {
    match bytes_at(rt, script).and_then(|bytes| return_in(&bytes)) {
        Some(number) => writeln!(errors, "{script}: line {number}: {RETURN}"),
        None => Ok(()),
    }
}

/// Explains why a script was not carried out, or not without refusals, by what the output and the
/// standard error told.
pub(crate) fn explain_script<E: Write>(
    rt: &HostRuntime,
    file: &str,
    script: &str,
    output: Heard,
    told: Told,
    errors: &mut E,
) -> io::Result<()> {
    match told {
        Told::Device => return tell_unread(rt, Some(script), errors),
        Told::Fault(number) => return explain_file(rt, file, Told::Fault(number), errors),
        _ => {}
    }
    match output.last {
        Told::BadLine(number) => tell_bad_line(rt, script, number, errors),
        Told::Fault(number) => explain_file(rt, file, Told::Fault(number), errors),
        _ => {
            tell_refusals(&output.refusals, errors)?;
            tell_return(rt, script, errors)
        }
    }
}
