//! The forms of a script's commands, as the help of `apply` has them.

use crate::help::APPLY_HELP;
use std::io;
use std::io::Write;

/// What a line of the help with a form begins with.
const INDENT: &str = "          ";

/// The form in a line of the help: its words before two blanks.
fn form_in(line: &'static str) -> Option<&'static str> {
    let text = line.strip_prefix(INDENT)?;
    if text.starts_with(' ') {
        return None;
    }
    match text.split_once("  ") {
        Some((form, _)) => Some(form),
        None => Some(text),
    }
}

/// The first word of a form.
fn verb_of(form: &'static str) -> &'static str {
    match form.split_once(' ') {
        Some((verb, _)) => verb,
        None => form,
    }
}

/// Writes how a command of a script is written, by its first word. Returns whether there is one.
pub fn tell_command_form<E: Write>(errors: &mut E, verb: &str) -> io::Result<bool> {
    for form in APPLY_HELP.lines().filter_map(form_in) {
        if verb_of(form) == verb {
            write!(
                errors,
                "it is not as {form}, with one blank between its words"
            )?;
            return Ok(true);
        }
    }
    Ok(false)
}

/// Writes the first words of all commands of a script.
pub fn tell_commands<E: Write>(errors: &mut E) -> io::Result<()> {
    write!(errors, "the commands are")?;
    for form in APPLY_HELP.lines().filter_map(form_in) {
        let verb = verb_of(form);
        write!(errors, " {verb}")?;
    }
    Ok(())
}
