//! Printing on the second writer, and the help.

ghost use Rattle.std.specs.{Prelude.{◌≡◌, ◌∷◌, [], ◌++◌, IfOk, OnOk}, Io.KnownBytes.{Appends}};
ghost use Rattle.command_line.specs.{
  Asked.{page_of},
  Printed.{IsTextShown, fault_words, version_text},
};

use crate::faults::Fault;
use crate::help::page;
use crate::statuses::Status;
use crate::subcommands::Subcommand;
use crate::versions::VERSION;
use std::io;
use std::io::Write;

/// Writes all bytes. An error is the writer's, which may have taken some of them.
pub fn put_out<W: Write>(output: &mut W, bytes: &[u8]) -> io::Result<()>
    ensures { OnOk result (Appends (W.contents output.old) (W.contents output.new) bytes.now) }
{
    output.write_all(bytes)?;
    output.flush()
}

/// Prints a fault. An error is the writer's.
pub fn tell_fault<E: Write>(errors: &mut E, fault: Fault) -> io::Result<Status>
    ensures { IfOk result (λ status. (status ≡ Status.NotDone)
        × Appends (E.contents errors.old) (E.contents errors.new) (fault_words fault ++ 10 ∷ [])) }
{
    writeln!(errors, "{fault}")?;
    Ok(Status::NotDone)
}

/// Writes a text. An error is the second writer's, on which nothing can be printed.
pub fn show_text<W: Write, E: Write>(
    text: &str,
    output: &mut W,
    errors: &mut E,
) -> io::Result<Status>
    ensures { IfOk result (λ status. IsTextShown text.now status
        (W.contents output.old) (W.contents output.new)
        (E.contents errors.old) (E.contents errors.new)) }
{
    if put_out(output, text.as_bytes()).is_err() {
        return tell_fault(errors, Fault::Device);
    }
    Ok(Status::Done)
}

/// Writes the help of a subcommand, or the whole help. An error is the second writer's, on which
/// nothing can be printed.
pub fn show_help<W: Write, E: Write>(
    output: &mut W,
    errors: &mut E,
    subcommand: Option<Subcommand>,
) -> io::Result<Status>
    ensures { IfOk result (λ status. IsTextShown (page_of subcommand) status
        (W.contents output.old) (W.contents output.new)
        (E.contents errors.old) (E.contents errors.new)) }
{
    show_text(page(subcommand), output, errors)
}

/// Writes the version. An error is the second writer's, on which
/// nothing can be printed.
pub fn show_version<W: Write, E: Write>(output: &mut W, errors: &mut E) -> io::Result<Status>
    ensures { IfOk result (λ status. IsTextShown version_text status
        (W.contents output.old) (W.contents output.new)
        (E.contents errors.old) (E.contents errors.new)) }
{
    show_text(VERSION, output, errors)
}
