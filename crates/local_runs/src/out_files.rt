//! What is written to OUT.

ghost use Rattle.std.specs.{Prelude.{◌≡◌, None, IfOk, Ok}, Io.KnownBytes.{Keeps}};
ghost use Rattle.local_runs.specs.{Endings.{out_in}, Put.{IsPut}};

use crate::replacing::put_file;
use crate::showing::Assembled;
use command_line::{Status, tell_fault};
use std::io;
use std::io::Write;

/// Writes the bytes that an assembly returned for OUT, if any, and returns how the program ends. If
/// the file cannot be written, the fault is printed. Fails only if `errors` itself fails.
pub fn write_out<E: Write>(
    rt: &HostRuntime,
    out: &str,
    answer: Assembled,
    errors: &mut E,
) -> io::Result<Status>
    ensures stays { out_in answer ≡ None → result ≡ Ok answer.status }
    ensures quiet { out_in answer ≡ None → Keeps (E.contents errors.old) (E.contents errors.new) }
    ensures put { IfOk result (λ status. IsPut answer.status status
        (E.contents errors.old) (E.contents errors.new)) }
{
    match answer {
        Assembled {
            status,
            out: Some(deck),
        } => match put_file(rt, out, &deck) {
            Ok(()) => Ok(status),
            Err(fault) => tell_fault(errors, fault),
        },
        Assembled { status, out: None } => Ok(status),
    }
}
