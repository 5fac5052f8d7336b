//! The lines of a source's faults.

ghost use Rattle.std.specs.{Prelude.{OnOk}, Io.KnownBytes.{Appends}};
ghost use Rattle.local_runs.specs.Endings.{fault_line, fault_lines};

use autocoder_layout::CardFault;
use std::io;
use std::io::Write;

/// Writes the line of a source's fault.
fn put_fault_line<W: Write>(output: &mut W, fault: CardFault) -> io::Result<()>
    ensures { OnOk result
        (Appends (W.contents output.old) (W.contents output.new) (fault_line fault)) }
{
    let card = fault.card;
    let number = fault.fault.number();
    writeln!(output, "card {card} fault {number}")
}

/// Writes the lines of a source's faults.
pub(crate) fn put_fault_lines<W: Write>(output: &mut W, faults: &[CardFault]) -> io::Result<()>
    ensures { OnOk result
        (Appends (W.contents output.old) (W.contents output.new) (fault_lines faults.now)) }
{
    for fault in faults {
        put_fault_line(output, *fault)?;
    }
    output.flush()
}
