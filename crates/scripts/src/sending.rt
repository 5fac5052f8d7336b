//! Writing and counting bytes.

ghost use Rattle.scripts.specs.Sending.{Writes};

use crate::write_failed::WriteFailed;
use std::io::Write;
use texts::{Sent, send};

/// Writes the bytes, and adds the number written to the count.
pub(crate) fn put<W: Write>(
    writer: &mut W,
    sent: &mut usize,
    bytes: &[u8],
) -> Result<(), WriteFailed>
    ensures { Writes bytes.now (W.contents writer.old) (W.contents writer.new)
        sent.old sent.new result }
{
    match send(writer, bytes) {
        Sent::Whole => {
            *sent = sent.saturating_add(bytes.len());
            Ok(())
        }
        Sent::Failed(count) => {
            *sent = sent.saturating_add(count);
            Err(WriteFailed)
        }
    }
}
