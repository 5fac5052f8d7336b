//! Writing bytes.

ghost use Rattle.texts.specs.Sending.{SentIs};

use std::io::Write;

/// The result of writing some bytes.
#[derive(Clone, Copy, Debug, PartialEq, Eq)]
pub enum Sent {
    /// The writer took all of them.
    Whole,
    /// The writer failed, or took none, after this number of bytes.
    Failed(usize),
}

/// Writes the bytes. Returns whether all of them were written, or else how many.
pub fn send<W: Write>(writer: &mut W, bytes: &[u8]) -> Sent
    ensures { SentIs bytes.now (W.contents writer.old) (W.contents writer.new) result }
{
    let mut sent = 0usize;
    while sent < bytes.len() {
        match writer.write(&bytes[sent..]) {
            Ok(0) => return Sent::Failed(sent),
            Ok(count) => sent += count,
            Err(_) => return Sent::Failed(sent),
        }
    }
    Sent::Whole
}
