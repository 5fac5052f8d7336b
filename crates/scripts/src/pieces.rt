//! Lines in pieces, which take no memory.

ghost use Rattle.std.specs.{Prelude.{◌≡◌, ◌++◌}, List.{flat_map}};
ghost use Rattle.scripts.specs.Pieces.{piece_bytes};
ghost use Rattle.machine.specs.Standings.{standing_words};
ghost use Rattle.scripts.specs.{Replies.{truth}, Sending.{Writes}};

use crate::sending::put;
use crate::write_failed::WriteFailed;
use itoa::Buffer;
use machine::StandingAt;
use std::io::Write;

/// A piece of a line.
#[derive(Clone, Copy)]
pub(crate) enum Piece<'a> {
    /// A text.
    Text(&'a str),
    /// A number in plain decimal.
    Number(u64),
}

/// Writes a piece.
fn put_piece<W: Write>(
    writer: &mut W,
    sent: &mut usize,
    piece: &Piece<'_>,
) -> Result<(), WriteFailed>
    ensures { Writes (piece_bytes piece.now) (W.contents writer.old) (W.contents writer.new)
        sent.old sent.new result }
{
    match piece {
        Piece::Text(text) => put(writer, sent, text.as_bytes()),
        Piece::Number(number) => {
            let mut buffer = Buffer::new();
            put(writer, sent, buffer.format(*number).as_bytes())
        }
    }
}

/// Writes a text, and then pieces.
pub(crate) fn put_all<W: Write>(
    writer: &mut W,
    sent: &mut usize,
    text: &str,
    pieces: &[Piece<'_>],
) -> Result<(), WriteFailed>
    ensures { Writes (text.now ++ flat_map piece_bytes pieces.now) (W.contents writer.old)
        (W.contents writer.new) sent.old sent.new result }
{
    match put(writer, sent, text.as_bytes()) {
        Ok(()) => {}
        Err(failed) => return Err(failed),
    }
    for piece in pieces {
        match put_piece(writer, sent, piece) {
            Ok(()) => {}
            Err(failed) => return Err(failed),
        }
    }
    Ok(())
}

/// The standing of a job, in pieces.
pub(crate) fn standing(standing: StandingAt) -> [Piece<'static>; 4]
    ensures { flat_map piece_bytes result ≡ standing_words standing }
{
    match standing {
        StandingAt::Running => [
            Piece::Text("running"),
            Piece::Text(""),
            Piece::Text(""),
            Piece::Text(""),
        ],
        StandingAt::Halted { next } => [
            Piece::Text("halted next "),
            Piece::Number(u64::from(next)),
            Piece::Text(""),
            Piece::Text(""),
        ],
        StandingAt::Checked { check, at } => [
            Piece::Text("check "),
            Piece::Text(check.name()),
            Piece::Text(" at "),
            Piece::Number(u64::from(at)),
        ],
    }
}

/// A truth value as a digit.
pub(crate) fn truth(value: bool) -> &'static str
    ensures { result.now ≡ truth value }
{
    if value { "1" } else { "0" }
}
