//! Writing a listing while its lines are printed.

ghost use Rattle.std.specs.{
  Prelude.{◌≡◌, ◌≤◌, ◌+◌, ◌++◌, ℕ, [], List, Option, IfOk, OnOk},
  Vec.{vec_capacity, vec_len},
  Io.KnownBytes.{Appends, Keeps, append_known},
};
ghost use Rattle.units.specs.{
  Listing.{HasListed, IsListedTo, IsRising, most_added, rendered},
  Ranges.{the_top},
  declared.printer.Line.{Line},
};

use crate::listing::{MOST_ADDED, push_listed};
use crate::printer::Line;
use crate::ranges::Place;
use std::alloc::{AllocError, Global};
use std::io;
use std::io::Write;
use std::marker::Model;

/// The number of bytes of a listing that are written at once.
const PIECE: usize = 65_536;

/// A listing that is being written. No more than one piece of it is in memory, which is taken before
/// anything is written.
#[derive(Drop)]
pub struct ListingWriter {
    /// What is not written yet.
    piece: Vec<u8>,
    /// The line to which the listing has come, above the first form where it begins.
    place: Place,
}

impl Model for ListingWriter {
    ghost use Rattle.std.specs.Prelude.{◌≤◌};
    ghost use Rattle.std.specs.Vec.{vec_capacity};
    ghost use Rattle.units.specs.Listing.{Unwritten, most_added};

    ghost Value = { Unwritten };

    ghost view = { λ w. record { piece = w.piece.items; place = w.place } };

    ghost invariant = { λ w. most_added ≤ vec_capacity w.piece };
}

/// Writes a piece, and empties it.
fn put_piece<W: Write>(output: &mut W, piece: &mut Vec<u8>) -> io::Result<()>
    ensures kept { OnOk result (Keeps
        (append_known (W.contents output.old) piece.old.items)
        (append_known (W.contents output.new) piece.new.items)) }
    ensures empty { OnOk result (piece.new.items ≡ []) }
    ensures capacity { vec_capacity piece.new ≡ vec_capacity piece.old }
{
    output.write_all(piece.as_slice())?;
    piece.clear();
    Ok(())
}

/// Writes a piece, and empties it, if it has no room for what a line adds.
fn make_room<W: Write>(output: &mut W, piece: &mut Vec<u8>) -> io::Result<()>
    requires { most_added ≤ vec_capacity piece.old }
    ensures kept { OnOk result (Keeps
        (append_known (W.contents output.old) piece.old.items)
        (append_known (W.contents output.new) piece.new.items)) }
    ensures room { OnOk result (vec_len piece.new + most_added ≤ vec_capacity piece.new) }
    ensures capacity { vec_capacity piece.new ≡ vec_capacity piece.old }
{
    if piece.capacity() - piece.len() >= MOST_ADDED {
        return Ok(());
    }
    put_piece(output, piece)
}

/// Adds lines to a piece of a listing that has come to a place, and writes it where it is full.
/// Returns the place to which the listing has come.
fn put_lines<W: Write>(
    output: &mut W,
    piece: &mut Vec<u8>,
    place: Place,
    lines: &[Line],
) -> io::Result<Place>
    requires { most_added ≤ vec_capacity piece.old }
    ensures listed { IfOk result (λ come. (first : Option (List ℕ)) (before : List Line) →
        IsRising (before ++ lines.now) →
        HasListed first (W.contents output.old)
        (record { piece = piece.old.items; place = place }) before →
        HasListed first (W.contents output.new)
        (record { piece = piece.new.items; place = come }) (before ++ lines.now)) }
    ensures room { most_added ≤ vec_capacity piece.new }
{
    let mut come = place;
    for line in lines {
        make_room(output, piece)?;
        push_listed(piece, come.form, come.line, line);
        come = line.place();
    }
    Ok(come)
}

impl ListingWriter {
    /// Returns the writer of a listing that begins. Fails only if there is no memory for a piece.
    pub fn new(alloc: Global) -> Result<ListingWriter, AllocError>
        ensures { IfOk result (λ writer. writer ≡ record { piece = []; place = the_top }) }
    {
        Ok(ListingWriter {
            piece: Vec::with_capacity(alloc, PIECE)?,
            place: Place { form: 0, line: 0 },
        })
    }

    /// Adds printed lines that rise by form and line, behind those that were added before. Fails
    /// only if the output does, which may then have taken some of the listing.
    pub fn add<W: Write>(&mut self, output: &mut W, lines: &[Line]) -> io::Result<()>
        ensures { OnOk result ((first : Option (List ℕ)) (before : List Line) →
            IsRising (before ++ lines.now) →
            HasListed first (W.contents output.old) self.old before →
            HasListed first (W.contents output.new) self.new (before ++ lines.now)) }
    {
        self.place = put_lines(output, &mut self.piece, self.place, lines)?;
        Ok(())
    }

    /// Writes what is not written yet, so that the listing is whole. Fails as `add` does.
    pub fn finish<W: Write>(mut self, output: &mut W) -> io::Result<()>
        ensures { OnOk result ((first : Option (List ℕ)) (lines : List Line) →
            HasListed first (W.contents output.old) self lines →
            Appends first (W.contents output.new) (rendered lines)) }
    {
        put_piece(output, &mut self.piece)?;
        output.flush()
    }
}
