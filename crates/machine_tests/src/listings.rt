//! Listings that are written piece by piece, to a writer that may fail.

use bcd::Code;
use std::alloc::{AllocError, Global};
use std::io;
use std::io::{ErrorKind, Write};
use std::test::Fail;
use units::{LINE_LENGTH, Line, ListingWriter, render};

/// A writer that takes a number of bytes, and then fails.
#[derive(Drop)]
struct Limited {
    taken: Vec<u8>,
    room: usize,
}

impl Write for Limited {
    fn write(&mut self, bytes: &[u8]) -> io::Result<usize> {
        let count = bytes.len().min(self.room);
        if count == 0 {
            return Err(io::Error::from(ErrorKind::BrokenPipe));
        }
        self.taken.extend_from_slice(&bytes[..count])?;
        self.room -= count;
        Ok(count)
    }

    fn flush(&mut self) -> io::Result<()> {
        Ok(())
    }
}

/// So many lines without a blank, on each line of one form after the other.
fn full_lines(alloc: Global, count: u32) -> Result<Vec<Line>, AllocError> {
    let code = Code::from_glyph(b'A').unwrap_or(Code::blank());
    let mut lines = Vec::new(alloc);
    for number in 0..count {
        lines.push(Line {
            form: number / 66 + 1,
            line: (number % 66 + 1) as u8,
            codes: [code; LINE_LENGTH],
        })?;
    }
    Ok(lines)
}

/// Writes the listing of lines in two parts.
fn write_in_two<W: Write>(
    alloc: Global,
    output: &mut W,
    lines: &[Line],
    first: usize,
) -> io::Result<()> {
    let (before, behind) = lines.split_at(first.min(lines.len()));
    let mut writer = ListingWriter::new(alloc)?;
    writer.add(output, before)?;
    writer.add(output, behind)?;
    writer.finish(output)
}

#[test]
fn pieces_are_the_listing(rt: HostRuntime) -> Result<(), Fail> {
    let alloc = rt.alloc();
    for count in [0, 1, 2, 489, 490, 491, 492, 493, 979, 980, 981, 2000] {
        let lines = full_lines(alloc, count)?;
        let mut written = Vec::new(alloc);
        let first = count as usize / 3;
        write_in_two(alloc, &mut written, &lines, first)?;
        assert!(rt;
            written.as_slice() == render(alloc, &lines)?.as_slice(),
            "at {count}"
        );
    }
    Ok(())
}

#[test]
fn a_failing_writer_has_a_beginning(rt: HostRuntime) -> Result<(), Fail> {
    let alloc = rt.alloc();
    let lines = full_lines(alloc, 1000)?;
    let listing = render(alloc, &lines)?;
    for room in [
        0, 1, 65_147, 65_148, 65_177, 65_178, 65_536, 130_354, 133_014,
    ] {
        let mut output = Limited {
            taken: Vec::new(alloc),
            room,
        };
        let result = write_in_two(alloc, &mut output, &lines, 500);
        assert!(rt; result.is_err(), "at {room}");
        assert!(rt; output.taken.len() == room, "at {room}");
        assert!(rt;
            listing.as_slice().starts_with(output.taken.as_slice()),
            "at {room}"
        );
    }
    Ok(())
}
