//! Runs of decks from a reader or to a writer that fails.

use crate::decks::{TWO_LINES, text_of};
use crate::devices::{Dripping, Full, is_device_fault};
use core_store::Size;
use counter::{Status, run_deck};
use std::alloc::Global;
use std::io;
use std::io::{Read, Write};
use std::test::Fail;
use units::Switches;

/// Runs a deck on a machine of 4,000 positions, with switch A on.
fn run<R: Read + Drop, W: Write, E: Write>(
    alloc: Global,
    reader: R,
    output: &mut W,
    errors: &mut E,
) -> io::Result<Status> {
    let (size, switches) = (Size::Positions4000, Switches::A);
    run_deck(alloc, reader, output, errors, size, switches)
}

/// Whether a run whose output takes only `room` bytes writes that a device failed.
fn output_fails(alloc: Global, text: &[u8], room: usize) -> Result<bool, Fail> {
    let mut errors = Vec::new(alloc);
    let status = run(alloc, text, &mut Full { room }, &mut errors)?;
    Ok(is_device_fault(status, &errors))
}

/// Whether a run from a reader that fails writes that a device failed, and nothing else.
fn reader_fails(alloc: Global) -> Result<bool, Fail> {
    let mut output = Vec::new(alloc);
    let mut errors = Vec::new(alloc);
    let status = run(alloc, Dripping::torn(), &mut output, &mut errors)?;
    Ok(output.is_empty() && is_device_fault(status, &errors))
}

/// Whether a run whose second writer takes only `room` bytes fails.
fn errors_fail(alloc: Global, text: &[u8], room: usize) -> bool {
    let mut output = Vec::new(alloc);
    run(alloc, text, &mut output, &mut Full { room }).is_err()
}

#[test]
fn a_failing_device_is_told(rt: HostRuntime) -> Result<(), Fail> {
    let alloc = rt.alloc();
    assert!(rt; reader_fails(alloc)?);
    let text = text_of(alloc, TWO_LINES)?;
    // The listing has 12 bytes. With room for all of it, it is the flush that fails.
    for room in 0..=12 {
        assert!(rt; output_fails(alloc, &text, room)?, "at {room}");
    }
    assert!(rt; errors_fail(alloc, &text, 5));
    Ok(())
}
