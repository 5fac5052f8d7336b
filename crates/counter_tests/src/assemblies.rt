//! Assemblies of sources from a reader or to a writer that fails.

use crate::decks::{TWO_LINES_SOURCE, text_of};
use crate::devices::{Dripping, Full, is_device_fault};
use counter::{Assembled, assemble_deck};
use std::alloc::Global;
use std::test::Fail;

/// Whether an assembly wrote that a device failed, and returns no deck.
fn is_told(answer: Assembled, errors: &[u8]) -> bool {
    answer.out.is_none() && is_device_fault(answer.status, errors)
}

/// The same of an assembly whose output takes only `room` bytes.
fn output_fails(alloc: Global, text: &[u8], room: usize) -> Result<bool, Fail> {
    let mut errors = Vec::new(alloc);
    let answer = assemble_deck(alloc, text, &mut Full { room }, &mut errors)?;
    Ok(is_told(answer, &errors))
}

/// The same of an assembly from a reader that fails, which writes nothing else.
fn reader_fails(alloc: Global) -> Result<bool, Fail> {
    let mut output = Vec::new(alloc);
    let mut errors = Vec::new(alloc);
    let answer = assemble_deck(alloc, Dripping::torn(), &mut output, &mut errors)?;
    Ok(output.is_empty() && is_told(answer, &errors))
}

#[test]
fn a_failing_device_of_an_assembly_is_told(rt: HostRuntime) -> Result<(), Fail> {
    let alloc = rt.alloc();
    assert!(rt; reader_fails(alloc)?);
    let good = text_of(alloc, TWO_LINES_SOURCE)?;
    let faulty = good.get(..4 * 81).ok_or("four cards")?;
    // The last of each has room for everything, and fails if it is flushed.
    for (text, room) in [
        (good.as_slice(), 0),
        (good.as_slice(), 200),
        (good.as_slice(), 1000),
        (faulty, 0),
        (faulty, 15),
        (faulty, 1000),
    ] {
        assert!(rt; output_fails(alloc, text, room)?, "at {room}");
    }
    let (mut output, mut errors) = (Full { room: 0 }, Full { room: 5 });
    assert!(rt; assemble_deck(alloc, good.as_slice(), &mut output, &mut errors).is_err());
    Ok(())
}
