//! The help on a writer that fails, and words for which there is no memory.

use crate::devices::Full;
use command_line::{Mistake, show_help, tell_mistake};
use std::alloc::AllocError;
use std::test::Fail;

#[test]
fn a_help_that_is_not_flushed_is_a_fault(rt: HostRuntime) -> Result<(), Fail> {
    let mut errors = Vec::new(rt.alloc());
    let status = show_help(&mut Full { room: 20_000 }, &mut errors, None)?;
    assert_eq!(rt; status.code(), 1);
    assert!(rt; errors.as_slice() == b"fault device\n".as_slice());
    Ok(())
}

#[test]
fn want_of_memory_is_told(rt: HostRuntime) -> Result<(), Fail> {
    let mut told = Vec::new(rt.alloc());
    let mistake = Mistake::from(AllocError);
    assert_eq!(rt; tell_mistake(&mut told, "bureau", mistake)?.code(), 1);
    assert!(rt; told.as_slice() == b"fault 1\n".as_slice());
    Ok(())
}
