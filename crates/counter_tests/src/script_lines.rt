//! Lines for what the program's own scripts do not come to, and a script without an end.

use office::{Refusal, SourceFaults};
use scripts::{ScriptFault, read_script, write_bad, write_fault, write_refusal};
use std::io::repeat;
use std::test::Fail;

/// The lines for the last line that can be bad, for want of memory, for both faults, and for a
/// source without faults.
const LINES: &[u8] = b"bad line 4000000\nfault 1\nfault 1\nfault 2\nrefused 16\n";

#[test]
fn faults_have_their_lines(rt: HostRuntime) -> Result<(), Fail> {
    let mut writer = Vec::new(rt.alloc());
    let mut sent = 7;
    let last = write_bad(&mut writer, &mut sent, ScriptFault::BadLine(4_000_000));
    let memory = write_bad(&mut writer, &mut sent, ScriptFault::NoMemory);
    let first = write_fault(&mut writer, &mut sent, 1);
    let second = write_fault(&mut writer, &mut sent, 2);
    let none = Refusal::Assembly(SourceFaults(Vec::new(rt.alloc())));
    let source = write_refusal(&mut writer, &mut sent, &none);
    assert!(rt; last.is_ok() && memory.is_ok() && source.is_ok());
    assert!(rt; first.is_ok() && second.is_ok());
    assert!(rt; writer.as_slice() == LINES && sent == 7 + LINES.len());
    Ok(())
}

/// One byte more is read than a script may have.
#[test]
fn a_script_without_an_end_is_read_in_part(rt: HostRuntime) -> Result<(), Fail> {
    let bytes = read_script(rt.alloc(), repeat(b'\n')).ok().ok_or("bytes")?;
    assert!(rt; bytes.len() == 4_000_001);
    Ok(())
}
