//! Where control comes to: the words of a storage that are instructions.

use crate::instructions::instruction_at;
use crate::positions::Positions;
use core_store::Core;
use std::alloc::{AllocError, Global};

/// Whether a branch to this position is a call: what is done there first is to store where control
/// came from.
fn is_call<C: Core>(core: &C, target: Option<u16>) -> bool {
    let Some(position) = target else {
        return false;
    };
    match instruction_at(core, position) {
        None => false,
        Some(instruction) => instruction.operation == b'H',
    }
}

/// Adds an instruction at a position, and where control may go from there.
fn visit<C: Core>(
    core: &C,
    found: &mut Positions,
    wanted: &mut Vec<u16>,
    position: u16,
) -> Result<(), AllocError> {
    if found.has(position) {
        return Ok(());
    }
    let Some(instruction) = instruction_at(core, position) else {
        return Ok(());
    };
    found.put(position);
    let target = instruction.target();
    if !instruction.turns() || is_call(core, target) {
        wanted.push(instruction.end)?;
    }
    if let Some(target) = target {
        wanted.push(target)?;
    }
    Ok(())
}

/// The positions at which instructions begin that control can come to, from a start and from other
/// positions, by the addresses as they stand.
pub(crate) fn reached<C: Core>(
    alloc: Global,
    core: &C,
    start: u16,
    begun: &[u16],
) -> Result<Positions, AllocError> {
    let size = core.size();
    let mut found = Positions::none(alloc, size)?;
    let mut wanted = Vec::from_slice(alloc, begun)?;
    wanted.push(start)?;
    let most = begun.len().saturating_add(2 * usize::from(size) + 1);
    for _ in 0..most {
        let Some(position) = wanted.pop() else {
            return Ok(found);
        };
        visit(core, &mut found, &mut wanted, position)?;
    }
    Ok(found)
}
