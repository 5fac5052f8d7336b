//! The pieces of a storage: what each card places.

use crate::constants::push_constants;
use crate::instructions::instruction_at;
use crate::positions::{FIRST_FREE, Positions};
use core_store::Core;
use std::alloc::{AllocError, Global};

/// What a piece is.
#[derive(Clone, Copy, PartialEq, Eq)]
pub(crate) enum Kind {
    /// An instruction.
    Instruction,
    /// A constant with a word mark.
    Marked,
    /// A constant without a word mark.
    Unmarked,
    /// An at sign, which no constant can have.
    AtSign,
}

/// Positions that one card places.
#[derive(Clone, Copy)]
pub(crate) struct Piece {
    /// What they are.
    pub(crate) kind: Kind,
    /// The first.
    pub(crate) first: u16,
    /// The one behind the last.
    pub(crate) end: u16,
}

impl Piece {
    /// The position that a label of its card names: of an instruction the first, else the last.
    pub(crate) fn label(&self) -> u16 {
        match self.kind {
            Kind::Instruction => self.first,
            _ => self.end.saturating_sub(1),
        }
    }
}

/// The next position with a word mark, from one on, or the size of the storage.
fn next_mark<C: Core>(core: &C, first: u16) -> u16 {
    for position in first..core.size() {
        if core.is_marked(position) {
            return position;
        }
    }
    core.size()
}

/// Whether there is an at sign from one position to another.
fn has_at_sign<C: Core>(core: &C, first: u16, end: u16) -> bool {
    for position in first..end.min(core.size()) {
        if core.get(position).glyph() == b'@' {
            return true;
        }
    }
    false
}

/// Adds the pieces of the word at a position with a word mark.
fn push_word<C: Core>(
    core: &C,
    pieces: &mut Vec<Piece>,
    found: &Positions,
    named: &Positions,
    first: u16,
) -> Result<(), AllocError> {
    let end = next_mark(core, first.saturating_add(1));
    let is_one = found.has(first) || has_at_sign(core, first, end);
    if is_one && instruction_at(core, first).is_some() {
        pieces.push(Piece {
            kind: Kind::Instruction,
            first,
            end,
        })?;
        return Ok(());
    }
    push_constants(core, pieces, named, first, end, true)
}

/// Adds the positions that the addresses of the instruction at a position name.
fn name_operands<C: Core>(core: &C, named: &mut Positions, position: u16) {
    let Some(instruction) = instruction_at(core, position) else {
        return;
    };
    if let Some(first) = &instruction.statement.first {
        named.put(first.base);
    }
    if let Some(second) = &instruction.statement.second {
        named.put(second.base);
    }
}

/// The positions that the addresses of the instructions name.
fn named_by<C: Core>(alloc: Global, core: &C, found: &Positions) -> Result<Positions, AllocError> {
    let mut named = Positions::none(alloc, core.size())?;
    for position in FIRST_FREE..core.size() {
        if found.has(position) {
            name_operands(core, &mut named, position);
        }
    }
    Ok(named)
}

/// The pieces of a storage from 081 on, in rising order, where instructions begin at these
/// positions.
pub(crate) fn pieces_of<C: Core>(
    alloc: Global,
    core: &C,
    found: &Positions,
) -> Result<Vec<Piece>, AllocError> {
    let named = named_by(alloc, core, found)?;
    let mut pieces = Vec::new(alloc);
    let loose = next_mark(core, FIRST_FREE);
    push_constants(core, &mut pieces, &named, FIRST_FREE, loose, false)?;
    for position in FIRST_FREE..core.size() {
        if core.is_marked(position) {
            push_word(core, &mut pieces, found, &named, position)?;
        }
    }
    Ok(pieces)
}
