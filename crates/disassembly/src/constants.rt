//! The constants of a word.

use crate::pieces::{Kind, Piece};
use crate::positions::Positions;
use core_store::Core;
use std::alloc::AllocError;

/// The greatest number of characters of a constant.
const LONGEST_CONSTANT: u16 = 50;

/// A constant that is being laid: where it begins, and whether it has a word mark.
#[derive(Clone, Copy)]
struct Begun {
    first: u16,
    is_marked: bool,
}

impl Begun {
    /// The kind of the constant.
    fn kind(self) -> Kind {
        if self.is_marked {
            Kind::Marked
        } else {
            Kind::Unmarked
        }
    }

    /// Adds the constant up to a position, if it has characters.
    fn close(self, pieces: &mut Vec<Piece>, end: u16) -> Result<(), AllocError> {
        if self.first >= end {
            return Ok(());
        }
        pieces.push(Piece {
            kind: self.kind(),
            first: self.first,
            end,
        })?;
        Ok(())
    }

    /// Takes one character more, or what comes of it.
    fn take<C: Core>(
        self,
        core: &C,
        pieces: &mut Vec<Piece>,
        position: u16,
    ) -> Result<Begun, AllocError> {
        if position >= core.size() {
            return Ok(self);
        }
        let next = Begun {
            first: position.saturating_add(1),
            is_marked: false,
        };
        let glyph = core.get(position).glyph();
        if glyph == b'@' {
            self.close(pieces, position)?;
            pieces.push(Piece {
                kind: Kind::AtSign,
                first: position,
                end: position.saturating_add(1),
            })?;
            return Ok(next);
        }
        if glyph == b' ' && self.first == position && !self.is_marked {
            return Ok(next);
        }
        if position.saturating_sub(self.first) + 1 < LONGEST_CONSTANT {
            return Ok(self);
        }
        self.close(pieces, position.saturating_add(1))?;
        Ok(next)
    }
}

/// The position behind the last of these that is not blank, or the first.
fn filled_end<C: Core>(core: &C, first: u16, end: u16) -> u16 {
    for position in (first..end.min(core.size())).rev() {
        if core.get(position).glyph() != b' ' {
            return position + 1;
        }
    }
    first
}

/// The position behind the last of these that operands name, if they name one.
fn named_end(named: &Positions, first: u16, end: u16) -> Option<u16> {
    for position in (first..end).rev() {
        if named.has(position) {
            return Some(position.saturating_add(1));
        }
    }
    None
}

/// Where the constants of a word end: of the blanks at its end those behind the last position that
/// an operand names are not placed, nor many that none names.
fn kept_end<C: Core>(core: &C, named: &Positions, first: u16, end: u16, is_marked: bool) -> u16 {
    let filled = filled_end(core, first, end);
    if !is_marked {
        return filled;
    }
    let from = filled.saturating_sub(1).max(first);
    if let Some(last) = named_end(named, from, end) {
        if last.saturating_sub(filled) <= LONGEST_CONSTANT {
            return last;
        }
    }
    if end < core.size() && end.saturating_sub(filled) <= LONGEST_CONSTANT {
        return end;
    }
    filled.max(first.saturating_add(1))
}

/// Adds the constants of the positions from one to another.
pub(crate) fn push_constants<C: Core>(
    core: &C,
    pieces: &mut Vec<Piece>,
    named: &Positions,
    first: u16,
    end: u16,
    is_marked: bool,
) -> Result<(), AllocError> {
    let kept = kept_end(core, named, first, end, is_marked);
    let mut begun = Begun { first, is_marked };
    for position in first..kept {
        begun = begun.take(core, pieces, position)?;
    }
    begun.close(pieces, kept)
}
