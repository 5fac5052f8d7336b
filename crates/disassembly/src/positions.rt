//! Sets of positions.

use std::alloc::{AllocError, Global};

/// The lowest position that a source may fill.
pub(crate) const FIRST_FREE: u16 = autocoder_layout::FIRST_FREE as u16;

/// A set of positions, as a mark for each.
#[derive(Drop)]
pub(crate) struct Positions {
    marks: Vec<bool>,
}

impl Positions {
    /// No position of so many.
    pub(crate) fn none(alloc: Global, size: u16) -> Result<Self, AllocError> {
        let marks = vec![in alloc; false; usize::from(size)]?;
        Ok(Positions { marks })
    }

    /// Whether a position is in the set.
    pub(crate) fn has(&self, position: u16) -> bool {
        self.marks.get(usize::from(position)).copied() == Some(true)
    }

    /// Puts a position into the set.
    pub(crate) fn put(&mut self, position: u16) {
        let index = usize::from(position);
        if index < self.marks.len() {
            self.marks[index] = true;
        }
    }
}
