//! The second pass: what each card fills, and the faults.

ghost use Rattle.std.specs.Prelude.{◌≡◌, [], length, IfOk, OnOk};
ghost use Rattle.core_store.specs.Storage.{positions_of};
ghost use Rattle.autocoder_layout.specs.{
  CardFaults.{faults_from, faults_of, last_fault},
  Image.{image_of},
  Layout.{fills_of, layout_in},
  Tables.{IsTableOf},
};

use crate::card_faults::{CardFault, push_fault, push_no_end};
use crate::cells::Cell;
use crate::faults::SourceFault;
use crate::layout::Layout;
use crate::tables::{cells_in, empty_table, fill, is_taken};
use std::alloc::{AllocError, Global};

/// What a source fills, and its faults.
#[derive(Drop)]
pub struct Judgement {
    /// The filled positions, in rising order. Where two cards fill one position, the first counts.
    pub image: Vec<Cell>,
    /// The faults in card order, at most one for each card.
    pub faults: Vec<CardFault>,
}

impl Layout {
    /// Fills the table with the cells of all cards and adds their faults. Returns the fault of the
    /// last card.
    fn judge_cards(
        &self,
        alloc: Global,
        table: &mut [Option<Cell>],
        faults: &mut Vec<CardFault>,
    ) -> Result<Option<SourceFault>, AllocError>
        requires table { IsTableOf (positions_of self.now.source.size) table.old [] }
        requires size { length table.old ≡ positions_of self.now.source.size }
        requires faults { faults.old.items ≡ [] }
        ensures faults { OnOk result (faults.new.items
            ≡ faults_from 1 (layout_in self.now.source)) }
        ensures table { OnOk result (IsTableOf (positions_of self.now.source.size) table.new
            (fills_of (layout_in self.now.source))) }
        ensures last { IfOk result (λ last. last ≡ last_fault (layout_in self.now.source)) }
    {
        let mut last = None;
        for index in 0..self.slots().len() {
            let cells = self.cells(alloc, index)?;
            let fault = self.fault(index, is_taken(table, &cells), &cells);
            fill(table, &cells);
            push_fault(faults, index as u32 + 1, fault)?;
            last = fault;
        }
        Ok(last)
    }

    /// Returns what the source fills, and the lowest fault of each card that has one. Fails only if
    /// there is no memory.
    pub fn judge(&self, alloc: Global) -> Result<Judgement, AllocError>
        ensures image { IfOk result (λ judgement. judgement.image.items
            ≡ image_of (positions_of self.now.source.size) (layout_in self.now.source)) }
        ensures faults { IfOk result (λ judgement. judgement.faults.items
            ≡ faults_of self.now.source.is_ended (layout_in self.now.source)) }
    {
        let mut table = empty_table(alloc, self.size())?;
        let mut faults = Vec::new(alloc);
        let last = self.judge_cards(alloc, &mut table, &mut faults)?;
        let count = self.slots().len() as u32;
        push_no_end(&mut faults, self.source().is_ended(), last, count)?;
        let image = cells_in(alloc, &table)?;
        Ok(Judgement { image, faults })
    }
}
