//! The cards of a source with the code that each places.

ghost use Rattle.std.specs.Prelude.{◌≡◌, ◌++◌, length, None, OnOk, All};
ghost use Rattle.autocoder_layout.specs.Layout.{layout_in};
ghost use Rattle.autocoder_listings.specs.Listing.{cards_in};

use crate::placed::Placed;
use crate::widths::Width;
use autocoder_layout::Layout;
use cards::Card;
use std::alloc::{AllocError, Global};

/// Adds the lines of the cards of a source without faults.
pub(crate) fn push_cards(
    alloc: Global,
    text: &mut Vec<u8>,
    width: Width,
    source: &[Card],
    layout: &Layout,
) -> Result<(), AllocError>
    requires one_each { length source.now ≡ length layout.now.source.lines }
    requires faultless { All (λ laid. laid.fault ≡ None) (layout_in layout.now.source) }
    ensures { OnOk result (text.new.items
        ≡ text.old.items ++ cards_in width 1 source.now (layout_in layout.now.source)) }
{
    let slots = layout.slots();
    for i in 0..source.len() {
        let cells = layout.cells(alloc, i)?;
        let card = Placed {
            number: i as u64 + 1,
            slot: &slots[i],
            card: &source[i],
            cells: &cells,
        };
        card.push(alloc, text, width)?;
    }
    Ok(())
}
