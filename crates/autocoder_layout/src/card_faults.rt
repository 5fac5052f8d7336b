//! The faults of a source, each with its card.

ghost use Rattle.std.specs.Prelude.{◌≡◌, ◌++◌, [], OnOk};
ghost use Rattle.autocoder_layout.specs.CardFaults.{fault_then, faults_to_end};

use crate::faults::SourceFault;
use std::alloc::AllocError;

/// The lowest fault of a card, with the card's number.
#[derive(Clone, Copy)]
pub struct CardFault {
    /// The card's number, from 1; 0 for a fault of no card.
    pub card: u32,
    pub fault: SourceFault,
}

/// Adds the fault of a card to the list, if it has one.
pub(crate) fn push_fault(
    faults: &mut Vec<CardFault>,
    card: u32,
    fault: Option<SourceFault>,
) -> Result<(), AllocError>
    ensures { OnOk result (faults.new.items ≡ faults.old.items ++ fault_then card fault []) }
{
    let Some(fault) = fault else {
        return Ok(());
    };
    faults.push(CardFault { card, fault })?;
    Ok(())
}

/// Adds the fault of a source without an end, if its last card has no fault of its own.
pub(crate) fn push_no_end(
    faults: &mut Vec<CardFault>,
    is_ended: bool,
    last: Option<SourceFault>,
    card: u32,
) -> Result<(), AllocError>
    ensures { OnOk result (faults.new.items ≡ faults_to_end is_ended faults.old.items last card) }
{
    if is_ended {
        return Ok(());
    }
    if last.is_some() {
        return Ok(());
    }
    faults.push(CardFault {
        card,
        fault: SourceFault::NoEnd,
    })?;
    Ok(())
}
