//! The cards of a submission.

ghost use Rattle.std.specs.Prelude.{◌≡◌, ◌≤◌, IfOk, IfErr};
ghost use Rattle.scripts.specs.Scripts.{BeginsWithDeck, HasFaultOfCards, IsNear, fault_of};

use crate::faults::ScriptFault;
use cards::{COLUMNS, CardError, CardFault, Deck, read_text};
use std::alloc::Global;

/// The number of bytes in the line of a card.
const LINE: usize = COLUMNS + 1;

/// The fault of a script whose first card is line 1.
fn fault_of(fault: CardFault) -> ScriptFault
    ensures { result ≡ fault_of fault }
{
    match fault.error {
        CardError::NoMemory => ScriptFault::NoMemory,
        _ => ScriptFault::BadLine(fault.card as usize),
    }
}

/// Reads the deck of this number of cards at the beginning of the bytes. Returns it and the bytes
/// after it. The line of the first card has the number 1.
pub(crate) fn deck_in(
    alloc: Global,
    bytes: &[u8],
    count: usize,
) -> Result<(Deck, &[u8]), ScriptFault>
    requires { count ≤ 2000 }
    ensures deck { IfOk result (λ found. BeginsWithDeck bytes.now found.0 count found.1.now) }
    ensures fault { IfErr result (HasFaultOfCards bytes.now count) }
    ensures near { IfErr result IsNear }
{
    let size = (count * LINE).min(bytes.len());
    let (lines, rest) = bytes.split_at(size);
    let deck = match read_text(alloc, lines) {
        Ok(deck) => deck,
        Err(fault) => return Err(fault_of(fault)),
    };
    let read = deck.cards().len();
    if read < count {
        return Err(ScriptFault::BadLine(read + 1));
    }
    Ok((deck, rest))
}
