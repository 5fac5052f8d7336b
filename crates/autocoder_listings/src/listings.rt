//! The listing of a source with its code.

ghost use Rattle.std.specs.Prelude.{◌≡◌, IfOk};
ghost use Rattle.autocoder_layout.specs.Source.{source_of};
ghost use Rattle.autocoder.specs.Programs.{IsFaultless, IsProgramOf};
ghost use Rattle.autocoder_listings.specs.Listing.{listing_in, listing_with_code_for};

use crate::cards_shown::push_cards;
use crate::names::push_names;
use crate::widths::Width;
use autocoder::Program;
use autocoder_layout::source_of;
use cards::Deck;
use std::alloc::{AllocError, Global};

/// Returns the listing of a deck's source with its code in a width, given the program that it is
/// assembled to. It has the line of each card as `autocoder::listing` has it. If the card places
/// characters, these follow: their count, the address of the first one, and the characters, with an
/// apostrophe before each that has a word mark. Twenty are on the line of the card, and twenty on
/// each further line below it, after the address of the first one there. Literals are shown with
/// the card that ends the source. After the cards come a heading and a line for each name: its
/// address, and the numbers of the cards that use it in an address, twenty on a line. Each line
/// ends with a line feed.
///
/// In the narrow listing the columns of a card stand on a line of their own, and what the wide one
/// has beside them on lines below it; there ten cards that use a name are on a line. Fails only if
/// there is no memory.
pub fn listing_in(
    alloc: Global,
    deck: &Deck,
    program: &Program,
    width: Width,
) -> Result<Vec<u8>, AllocError>
    requires program { IsProgramOf (source_of deck.now) program.now }
    requires faultless { IsFaultless (source_of deck.now) }
    ensures { IfOk result (λ text. text.items ≡ listing_in width (source_of deck.now)) }
{
    let layout = program.layout();
    let mut text = Vec::new(alloc);
    push_cards(alloc, &mut text, width, source_of(deck.cards()), layout)?;
    push_names(alloc, &mut text, width, layout)?;
    Ok(text)
}

/// Returns the wide listing of a deck's source with its code, given the program that it is
/// assembled to. Fails only if there is no memory.
pub fn listing_with_code(
    alloc: Global,
    deck: &Deck,
    program: &Program,
) -> Result<Vec<u8>, AllocError>
    requires program { IsProgramOf (source_of deck.now) program.now }
    requires faultless { IsFaultless (source_of deck.now) }
    ensures { IfOk result (λ text. text.items ≡ listing_with_code_for deck.now) }
{
    listing_in(alloc, deck, program, Width::Wide)
}
