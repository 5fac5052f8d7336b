//! A source made of a storage.

ghost use Rattle.std.specs.Prelude.{◌≡◌, ◌↔◌, IfOk, IsTrue};
ghost use Rattle.disassembly.specs.Sources.{EndsWith, IsWhole};

use crate::comparing::is_code;
use crate::flows::reached;
use crate::labels::Labels;
use crate::pieces::{Kind, Piece, pieces_of};
use crate::writing::Writer;
use autocoder::{Faults, Program, assemble};
use autocoder_layout::Slot;
use cards::{Card, Deck, DeckFault};
use core_store::Core;
use std::alloc::{AllocError, Global};

/// How a source is made of a storage.
#[derive(Clone, Copy)]
pub struct CodeOptions<'a> {
    /// The position at which the program starts.
    pub start: u16,
    /// Positions at which instructions are known to begin, besides those that control can come to.
    /// One below 081 gets a comment, since no card can place it.
    pub begun: &'a [u16],
    /// What the cards of a source define whose names are taken.
    pub names: &'a [Slot],
    /// Whether a position that has no such name is said by its number, and not by a label.
    pub numbers: bool,
}

/// A source made of a storage.
#[derive(Drop)]
pub struct Code {
    /// The cards of the source, and behind them the data cards.
    pub deck: Deck,
    /// Whether the source is the storage's, as the assembler says.
    pub is_whole: bool,
    /// The positions of at signs that no card can place.
    pub left_out: Vec<u16>,
}

/// The positions of at signs among pieces.
fn left_out(alloc: Global, pieces: &[Piece]) -> Result<Vec<u16>, AllocError> {
    let mut positions = Vec::new(alloc);
    for piece in pieces {
        if piece.kind == Kind::AtSign {
            positions.push(piece.first)?;
        }
    }
    Ok(positions)
}

/// Whether a program starts at a position, and its source has this number of cards.
fn is_begun(program: &Program, start: u16, cards: usize) -> bool
    ensures { IsTrue result ↔ (program.now.start ≡ start) × (program.now.last ≡ cards) }
{
    program.start() == u32::from(start) && program.last() as usize == cards
}

/// Whether a deck that ends with data cards is a source that is the storage's and starts at this
/// position, and has no other cards behind it.
fn is_whole<C: Core>(
    alloc: Global,
    core: &C,
    start: u16,
    data_cards: &[Card],
    deck: &Deck,
) -> Result<bool, AllocError>
    requires { EndsWith data_cards.now deck.now }
    ensures { IfOk result (λ is_whole. IsTrue is_whole ↔
        IsWhole (C.cells core.now) start data_cards.now deck.now) }
{
    let cards = deck.cards().len().saturating_sub(data_cards.len());
    match assemble(alloc, deck) {
        Ok(program) => {
            let is_code = is_code(alloc, core, &program)?;
            Ok(is_code && is_begun(&program, start, cards))
        }
        Err(Faults::Source(_)) => Ok(false),
        Err(Faults::NoMemory) => Err(AllocError),
    }
}

/// The cards of a source that is made of these pieces of a storage, and behind them data cards.
fn written<C: Core>(
    alloc: Global,
    core: &C,
    pieces: &[Piece],
    data_cards: &[Card],
    options: CodeOptions<'_>,
) -> Result<Deck, DeckFault>
    ensures { IfOk result (EndsWith data_cards.now) }
{
    let mut labels = Labels::of(alloc, core, pieces, options.names, options.numbers)?;
    if labels.is_begun(options.start) {
        labels.use_position(options.start);
    }
    let writer = Writer {
        alloc,
        core,
        labels: &labels,
    };
    let mut deck = writer.source(pieces, options)?;
    deck.push_all(data_cards)?;
    Ok(deck)
}

/// Makes a source of the characters and word marks of a storage, from 081 on, and puts the data
/// cards behind it. What control can come to from the start, by the addresses as they stand, are
/// instructions; all else are constants.
///
/// How the source is found has no contract. The assembler assembles what was made. The deck is whole
/// exactly if the image of its source has the character and the mark of each position from 081 on,
/// the source starts where it is to, and behind its END are the data cards and no other card.
/// Fails if there is no memory, or over 2,000 cards.
pub fn code_of<C: Core>(
    alloc: Global,
    core: &C,
    data_cards: &[Card],
    options: CodeOptions<'_>,
) -> Result<Code, DeckFault>
    ensures whole { IfOk result (λ code. IsTrue code.is_whole ↔
        IsWhole (C.cells core.now) options.entry.start data_cards.now code.deck) }
    ensures ends { IfOk result (λ code. EndsWith data_cards.now code.deck) }
{
    let found = reached(alloc, core, options.start, options.begun)?;
    let pieces = pieces_of(alloc, core, &found)?;
    let deck = written(alloc, core, &pieces, data_cards, options)?;
    let is_whole = is_whole(alloc, core, options.start, data_cards, &deck)?;
    let left_out = left_out(alloc, &pieces)?;
    Ok(Code {
        deck,
        is_whole,
        left_out,
    })
}
