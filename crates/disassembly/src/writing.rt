//! The cards of a source that is made of a storage.

use crate::instructions::instruction_at;
use crate::labels::Labels;
use crate::operands::{digit, push_address, push_next_last, push_number, push_operands};
use crate::pieces::{Kind, Piece};
use crate::positions::FIRST_FREE;
use crate::punching::{card_of, codes_of, comment_of};
use crate::sources::CodeOptions;
use crate::statements::Statement;
use crate::stored::statement_at;
use addresses::Tagged;
use autocoder_layout::{Definition, Slot};
use autocoder_statements::{Name, code_of};
use bcd::Code;
use cards::{Card, Deck, DeckFault};
use core_store::Core;
use std::alloc::{AllocError, Global};

/// The digit of a size on a CTL card.
fn size_digit(size: u16) -> u8 {
    match size {
        1400 => b'1',
        2000 => b'2',
        4000 => b'3',
        8000 => b'4',
        12_000 => b'5',
        _ => b'6',
    }
}

/// Adds a constant's text: digits, a number of blanks, or characters between at signs.
fn push_constant(text: &mut Vec<Code>, codes: &[Code]) -> Result<(), AllocError> {
    if codes.iter().all(|code| code.glyph() == b' ') {
        text.push(code_of(b'#'))?;
        return push_count(text, codes.len());
    }
    if codes.iter().all(|code| code.glyph().is_ascii_digit()) {
        return text.extend_from_slice(codes);
    }
    text.push(code_of(b'@'))?;
    text.extend_from_slice(codes)?;
    text.push(code_of(b'@'))?;
    Ok(())
}

/// Adds a number of blanks, of two digits at most.
fn push_count(text: &mut Vec<Code>, count: usize) -> Result<(), AllocError> {
    let number = count.min(99) as u16;
    if number >= 10 {
        text.push(digit(number, 10))?;
    }
    text.push(digit(number, 1))?;
    Ok(())
}

/// The characters of a storage from one position to another.
fn codes_between<C: Core>(
    alloc: Global,
    core: &C,
    first: u16,
    end: u16,
) -> Result<Vec<Code>, AllocError> {
    let mut codes = Vec::new(alloc);
    for position in first..end.min(core.size()) {
        codes.push(core.get(position))?;
    }
    Ok(codes)
}

/// A source that is being made of a storage.
#[derive(Drop)]
pub(crate) struct Writer<'a, C: Core> {
    /// The memory.
    pub(crate) alloc: Global,
    /// The storage.
    pub(crate) core: &'a C,
    /// How its positions are said.
    pub(crate) labels: &'a Labels<'a>,
}

impl<C: Core> Writer<'_, C> {
    /// Adds an address of an instruction.
    fn push_address(&self, text: &mut Vec<Code>, address: &Tagged) -> Result<(), AllocError> {
        if address.index.is_some() {
            return push_address(text, &[], address);
        }
        self.labels.push_position(text, address.base)
    }

    /// Adds a second address behind a comma, if there is one.
    fn push_next_address(
        &self,
        text: &mut Vec<Code>,
        address: &Option<Tagged>,
    ) -> Result<(), AllocError> {
        let Some(address) = address else {
            return Ok(());
        };
        text.push(code_of(b','))?;
        self.push_address(text, address)
    }

    /// The operand field of an instruction.
    fn operands_of(&self, statement: &Statement) -> Result<Vec<Code>, AllocError> {
        let mut text = Vec::new(self.alloc);
        let Some(first) = &statement.first else {
            if let Some(code) = statement.last {
                text.push(code)?;
            }
            return Ok(text);
        };
        self.push_address(&mut text, first)?;
        self.push_next_address(&mut text, &statement.second)?;
        push_next_last(&mut text, statement.last)?;
        Ok(text)
    }

    /// The card of an instruction.
    fn instruction_card(&self, piece: &Piece) -> Result<Option<Card>, AllocError> {
        let Some(instruction) = instruction_at(self.core, piece.first) else {
            return Ok(None);
        };
        let operands = self.operands_of(&instruction.statement)?;
        let label = self.labels.label_of(piece);
        let name = &instruction.statement.name;
        Ok(Some(card_of(self.alloc, label, name, &operands)?))
    }

    /// The card of a constant.
    fn constant_card(&self, piece: &Piece, operation: &[u8]) -> Result<Card, AllocError> {
        let codes = codes_between(self.alloc, self.core, piece.first, piece.end)?;
        let mut text = Vec::new(self.alloc);
        push_constant(&mut text, &codes)?;
        card_of(self.alloc, self.labels.label_of(piece), operation, &text)
    }

    /// The comment on an at sign.
    fn at_sign_card(&self, position: u16) -> Result<Card, AllocError> {
        let mut text = Vec::new(self.alloc);
        push_number(&mut text, position)?;
        let words = codes_of(self.alloc, b" HAS AN AT SIGN, WHICH NO CONSTANT HAS")?;
        text.extend_from_slice(&words)?;
        comment_of(self.alloc, &text)
    }

    /// The comment on the instruction at a position that no card can place: its statement, if it
    /// has one.
    fn below_card(&self, position: u16) -> Result<Option<Card>, AllocError> {
        let Some(statement) = statement_at(self.core, position) else {
            return Ok(None);
        };
        let mut text = Vec::new(self.alloc);
        push_number(&mut text, position)?;
        text.push(Code::blank())?;
        text.extend_from_slice(&codes_of(self.alloc, &statement.name)?)?;
        push_operands(&mut text, &[], &statement)?;
        Ok(Some(comment_of(self.alloc, &text)?))
    }

    /// Adds the comments on those of these instructions that no card can place.
    fn push_below(&self, deck: &mut Deck, begun: &[u16]) -> Result<(), DeckFault> {
        for position in begun {
            if *position < FIRST_FREE {
                if let Some(card) = self.below_card(*position)? {
                    deck.push(card)?;
                }
            }
        }
        Ok(())
    }

    /// The card of a piece.
    fn card_of_piece(&self, piece: &Piece) -> Result<Option<Card>, AllocError> {
        match piece.kind {
            Kind::Instruction => self.instruction_card(piece),
            Kind::Marked => Ok(Some(self.constant_card(piece, b"DCW")?)),
            Kind::Unmarked => Ok(Some(self.constant_card(piece, b"DC")?)),
            Kind::AtSign => Ok(Some(self.at_sign_card(piece.first)?)),
        }
    }

    /// A card whose operand is a position by its number.
    fn card_at(
        &self,
        label: Option<Name>,
        operation: &[u8],
        position: u16,
    ) -> Result<Card, AllocError> {
        let mut text = Vec::new(self.alloc);
        push_number(&mut text, position)?;
        card_of(self.alloc, label, operation, &text)
    }

    /// Adds the card that says the size.
    fn push_size(&self, deck: &mut Deck) -> Result<(), DeckFault> {
        let digit = [code_of(size_digit(self.core.size()))];
        deck.push(card_of(self.alloc, None, b"CTL", &digit)?)
    }

    /// Adds the card of a name of the source whose names are taken, if no other card has it.
    fn push_name(&self, deck: &mut Deck, slot: &Slot) -> Result<(), DeckFault> {
        let Some(Definition { name, address }) = slot.defines else {
            return Ok(());
        };
        if address >= u32::from(self.core.size()) {
            return Ok(());
        }
        let position = address as u16;
        if self.labels.is_placed(position) && self.labels.is_first(&name, position) {
            return Ok(());
        }
        deck.push(self.card_at(Some(name), b"EQU", position)?)
    }

    /// Adds the cards of the names that no other card has.
    fn push_names(&self, deck: &mut Deck, slots: &[Slot]) -> Result<(), DeckFault> {
        for slot in slots {
            self.push_name(deck, slot)?;
        }
        Ok(())
    }

    /// Adds the card of a piece, and where it does not stand behind the one before its place.
    fn push_piece(&self, deck: &mut Deck, place: u16, piece: &Piece) -> Result<u16, DeckFault> {
        let is_placed = piece.kind != Kind::AtSign;
        if is_placed && piece.first != place {
            deck.push(self.card_at(None, b"ORG", piece.first)?)?;
        }
        if let Some(card) = self.card_of_piece(piece)? {
            deck.push(card)?;
        }
        if is_placed { Ok(piece.end) } else { Ok(place) }
    }

    /// Adds the cards of the pieces.
    fn push_pieces(&self, deck: &mut Deck, pieces: &[Piece]) -> Result<(), DeckFault> {
        let mut place = 0;
        for piece in pieces {
            place = self.push_piece(deck, place, piece)?;
        }
        Ok(())
    }

    /// Adds the card that ends the source and says where the program starts.
    fn push_end(&self, deck: &mut Deck, start: u16) -> Result<(), DeckFault> {
        let mut text = Vec::new(self.alloc);
        if self.labels.is_begun(start) {
            self.labels.push_position(&mut text, start)?;
        } else {
            push_number(&mut text, start)?;
        }
        deck.push(card_of(self.alloc, None, b"END", &text)?)
    }

    /// The cards of the source.
    pub(crate) fn source(
        &self,
        pieces: &[Piece],
        options: CodeOptions<'_>,
    ) -> Result<Deck, DeckFault> {
        let mut deck = Deck::empty(self.alloc);
        self.push_size(&mut deck)?;
        self.push_below(&mut deck, options.begun)?;
        self.push_names(&mut deck, options.names)?;
        self.push_pieces(&mut deck, pieces)?;
        self.push_end(&mut deck, options.start)?;
        Ok(deck)
    }
}
