//! The labels of a source that is made of a storage.

use crate::instructions::instruction_at;
use crate::names::{name_at, push_name};
use crate::operands::{digit, push_number};
use crate::pieces::{Kind, Piece};
use crate::positions::Positions;
use addresses::Tagged;
use autocoder_layout::Slot;
use autocoder_statements::{Name, code_of};
use bcd::Code;
use core_store::Core;
use std::alloc::{AllocError, Global};

/// How a source that is made of a storage says its positions.
#[derive(Drop)]
pub(crate) struct Labels<'a> {
    /// What the cards of a source define whose names are taken.
    slots: &'a [Slot],
    /// Whether a position without such a name is said by its number.
    numbers: bool,
    /// For each position the label's position of the card that places it; 0 if none does.
    places: Vec<u16>,
    /// Where instructions begin.
    begun: Positions,
    /// The labels that operands name.
    used: Positions,
}

/// Sets the label's position for the positions of a piece.
fn cover(places: &mut [u16], begun: &mut Positions, piece: &Piece) {
    if piece.kind == Kind::AtSign {
        return;
    }
    if piece.kind == Kind::Instruction {
        begun.put(piece.first);
    }
    for position in piece.first..piece.end {
        let index = usize::from(position);
        if index < places.len() {
            places[index] = piece.label();
        }
    }
}

/// The letters and digits of a label that is made of a position.
fn made_name(letter: u8, position: u16) -> Name {
    Name {
        characters: [
            code_of(letter),
            digit(position, 10_000),
            digit(position, 1000),
            digit(position, 100),
            digit(position, 10),
            digit(position, 1),
        ],
    }
}

/// Whether a card defines a name.
fn is_defined(slots: &[Slot], name: &Name) -> bool {
    slots.iter().any(|slot| slot.defines(name))
}

/// Adds how far a position is from its label.
fn push_distance(text: &mut Vec<Code>, sign: u8, distance: u16) -> Result<(), AllocError> {
    text.push(code_of(sign))?;
    if distance >= 10 {
        text.push(digit(distance, 10))?;
    }
    text.push(digit(distance, 1))?;
    Ok(())
}

impl<'a> Labels<'a> {
    /// The labels of these pieces, of which no operand names one yet.
    fn unused(
        alloc: Global,
        size: u16,
        pieces: &[Piece],
        slots: &'a [Slot],
        numbers: bool,
    ) -> Result<Self, AllocError> {
        let mut places = vec![in alloc; 0; usize::from(size)]?;
        let mut begun = Positions::none(alloc, size)?;
        for piece in pieces {
            cover(&mut places, &mut begun, piece);
        }
        Ok(Labels {
            slots,
            numbers,
            places,
            begun,
            used: Positions::none(alloc, size)?,
        })
    }

    /// The labels of these pieces, with those that the operands of their instructions name.
    pub(crate) fn of<C: Core>(
        alloc: Global,
        core: &C,
        pieces: &[Piece],
        slots: &'a [Slot],
        numbers: bool,
    ) -> Result<Self, AllocError> {
        let mut labels = Labels::unused(alloc, core.size(), pieces, slots, numbers)?;
        for piece in pieces {
            if piece.kind == Kind::Instruction {
                labels.use_operands(core, piece.first);
            }
        }
        Ok(labels)
    }

    /// Takes the labels that the addresses of an instruction name.
    fn use_operands<C: Core>(&mut self, core: &C, position: u16) {
        let Some(instruction) = instruction_at(core, position) else {
            return;
        };
        self.use_address(&instruction.statement.first);
        self.use_address(&instruction.statement.second);
    }

    /// Takes the label that an address names.
    fn use_address(&mut self, address: &Option<Tagged>) {
        let Some(address) = address else {
            return;
        };
        if address.index.is_none() {
            self.use_position(address.base);
        }
    }

    /// Takes the label that says a position.
    pub(crate) fn use_position(&mut self, position: u16) {
        if let Some((_, label)) = self.named(position) {
            self.used.put(label);
        }
    }

    /// The name of the card with a label at a position: that of the source whose names are taken,
    /// or one that is made, unless that source calls something else so.
    fn name_of_label(&self, label: u16) -> Option<Name> {
        if let Some(name) = name_at(self.slots, label) {
            return Some(name);
        }
        let letter = if self.begun.has(label) { b'I' } else { b'F' };
        let made = made_name(letter, label);
        if is_defined(self.slots, &made) {
            return None;
        }
        Some(made)
    }

    /// The name by which a position is said, and where this name stands.
    fn named(&self, position: u16) -> Option<(Name, u16)> {
        if let Some(name) = name_at(self.slots, position) {
            return Some((name, position));
        }
        if self.numbers {
            return None;
        }
        let label = self.places.get(usize::from(position)).copied().unwrap_or(0);
        if label == 0 {
            return None;
        }
        Some((self.name_of_label(label)?, label))
    }

    /// The label of a piece's card, if it needs one.
    pub(crate) fn label_of(&self, piece: &Piece) -> Option<Name> {
        let label = piece.label();
        if piece.kind == Kind::AtSign {
            return None;
        }
        if let Some(name) = name_at(self.slots, label) {
            return Some(name);
        }
        if !self.used.has(label) {
            return None;
        }
        self.name_of_label(label)
    }

    /// Whether a card has the label at a position.
    pub(crate) fn is_placed(&self, position: u16) -> bool {
        position != 0 && self.places.get(usize::from(position)).copied() == Some(position)
    }

    /// Whether a name is the first of those of cards that are at a position.
    pub(crate) fn is_first(&self, name: &Name, position: u16) -> bool {
        match name_at(self.slots, position) {
            None => false,
            Some(first) => first == *name,
        }
    }

    /// Whether an instruction begins at a position.
    pub(crate) fn is_begun(&self, position: u16) -> bool {
        self.begun.has(position)
    }

    /// Adds a position: by a name, if it has one, or by its number.
    pub(crate) fn push_position(
        &self,
        text: &mut Vec<Code>,
        position: u16,
    ) -> Result<(), AllocError> {
        let Some((name, label)) = self.named(position) else {
            return push_number(text, position);
        };
        push_name(text, &name)?;
        if position > label {
            return push_distance(text, b'&', position - label);
        }
        if position < label {
            return push_distance(text, b'-', label - position);
        }
        Ok(())
    }
}
