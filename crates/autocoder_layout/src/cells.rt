//! The positions that a card fills.

ghost use Rattle.std.specs.Prelude.{◌≡◌, ◌+◌, ◌≤◌, ◌<◌, ◌++◌, length, drop, slice_index_or, option_to_list, replicate, IfSome, Some, IfOk, OnOk};
ghost use Rattle.core_store.specs.Storage.{largest_size, positions_of};
ghost use Rattle.autocoder_layout.specs.{
  Bounds.{farthest, most_literals},
  Slots.{origin},
  Source.{silent},
  Names.{IsValueWithin},
  Cells.{blank, row, field, literal_cells, tag, position_in, operand_codes, instruction_codes, blank_after, constant_codes, cut_constant, cells_of},
  Judging.{IsCut},
};
ghost use Rattle.autocoder_statements.specs.{
  Ranges.{IsConstantInRange, IsInstructionInRange, IsOperandInRange},
  Limits.{number_limit},
};

use crate::layout::Layout;
use crate::literals::literal_end;
use crate::names::Value;
use crate::slots::{Slot, is_closed, place_after};
use addresses::{IndexLocation, encode_tagged};
use autocoder_statements::{Constant, Instruction, Operand, Statement, Text};
use bcd::{Code, Zone};
use core_store::LARGEST_SIZE;
use std::alloc::{AllocError, Global};

/// The first position that a source may fill: those below hold the card that loads the program.
pub const FIRST_FREE: u32 = 81;

/// No filled position is above this one.
const LAST_CELL: u32 = 400_000_000;

/// A filled position, its character, and whether it has a word mark.
#[derive(Clone, Copy)]
pub struct Cell {
    pub position: u32,
    pub code: Code,
    pub marked: bool,
}

/// Fills positions with characters without marks.
fn push_row(cells: &mut Vec<Cell>, place: u32, codes: &[Code]) -> Result<(), AllocError>
    requires place { place ≤ LAST_CELL }
    requires length { length codes.now ≤ number_limit }
    ensures { OnOk result (cells.new.items ≡ cells.old.items ++ row place codes.now) }
{
    let mut position = place;
    for code in codes {
        cells.push(Cell {
            position,
            code: *code,
            marked: false,
        })?;
        position += 1;
    }
    Ok(())
}

/// Fills positions with characters, the leftmost with or without a mark.
#[tactic(auto, unfolding(crate::specs::Cells::field))]
fn push_field(
    cells: &mut Vec<Cell>,
    marked: bool,
    place: u32,
    codes: &[Code],
) -> Result<(), AllocError>
    requires place { place < LAST_CELL }
    requires length { length codes.now ≤ number_limit }
    ensures { OnOk result (cells.new.items ≡ cells.old.items ++ field marked place codes.now) }
{
    match codes {
        [] => Ok(()),
        [first, rest @ ..] => {
            cells.push(Cell {
                position: place,
                code: *first,
                marked,
            })?;
            push_row(cells, place + 1, rest)
        }
    }
}

/// The zone that names an index location.
fn tag(index: Option<IndexLocation>) -> Zone
    ensures { result ≡ tag index }
{
    match index {
        None => Zone::Bare,
        Some(IndexLocation::First) => Zone::A,
        Some(IndexLocation::Second) => Zone::B,
        Some(IndexLocation::Third) => Zone::AB,
    }
}

/// The position of a value, or 0 if it has none; then the card has a fault.
fn position_in(value: Value) -> u16
    requires { IsValueWithin largest_size value }
    ensures position { result ≡ position_in value }
    ensures within { result < largest_size }
{
    match value {
        Value::At(position) => position,
        _ => 0,
    }
}

/// Fills positions with literals, one after the other from a place on.
fn push_literals(cells: &mut Vec<Cell>, place: u32, literals: &[Text]) -> Result<(), AllocError>
    requires place { place ≤ farthest }
    requires count { length literals.now ≤ most_literals }
    ensures { OnOk result (cells.new.items ≡ cells.old.items ++ literal_cells place literals.now) }
{
    let mut here = place;
    for literal in literals {
        let codes = literal.characters();
        push_field(cells, true, here, codes)?;
        here += codes.len() as u32;
    }
    Ok(())
}

/// Fills positions with blanks without marks.
fn push_blank_row(cells: &mut Vec<Cell>, place: u32, count: u32) -> Result<(), AllocError>
    requires place { place ≤ LAST_CELL }
    requires count { count ≤ number_limit }
    ensures { OnOk result (cells.new.items ≡ cells.old.items ++ row place (replicate count blank)) }
{
    for offset in 0..count {
        cells.push(Cell {
            position: place + offset,
            code: Code::blank(),
            marked: false,
        })?;
    }
    Ok(())
}

/// Fills positions with blanks, the leftmost with or without a mark.
#[tactic(auto, using(crate::proofs::CellLemmas::blank_field))]
fn push_blanks(
    cells: &mut Vec<Cell>,
    marked: bool,
    place: u32,
    count: u32,
) -> Result<(), AllocError>
    requires place { place < LAST_CELL }
    requires some { 0 < count }
    requires limit { count ≤ number_limit }
    ensures { OnOk result (cells.new.items
        ≡ cells.old.items ++ field marked place (replicate count blank)) }
{
    cells.push(Cell {
        position: place,
        code: Code::blank(),
        marked,
    })?;
    push_blank_row(cells, place + 1, count - 1)
}

/// Adds the last character of an instruction, if there is one.
fn push_modifier(codes: &mut Vec<Code>, modifier: Option<Code>) -> Result<(), AllocError>
    ensures codes { OnOk result (codes.new.items ≡ codes.old.items ++ option_to_list modifier) }
    ensures length { OnOk result (length codes.new.items ≤ length codes.old.items + 1) }
{
    let Some(code) = modifier else {
        return Ok(());
    };
    codes.push(code)?;
    Ok(())
}

/// Adds the marked blank after an instruction, if the next card with a place ends it.
fn push_blank_after(cells: &mut Vec<Cell>, later: &[Slot], place: u32) -> Result<(), AllocError>
    ensures { OnOk result (cells.new.items ≡ cells.old.items ++ blank_after later.now place) }
{
    if !is_closed(later) {
        return Ok(());
    }
    cells.push(Cell {
        position: place,
        code: Code::blank(),
        marked: true,
    })?;
    Ok(())
}

/// Fills positions with a constant. Of blanks that go past the end of the storage only the first
/// are filled, so that `#99999` is not more work than the size of the storage.
fn push_constant(
    cells: &mut Vec<Cell>,
    size: u16,
    marked: bool,
    place: u32,
    constant: &Constant,
) -> Result<(), AllocError>
    requires place { place ≤ farthest }
    requires range { IsConstantInRange constant.now }
    ensures { OnOk result (cells.new.items
        ≡ cells.old.items ++ field marked place (constant_codes (cut_constant size constant.now))) }
{
    match constant {
        Constant::Characters(text) => push_field(cells, marked, place, text.characters()),
        Constant::Blanks(count) => {
            push_blanks(cells, marked, place, (*count).min(size as u32 + 1))
        }
    }
}

impl Layout {
    /// An operand as an address of three characters.
    fn operand_codes(&self, operand: &Operand) -> [Code; 3]
        requires { IsOperandInRange operand.now }
        ensures { result ≡ operand_codes (positions_of self.now.source.size) self.now.slots
            self.now.literals (Some operand.now) }
    {
        match operand {
            Operand::Address(address) => {
                let position = position_in(self.value_of(address.expression));
                encode_tagged(position, tag(address.index))
            }
            Operand::Literal(text) => {
                let place = place_after(self.slots());
                let end = literal_end(place, self.literals(), text.characters());
                encode_tagged((end % LARGEST_SIZE as u32) as u16, Zone::Bare)
            }
        }
    }

    /// Adds the address characters of an operand, if there is one.
    fn push_operand(
        &self,
        codes: &mut Vec<Code>,
        operand: &Option<Operand>,
    ) -> Result<(), AllocError>
        requires { IfSome operand.now IsOperandInRange }
        ensures codes { OnOk result (codes.new.items ≡ codes.old.items
            ++ operand_codes (positions_of self.now.source.size) self.now.slots
            self.now.literals operand.now) }
        ensures length { OnOk result (length codes.new.items ≤ length codes.old.items + 3) }
    {
        let Some(operand) = operand else {
            return Ok(());
        };
        let [first, second, third] = self.operand_codes(operand);
        codes.push(first)?;
        codes.push(second)?;
        codes.push(third)?;
        Ok(())
    }

    /// The characters of an instruction: its operation, its addresses, its last character.
    #[tactic(auto, unfolding(crate::specs::Cells::instruction_codes))]
    fn instruction_codes(
        &self,
        alloc: Global,
        spelled: &Instruction,
    ) -> Result<Vec<Code>, AllocError>
        requires { IsInstructionInRange spelled.now }
        ensures codes { IfOk result (λ codes. codes.items
            ≡ instruction_codes (positions_of self.now.source.size) self.now.slots
            self.now.literals spelled.now) }
        ensures length { IfOk result (λ codes. length codes.items ≤ number_limit) }
    {
        let mut codes = Vec::new(alloc);
        codes.push(spelled.operation)?;
        self.push_operand(&mut codes, &spelled.first)?;
        self.push_operand(&mut codes, &spelled.second)?;
        push_modifier(&mut codes, spelled.modifier)?;
        Ok(codes)
    }

    /// Returns the cells that a card fills, by its index: all of them, or only the first ones if
    /// they go past the end of the storage. Fails only if there is no memory.
    #[tactic(auto, unfolding(crate::specs::Cells::cells_of), using(crate::proofs::CellCuts::uncut, crate::proofs::CellCuts::constant_cut))]
    pub fn cells(&self, alloc: Global, index: usize) -> Result<Vec<Cell>, AllocError>
        requires { index < length self.now.source.lines }
        ensures { IfOk result (λ cells. IsCut (positions_of self.now.source.size)
            (cells_of (positions_of self.now.source.size) self.now.slots self.now.literals
            (drop (index + 1) self.now.slots) (slice_index_or self.now.slots index origin)
            (slice_index_or self.now.source.lines index silent)) cells.items) }
    {
        let slot = &self.slots()[index];
        let mut cells = Vec::new(alloc);
        if slot.fault.is_some() {
            return Ok(cells);
        }
        match &self.source().lines()[index] {
            Ok(
                Statement::Constant {
                    marked,
                    constant,
                    ..
                },
            ) => {
                push_constant(&mut cells, self.size(), *marked, slot.before, constant)?;
                Ok(cells)
            }
            Ok(Statement::Instruction { instruction, .. }) => {
                let codes = self.instruction_codes(alloc, instruction)?;
                push_field(&mut cells, true, slot.before, &codes)?;
                push_blank_after(&mut cells, &self.slots()[index + 1..], slot.after)?;
                Ok(cells)
            }
            Ok(Statement::End { .. }) => {
                push_literals(&mut cells, slot.before, self.literals())?;
                Ok(cells)
            }
            _ => Ok(cells),
        }
    }
}
