//! The lowest fault of a card.

ghost use Rattle.std.specs.Prelude.{◌≡◌, ◌<◌, length, slice_index_or, IfSome};
ghost use Rattle.core_store.specs.Storage.{positions_of};
ghost use Rattle.autocoder_layout.specs.{
  Slots.{origin},
  Source.{IsInRange, silent},
  Judging.{expression_in, expressions_of, is_unknown, is_outside, has_unknown_name, has_value_outside, names_unknown, names_outside, passes_outside, fills_outside, fills_reserved, is_beyond, fault_by},
};
ghost use Rattle.autocoder_statements.specs.Ranges.{IsOperandInRange, IsExpressionInRange};

use crate::cells::{Cell, FIRST_FREE};
use crate::faults::SourceFault;
use crate::layout::Layout;
use crate::names::Value;
use crate::slots::Slot;
use crate::source::Line;
use autocoder_statements::{Expression, Operand, Statement};

/// The expression of an operand, if it is an address.
fn expression_in(operand: &Option<Operand>) -> Option<Expression>
    requires { IfSome operand.now IsOperandInRange }
    ensures expression { result ≡ expression_in operand.now }
    ensures range { IfSome result IsExpressionInRange }
{
    match operand {
        Some(Operand::Address(address)) => Some(address.expression),
        _ => None,
    }
}

/// The expressions of a card whose names may be defined by any card.
#[tactic(auto, unfolding(crate::specs::Judging::expressions_of))]
pub fn expressions_of(line: &Line) -> (Option<Expression>, Option<Expression>)
    requires { IsInRange line.now }
    ensures expressions { result ≡ expressions_of line.now }
    ensures first { IfSome result.0 IsExpressionInRange }
    ensures second { IfSome result.1 IsExpressionInRange }
{
    match line {
        Ok(Statement::Instruction { instruction, .. }) => (
            expression_in(&instruction.first),
            expression_in(&instruction.second),
        ),
        Ok(Statement::End { start, .. }) => (*start, None),
        _ => (None, None),
    }
}

impl Value {
    /// Whether its name is not defined.
    fn is_unknown(self) -> bool
        ensures { result ≡ is_unknown self }
    {
        match self {
            Value::Unknown => true,
            _ => false,
        }
    }

    /// Whether it is not a position of the storage.
    fn is_outside(self) -> bool
        ensures { result ≡ is_outside self }
    {
        match self {
            Value::Outside => true,
            _ => false,
        }
    }
}

/// Whether a position that the card passes is not in storage.
fn passes_outside(size: u16, slot: &Slot, line: &Line) -> bool
    ensures { result ≡ passes_outside size slot.now line.now }
{
    match line {
        Ok(Statement::Area { .. }) => slot.after > size as u32,
        _ => false,
    }
}

/// Whether a filled position is not in storage.
fn fills_outside(size: u16, cells: &[Cell]) -> bool
    ensures { result ≡ fills_outside size cells.now }
{
    cells.iter().any(|cell| size as u32 <= cell.position)
}

/// Whether a filled position belongs to the card that loads the program.
fn fills_reserved(cells: &[Cell]) -> bool
    ensures { result ≡ fills_reserved cells.now }
{
    cells.iter().any(|cell| cell.position < FIRST_FREE)
}

impl Layout {
    /// Whether an expression has a name that is not defined.
    pub fn has_unknown_name(&self, expression: Option<Expression>) -> bool
        requires { IfSome expression IsExpressionInRange }
        ensures { result ≡ has_unknown_name (positions_of self.now.source.size) self.now.slots
            expression }
    {
        match expression {
            None => false,
            Some(expression) => self.value_of(expression).is_unknown(),
        }
    }

    /// Whether an expression is not a position of the storage.
    pub fn has_value_outside(&self, expression: Option<Expression>) -> bool
        requires { IfSome expression IsExpressionInRange }
        ensures { result ≡ has_value_outside (positions_of self.now.source.size) self.now.slots
            expression }
    {
        match expression {
            None => false,
            Some(expression) => self.value_of(expression).is_outside(),
        }
    }

    /// Whether a name of a card is not defined.
    #[tactic(auto, unfolding(crate::specs::Judging::names_unknown))]
    fn names_unknown(&self, line: &Line) -> bool
        requires { IsInRange line.now }
        ensures { result ≡ names_unknown (positions_of self.now.source.size) self.now.slots
            line.now }
    {
        let (first, second) = expressions_of(line);
        self.has_unknown_name(first) || self.has_unknown_name(second)
    }

    /// Whether an address of a card is not in storage.
    #[tactic(auto, unfolding(crate::specs::Judging::names_outside))]
    fn names_outside(&self, line: &Line) -> bool
        requires { IsInRange line.now }
        ensures { result ≡ names_outside (positions_of self.now.source.size) self.now.slots
            line.now }
    {
        let (first, second) = expressions_of(line);
        self.has_value_outside(first) || self.has_value_outside(second)
    }

    /// Whether an address or a position of a card is not in storage.
    #[tactic(auto, unfolding(crate::specs::Judging::is_beyond))]
    fn is_beyond(&self, slot: &Slot, cells: &[Cell], line: &Line) -> bool
        requires { IsInRange line.now }
        ensures { result ≡ is_beyond (positions_of self.now.source.size) self.now.slots slot.now
            cells.now line.now }
    {
        self.names_outside(line)
            || passes_outside(self.size(), slot, line)
            || fills_outside(self.size(), cells)
    }

    /// The lowest fault of a card that fills these cells, by the card's index. `overlaps` is
    /// whether an earlier card fills one of them.
    #[tactic(auto, unfolding(crate::specs::Judging::fault_by))]
    pub fn fault(&self, index: usize, overlaps: bool, cells: &[Cell]) -> Option<SourceFault>
        requires { index < length self.now.source.lines }
        ensures { result ≡ fault_by (positions_of self.now.source.size) self.now.slots overlaps
            (slice_index_or self.now.slots index origin) cells.now
            (slice_index_or self.now.source.lines index silent) }
    {
        let slot = &self.slots()[index];
        let line = &self.source().lines()[index];
        if slot.fault.is_some() {
            return slot.fault;
        }
        if self.names_unknown(line) {
            return Some(SourceFault::UnknownName);
        }
        if self.is_beyond(slot, cells, line) {
            return Some(SourceFault::Outside);
        }
        if fills_reserved(cells) {
            return Some(SourceFault::Reserved);
        }
        if overlaps {
            return Some(SourceFault::Filled);
        }
        None
    }
}
