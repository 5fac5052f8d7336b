//! The positions that texts name.

ghost use Rattle.std.specs.Prelude.{◌≡◌, ◌≢◌, ◌<◌, ◌≤◌, ℕ, List, All, None, IfOk, IfSome, length, find, option_copied, MatchOption};
ghost use Rattle.autocoder.specs.Listing.{glyphs_of};
ghost use Rattle.autocoder_layout.specs.Names.{address_of, base_number, defines, value_in, value_with, within};
ghost use Rattle.autocoder_statements.specs.{
  declared.expressions.Base.{Base},
  Expressions.{address},
  Limits.{longest_text},
};
ghost use Rattle.run_traces.specs.Addresses.{NamesPosition, position_at, position_by, position_named};

use crate::names::Names;
use autocoder_layout::{Slot, Value};
use autocoder_statements::{
    Address, Adjustment, Base, Expression, LONGEST_TEXT, Name, Operand, OperandKind, read_operand,
};
use bcd::Code;
use core_store::LARGEST_SIZE;
use std::alloc::{AllocError, Global};

/// The first card that defines a name.
fn defining<'a>(slots: &'a [Slot], name: &Name) -> Option<&'a Slot>
    ensures { option_copied result ≡ find (defines name.now) slots.now }
{
    slots.iter().find(|slot| slot.defines(name))
}

/// The address of a name, from the first card that defines it.
#[tactic(auto, unfolding(autocoder_layout::specs::Names::address_of))]
fn address_of(slots: &[Slot], name: &Name) -> Option<u32>
    ensures { result ≡ address_of name.now slots.now }
{
    let slot = defining(slots, name)?;
    Some(slot.defines?.address)
}

/// The number of a base, if its name is defined.
fn base_number(slots: &[Slot], base: Base) -> Option<u32>
    ensures { result ≡ base_number slots.now base }
{
    match base {
        Base::Number(number) => Some(number),
        Base::Name(name) => address_of(slots, &name),
    }
}

/// A number as a position of the largest storage.
#[tactic(auto, unfolding(autocoder_layout::specs::Names::within))]
fn position_of(number: u64) -> Option<u16>
    ensures { result ≡ position_at (within 16000 number) }
{
    if number < u64::from(LARGEST_SIZE) {
        Some(number as u16)
    } else {
        None
    }
}

/// The position that a number is with its adjustment.
fn position_with(adjustment: Adjustment, number: u32) -> Option<u16>
    ensures { result ≡ position_at (value_with 16000 adjustment number) }
{
    let number = u64::from(number);
    match adjustment {
        Adjustment::Nothing => position_of(number),
        Adjustment::Plus(more) => position_of(number + u64::from(more)),
        Adjustment::Minus(less) => match number.checked_sub(u64::from(less)) {
            Some(number) => position_of(number),
            None => None,
        },
    }
}

/// The position that an expression is.
#[tactic(auto, unfolding(autocoder_layout::specs::Names::value_in))]
fn position_in(slots: &[Slot], expression: Expression) -> Option<u16>
    ensures { result ≡ position_at (value_in 16000 slots.now expression) }
{
    match base_number(slots, expression.base) {
        Some(number) => position_with(expression.adjustment, number),
        None => None,
    }
}

/// The position that an address without an index location names.
fn position_by(slots: &[Slot], address: Address) -> Option<u16>
    ensures { result ≡ position_by slots.now address address.index }
{
    match address.index {
        None => position_in(slots, address.expression),
        Some(_) => None,
    }
}

/// The address that a text begins with, and how many characters it takes.
#[tactic(auto, unfolding(autocoder_statements::specs::Operands::operand))]
fn read_address(text: &[Code]) -> Option<(Address, usize)>
    requires { length text.now ≤ longest_text }
    ensures { result ≡ address text.now }
{
    match read_operand(OperandKind::Branch, text) {
        Some((Operand::Address(address), count)) => Some((address, count)),
        _ => None,
    }
}

/// The position that characters name.
#[tactic(auto, unfolding(crate::specs::Addresses::position_named))]
fn position_named(slots: &[Slot], text: &[Code]) -> Option<u16>
    requires { length text.now ≤ longest_text }
    ensures { result ≡ position_named slots.now text.now }
{
    match read_address(text) {
        Some((address, count)) => {
            if count == text.len() {
                position_by(slots, address)
            } else {
                None
            }
        }
        None => None,
    }
}

/// The characters whose glyphs a text is, if it is such a text.
fn characters_of(alloc: Global, text: &[u8]) -> Result<Option<Vec<Code>>, AllocError>
    ensures some { IfOk result (λ found. IfSome found (λ codes.
        text.now ≡ glyphs_of codes.items)) }
    ensures below { IfOk result (λ found. IfSome found (λ codes.
        All (λ code. code < 64) codes.items)) }
    ensures none { IfOk result (λ found. found ≡ None → (codes : List ℕ) →
        All (λ code. code < 64) codes → text.now ≢ glyphs_of codes) }
{
    let mut codes = Vec::new(alloc);
    for &glyph in text {
        let Some(code) = Code::from_glyph(glyph) else {
            return Ok(None);
        };
        codes.push(code)?;
    }
    Ok(Some(codes))
}

impl Names {
    /// Returns the position below 16000 that a text names as an operand does: a number or a name of
    /// the source, with a number added or taken away (`342`, `READ`, `READ&7`, `READ-1`); none if it
    /// names none. Fails only if there is no memory.
    pub fn position_named(&self, alloc: Global, text: &str) -> Result<Option<u16>, AllocError>
        ensures { IfOk result (λ found. MatchOption found
            ((position : ℕ) → ¬ NamesPosition self.now.slots text.now position)
            (NamesPosition self.now.slots text.now)) }
    {
        let bytes = text.as_bytes();
        if bytes.len() > LONGEST_TEXT {
            return Ok(None);
        }
        match characters_of(alloc, bytes)? {
            Some(codes) => Ok(position_named(self.slots(), &codes)),
            None => Ok(None),
        }
    }
}
