//! Names and the values of addresses.

ghost use Rattle.std.specs.Prelude.{◌≡◌, ◌≤◌, IfSome, find, option_copied};
ghost use Rattle.autocoder_layout.specs.{
  Names.{defines, address_of, within, base_number, value_in, IsValueWithin},
  Bounds.{IsWithin, farthest},
};
ghost use Rattle.autocoder_statements.specs.Ranges.{IsBaseInRange, IsExpressionInRange};

use crate::slots::Slot;
use autocoder_statements::{Adjustment, Base, Expression, Name};

/// The value of an expression.
#[derive(Clone, Copy, Debug, PartialEq, Eq)]
pub enum Value {
    /// Its name is not defined.
    Unknown,
    /// It is negative, or not below the size of storage.
    Outside,
    /// This position.
    At(u16),
}

impl Slot {
    /// Whether the card defines a name.
    pub fn defines(&self, name: &Name) -> bool
        ensures { result ≡ defines name.now self.now }
    {
        match self.defines {
            None => false,
            Some(definition) => definition.name == *name,
        }
    }
}

/// The first card that defines a name.
fn defining<'a>(slots: &'a [Slot], name: &Name) -> Option<&'a Slot>
    ensures { option_copied result ≡ find (defines name.now) slots.now }
{
    slots.iter().find(|slot| slot.defines(name))
}

/// The address of a name, from the first card that defines it.
#[tactic(auto, unfolding(crate::specs::Names::address_of))]
pub(crate) fn address_of(slots: &[Slot], name: &Name) -> Option<u32>
    ensures { result ≡ address_of name.now slots.now }
{
    let slot = defining(slots, name)?;
    Some(slot.defines?.address)
}

/// A number as a position of the storage, or `Outside`.
#[tactic(auto, unfolding(crate::specs::Names::within))]
fn within(size: u16, number: u32) -> Value
    ensures value { result ≡ within size number }
    ensures within { IsValueWithin size result }
{
    if number < size as u32 {
        Value::At(number as u16)
    } else {
        Value::Outside
    }
}

/// The number of a base, if its name is defined.
#[tactic(auto, using(crate::proofs::SlotBounds::address_within))]
pub fn base_number(slots: &[Slot], base: Base) -> Option<u32>
    requires names { IsWithin farthest slots.now }
    requires range { IsBaseInRange base }
    ensures number { result ≡ base_number slots.now base }
    ensures limit { IfSome result (λ number. number ≤ farthest) }
{
    match base {
        Base::Number(number) => Some(number),
        Base::Name(name) => address_of(slots, &name),
    }
}

/// The value of an expression, given the cards that define names.
#[tactic(auto, unfolding(crate::specs::Names::value_in))]
pub(crate) fn value_in(size: u16, slots: &[Slot], expression: Expression) -> Value
    requires names { IsWithin farthest slots.now }
    requires range { IsExpressionInRange expression }
    ensures value { result ≡ value_in size slots.now expression }
    ensures within { IsValueWithin size result }
{
    let Some(number) = base_number(slots, expression.base) else {
        return Value::Unknown;
    };
    match expression.adjustment {
        Adjustment::Nothing => within(size, number),
        Adjustment::Plus(more) => within(size, number + more),
        Adjustment::Minus(less) => match number.checked_sub(less) {
            Some(number) => within(size, number),
            None => Value::Outside,
        },
    }
}
