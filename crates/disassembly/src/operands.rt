//! The operand field of a statement.

ghost use Rattle.std.specs.Prelude.{◌≡◌, ◌<◌, ◌/◌, ◌%◌, [], ◌∷◌, ◌++◌, option_to_list, OnOk};
ghost use Rattle.bcd.specs.declared.Zone.TheVariants.{Bare};
ghost use Rattle.addresses.specs.Digits.{digit_under};
ghost use Rattle.autocoder_statements.specs.{Laws.{digits_of}, Mnemonics.{code_of}};
ghost use Rattle.disassembly.specs.Texts.{address_text, base_text, index_text, next_address, next_last, number_text, operand_text};

use crate::names::{name_at, push_name};
use crate::statements::Statement;
use addresses::{IndexLocation, Tagged, digit_under};
use autocoder_layout::Slot;
use autocoder_statements::{Name, code_of};
use bcd::{Code, Zone};
use std::alloc::AllocError;

/// The digit of a number at the place of this unit.
pub(crate) fn digit(number: u16, unit: u16) -> Code
    requires { 0 < unit }
    ensures { result ≡ digit_under Bare (number / unit % 10) }
{
    digit_under(Zone::Bare, (number / unit % 10) as u8)
}

/// Adds the last three digits of a number.
#[tactic(auto, unfolding(autocoder_statements::specs::Laws::digits_of))]
fn push_three(text: &mut Vec<Code>, number: u16) -> Result<(), AllocError>
    ensures { OnOk result (text.new.items ≡ text.old.items ++ digits_of 3 number) }
{
    text.push(digit(number, 100))?;
    text.push(digit(number, 10))?;
    text.push(digit(number, 1))?;
    Ok(())
}

/// Adds the last four digits of a number.
#[tactic(auto, unfolding(autocoder_statements::specs::Laws::digits_of))]
fn push_four(text: &mut Vec<Code>, number: u16) -> Result<(), AllocError>
    ensures { OnOk result (text.new.items ≡ text.old.items ++ digits_of 4 number) }
{
    text.push(digit(number, 1000))?;
    push_three(text, number)
}

/// Adds the five digits of a number.
#[tactic(auto, unfolding(autocoder_statements::specs::Laws::digits_of))]
fn push_five(text: &mut Vec<Code>, number: u16) -> Result<(), AllocError>
    ensures { OnOk result (text.new.items ≡ text.old.items ++ digits_of 5 number) }
{
    text.push(digit(number, 10_000))?;
    push_four(text, number)
}

/// Adds a number in at least three digits.
pub(crate) fn push_number(text: &mut Vec<Code>, number: u16) -> Result<(), AllocError>
    ensures { OnOk result (text.new.items ≡ text.old.items ++ number_text number) }
{
    if number < 1000 {
        push_three(text, number)
    } else if number < 10_000 {
        push_four(text, number)
    } else {
        push_five(text, number)
    }
}

/// Adds an address by its name, or by its number if it has none.
fn push_base(text: &mut Vec<Code>, number: u16, name: Option<Name>) -> Result<(), AllocError>
    ensures { OnOk result (text.new.items ≡ text.old.items ++ base_text number name) }
{
    match name {
        None => push_number(text, number),
        Some(name) => push_name(text, &name),
    }
}

/// Adds `&`, `X` and a digit, with which an index location is named.
fn push_index(text: &mut Vec<Code>, digit: u8) -> Result<(), AllocError>
    ensures { OnOk result (text.new.items ≡ text.old.items ++ index_text (digit ∷ [])) }
{
    text.push(code_of(b'&'))?;
    text.push(code_of(b'X'))?;
    text.push(code_of(digit))?;
    Ok(())
}

/// Adds an address that names an index location.
fn push_indexed(text: &mut Vec<Code>, number: u16, digit: u8) -> Result<(), AllocError>
    ensures { OnOk result (text.new.items
        ≡ text.old.items ++ (number_text number ++ index_text (digit ∷ []))) }
{
    push_number(text, number)?;
    push_index(text, digit)
}

/// Adds an address, by a name of these cards that is just there if it has no index location.
#[tactic(auto, unfolding(crate::specs::Texts::address_text))]
pub(crate) fn push_address(
    text: &mut Vec<Code>,
    slots: &[Slot],
    address: &Tagged,
) -> Result<(), AllocError>
    ensures { OnOk result (text.new.items ≡ text.old.items ++ address_text slots.now address.now) }
{
    let number = address.base;
    match address.index {
        None => push_base(text, number, name_at(slots, number)),
        Some(IndexLocation::First) => push_indexed(text, number, b'1'),
        Some(IndexLocation::Second) => push_indexed(text, number, b'2'),
        Some(IndexLocation::Third) => push_indexed(text, number, b'3'),
    }
}

/// Adds a second address behind a comma, if there is one.
fn push_next_address(
    text: &mut Vec<Code>,
    slots: &[Slot],
    address: &Option<Tagged>,
) -> Result<(), AllocError>
    ensures { OnOk result (text.new.items ≡ text.old.items ++ next_address slots.now address.now) }
{
    let Some(address) = address else {
        return Ok(());
    };
    text.push(code_of(b','))?;
    push_address(text, slots, address)
}

/// Adds a last character that stands alone, if there is one.
fn push_last(text: &mut Vec<Code>, last: Option<Code>) -> Result<(), AllocError>
    ensures { OnOk result (text.new.items ≡ text.old.items ++ option_to_list last) }
{
    let Some(code) = last else {
        return Ok(());
    };
    text.push(code)?;
    Ok(())
}

/// Adds a last character behind a comma, if there is one.
pub(crate) fn push_next_last(text: &mut Vec<Code>, last: Option<Code>) -> Result<(), AllocError>
    ensures { OnOk result (text.new.items ≡ text.old.items ++ next_last last) }
{
    let Some(code) = last else {
        return Ok(());
    };
    text.push(code_of(b','))?;
    text.push(code)?;
    Ok(())
}

/// Adds the characters of a statement's operand field: its addresses and its last character, with
/// commas between them. An address without an index location that is just that of a name of these
/// cards is written by the first such name. Fails only if there is no memory.
#[tactic(auto, unfolding(crate::specs::Texts::operand_text))]
pub fn push_operands(
    text: &mut Vec<Code>,
    slots: &[Slot],
    statement: &Statement,
) -> Result<(), AllocError>
    ensures { OnOk result (text.new.items
        ≡ text.old.items ++ operand_text slots.now statement.now) }
{
    let Some(first) = &statement.first else {
        return push_last(text, statement.last);
    };
    push_address(text, slots, first)?;
    push_next_address(text, slots, &statement.second)?;
    push_next_last(text, statement.last)
}
