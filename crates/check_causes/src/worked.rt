//! The fields at which an instruction works.

ghost use Rattle.std.specs.Prelude.{◌≡◌, ◌+◌, ◌<◌, ◌≤◌, length};
ghost use Rattle.core_store.specs.Storage.{codes_from, largest_size};
ghost use Rattle.machine.specs.{Effect.{works_of}, Instructions.{operation_by}};
ghost use Rattle.check_causes.specs.{
  Worked.{fields_by, fields_worked, if_read, is_on_fields},
  Reading.{decoded_told},
};
ghost use Rattle.units.specs.declared.units.Units.{Units as AllUnits};

use crate::forms::is_instruction;
use crate::operands::operands;
use crate::words::word_at;
use bcd::Code;
use core_store::{Core, Registers};
use machine::{Parts, Word, addresses_in, character};

/// The characters of the operations that work at fields.
#[rattlefmt::skip]
const ON_FIELDS: u64 =
      1 << 11  // "#" modify address
    | 1 << 18  // "S" subtract
    | 1 << 24  // "Y" move zone
    | 1 << 25  // "Z" move and suppress zeros
    | 1 << 27  // "," set word mark
    | 1 << 35  // "L" load
    | 1 << 36  // "M" move
    | 1 << 42  // "!" zero and subtract
    | 1 << 49  // "A" add
    | 1 << 51  // "C" compare
    | 1 << 52  // "D" move numeric
    | 1 << 53  // "E" move and edit
    | 1 << 58  // "?" zero and add
    | 1 << 60; // ")" clear word mark

/// Whether the operation that a character names works at fields.
#[tactic(auto, using(crate::proofs::WorkedLemmas::on_fields_at))]
fn is_on_fields(first: Code) -> bool
    ensures { result ≡ is_on_fields (operation_by first) }
{
    (ON_FIELDS >> first.number()) % 2 == 1
}

/// The addresses of the instruction of these characters, if they can be read.
fn addresses<C: Core>(core: &C, registers: &Registers, word: Word) -> Option<(u16, u16)>
    requires some { 1 ≤ word.length }
    requires most { word.length ≤ 8 }
    requires within { word.first + word.length ≤ length (C.cells core.now) }
    requires below { word.first < largest_size }
    ensures { result ≡ if_read (decoded_told (C.cells core.now) word.length registers.now
        (codes_from (C.cells core.now) word.first word.length)) }
{
    let first = character(core, word, 0);
    let last = character(core, word, word.length - 1);
    if !is_instruction(first, word.length, last) {
        return None;
    }
    let count = addresses_in(first, word.length);
    match operands(core, registers, word, count) {
        Ok(operands) => Some(operands),
        Err(_) => None,
    }
}

/// The addresses of the instruction of these characters, if it works at fields.
#[tactic(auto, unfolding(crate::specs::Worked::fields_by))]
fn fields_by<C: Core>(core: &C, registers: &Registers, word: Word) -> Option<(u16, u16)>
    requires some { 1 ≤ word.length }
    requires most { word.length ≤ 8 }
    requires within { word.first + word.length ≤ length (C.cells core.now) }
    requires below { word.first < largest_size }
    ensures { (units : AllUnits) → result ≡ fields_by
        (works_of (C.cells core.now) registers.now units) word.length
        (codes_from (C.cells core.now) word.first word.length) }
{
    if is_on_fields(character(core, word, 0)) {
        addresses(core, registers, word)
    } else {
        None
    }
}

/// The addresses of the instruction at register I, if it works at fields.
fn fields_at<C: Core>(core: &C, registers: &Registers) -> Option<(u16, u16)>
    ensures { (units : AllUnits) →
        result ≡ fields_worked (works_of (C.cells core.now) registers.now units) }
{
    if registers.i >= core.size() {
        return None;
    }
    match word_at(core, registers.i) {
        Ok(word) => fields_by(core, registers, word),
        Err(_) => None,
    }
}

/// Returns the positions at which the fields end that the instruction at register I works at: its A
/// and its B address; `None` if there is no such instruction, or it works at no fields.
pub fn fields_of<C: Core>(parts: &Parts<C>) -> Option<(u16, u16)>
    ensures { result ≡ fields_worked parts.now.works }
{
    fields_at(&parts.core, &parts.registers)
}
