//! Reading an instruction.

ghost use Rattle.std.specs.Prelude.{◌≡◌, ◌↔◌, ◌+◌, ◌-◌, ◌<◌, ◌≤◌, ℕ, length, slice_index, unwrap_or, min, if◌then◌else◌, true, Some, None, IfSome, IfOk};
ghost use Rattle.core_store.specs.Storage.{Storage, codes_from, is_marked, least_mark, largest_size};
ghost use Rattle.machine.specs.{
  Word.{word_length, ending_in, IsInstruction},
  Instructions.{decoded_by, Names},
  Shapes.{addresses_of, has_two, instruction_at, operands_at, shape_at, shape_of, tagged_at},
};

use crate::forms::{addresses_in, allows, has_form};
use crate::shapes::{Addresses, Shape};
use addresses::{Tagged, decode, position};
use bcd::Code;
use core_store::{Check, Core, Registers};

/// The characters of an instruction: `count` of them from a position on.
#[derive(Clone, Copy)]
pub struct Word {
    pub first: u16,
    pub length: u16,
}

/// The next mark within eight positions, or else the eighth position.
#[inline(always)]
fn next_mark<C: Core>(core: &C, i: u16) -> u16
    requires within { i < length (C.cells core.now) }
    requires below { i < largest_size }
    ensures mark { result ≡ unwrap_or (least_mark (C.cells core.now) (i + 1) 8) (i + 8) }
    ensures after { (i < result) × (result ≤ i + 8) }
{
    match core.mark_after(i) {
        Some(mark) => mark,
        None => i + 8,
    }
}

/// The number of characters of the instruction at a position that begins with a comma, if a word
/// begins there and the storage has those characters.
#[inline(never)]
fn comma_length<C: Core>(core: &C, i: u16) -> Option<u16>
    requires within { i < length (C.cells core.now) }
    requires below { i < largest_size }
    ensures length { result ≡ (if is_marked (C.cells core.now) i
        then ending_in (C.cells core.now) i
        (min (unwrap_or (least_mark (C.cells core.now) (i + 1) 8) (i + 8) - i) 7)
        else None) }
    ensures within { IfSome result (λ count. (1 ≤ count) × (count ≤ 8)
        × (i + count ≤ length (C.cells core.now))) }
{
    if !core.is_marked(i) {
        return None;
    }
    let count = (next_mark(core, i) - i).min(7);
    if i + count <= core.size() {
        Some(count)
    } else {
        None
    }
}

/// The number of characters of the instruction at a position, if one begins and ends there.
#[inline(always)]
#[tactic(auto, unfolding(crate::specs::Word::word_length))]
pub fn word_length<C: Core>(core: &C, i: u16) -> Option<u16>
    requires within { i < length (C.cells core.now) }
    requires below { i < largest_size }
    ensures length { result ≡ word_length (C.cells core.now) i }
    ensures within { IfSome result (λ count. (1 ≤ count) × (count ≤ 8)
        × (i + count ≤ length (C.cells core.now))) }
{
    if core.get(i).glyph() == b',' {
        return comma_length(core, i);
    }
    match core.word_end(i) {
        Some(end) => Some(end - i),
        None => None,
    }
}

/// A character of an instruction, by its index from 0.
#[inline(always)]
pub fn character<C: Core>(core: &C, word: Word, place: u16) -> Code
    requires within { word.first + word.length ≤ length (C.cells core.now) }
    requires below { word.first < largest_size }
    requires among { place < word.length }
    requires most { word.length ≤ 8 }
    ensures { result ≡ slice_index (codes_from (C.cells core.now) word.first word.length) place }
{
    core.get_after(word.first, place)
}

/// The address whose characters begin at an index of an instruction, if they are one.
#[inline(always)]
fn address<C: Core>(core: &C, word: Word, place: u16) -> Option<Tagged>
    requires within { word.first + word.length ≤ length (C.cells core.now) }
    requires below { word.first < largest_size }
    requires among { place + 3 ≤ word.length }
    requires most { word.length ≤ 8 }
    ensures { result ≡ tagged_at
        (codes_from (C.cells core.now) word.first word.length) place }
{
    decode([
        character(core, word, place),
        character(core, word, place + 1),
        character(core, word, place + 2),
    ])
}

/// The addresses of an instruction that has so many, if each can be read.
#[inline(always)]
#[tactic(auto, unfolding(crate::specs::Shapes::addresses_of))]
fn addresses<C: Core>(core: &C, word: Word, count: u16) -> Option<Addresses>
    requires within { word.first + word.length ≤ length (C.cells core.now) }
    requires below { word.first < largest_size }
    requires one { 0 < count → 4 ≤ word.length }
    requires two { 1 < count → 7 ≤ word.length }
    requires most { word.length ≤ 8 }
    ensures { result ≡ addresses_of count
        (codes_from (C.cells core.now) word.first word.length) }
{
    if count == 0 {
        return Some(Addresses::Absent);
    }
    let first = address(core, word, 1)?;
    if count == 1 {
        return Some(Addresses::One(first));
    }
    let second = address(core, word, 4)?;
    Some(Addresses::Two(first, second))
}

/// Reads what the characters of an instruction say by themselves. Check INSTRUCTION if its
/// operation, length or last character is not the machine's; check ADDRESS if an address cannot be
/// read.
#[inline(always)]
fn shape_of<C: Core>(core: &C, word: Word) -> Result<Shape, Check>
    requires some { 1 ≤ word.length }
    requires most { word.length ≤ 8 }
    requires within { word.first + word.length ≤ length (C.cells core.now) }
    requires below { word.first < largest_size }
    ensures shape { result ≡ shape_of word.length
        (codes_from (C.cells core.now) word.first word.length) }
    ensures names { IfOk result (λ shape. (a b : ℕ) →
        Names (instruction_at shape a b) (decoded_by (instruction_at shape a b))) }
{
    let first = character(core, word, 0);
    if !has_form(first, word.length) {
        return Err(Check::Instruction);
    }
    let last = character(core, word, word.length - 1);
    if !allows(first, word.length, last) {
        return Err(Check::Instruction);
    }
    let Some(addresses) = addresses(core, word, addresses_in(first, word.length)) else {
        return Err(Check::Address);
    };
    Ok(Shape {
        first,
        last,
        length: word.length,
        addresses,
    })
}

/// Reads the instruction at a position by its own characters. Check INSTRUCTION if none begins and
/// ends there, or its operation, length or last character is not the machine's; check ADDRESS if an
/// address cannot be read.
pub fn read_shape<C: Core>(core: &C, i: u16) -> Result<Shape, Check>
    requires within { i < length (C.cells core.now) }
    requires below { i < largest_size }
    ensures { result ≡ shape_at (C.cells core.now) i }
{
    let Some(count) = word_length(core, i) else {
        return Err(Check::Instruction);
    };
    shape_of(
        core,
        Word {
            first: i,
            length: count,
        },
    )
}

/// The positions that an instruction with these addresses works at. Check ADDRESS if an index
/// location cannot be read or a position is outside the storage.
#[inline(always)]
#[tactic(auto, unfolding(crate::specs::Shapes::operands_at))]
pub fn operands<C: Core>(
    core: &C,
    registers: &Registers,
    addresses: &Addresses,
) -> Result<(u16, u16), Check>
    ensures operands { result ≡ operands_at (C.cells core.now) registers.now addresses.now }
    ensures inside { IfOk result (λ operands. has_two addresses.now ≡ true →
        operands.1 < length (C.cells core.now)) }
    ensures below { IfOk result (λ operands. has_two addresses.now ≡ true →
        operands.1 < largest_size) }
{
    match addresses {
        Addresses::Absent => Ok((registers.a, registers.b)),
        Addresses::One(address) => {
            let first = position(core, *address)?;
            Ok((first, first))
        }
        Addresses::Two(address, other) => {
            let first = position(core, *address)?;
            let second = position(core, *other)?;
            Ok((first, second))
        }
    }
}

/// The law of instructions: an instruction that begins at a position ends before the first mark
/// among the eight positions after it. One that begins with a comma has at most seven characters,
/// and needs no mark after the seventh.
pub fn instructions_end_at_marks()
    ensures { (s : Storage) (i count : ℕ) →
        (word_length s i ≡ Some count) ↔ IsInstruction s i count }
{}
