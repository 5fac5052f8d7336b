//! Instructions that were read before.
//!
//! An entry has the characters and the word marks that it was read from, and is used only where
//! these stand. So it is right in every storage, and nothing that is written there touches it.

ghost use Rattle.std.specs.Prelude.{◌≡◌, ◌+◌, ◌%◌, ◌<◌, ◌≤◌, ℕ, All, IfSome, length, slice_index_or, Ok};
ghost use Rattle.core_store.specs.Storage.{Storage};
ghost use Rattle.addresses.specs.Effective.{position_of};
ghost use Rattle.machine.specs.{
  declared.cache.Entry.{Entry},
  Kinds.{IsRight, WorksAt},
  Shapes.{IsShapeOf, Stands},
};

use crate::kinds::Kind;
use crate::shapes::{Addresses, Shape};
use addresses::Tagged;
use bcd::Code;
use core_store::Core;

/// The number of entries.
const ENTRIES: usize = 512;

/// The number of positions that are looked at for a kept instruction: eight characters, nine marks,
/// and what is read with them.
pub const LOOKED_AT: u16 = 16;

/// Marks that stand nowhere, since nine positions have nine bits.
const NO_MARKS: u16 = 512;

/// What stands from a position on: all that an instruction can be read from.
#[derive(Clone, Copy)]
pub struct Key {
    /// The characters of eight positions as one number.
    pub characters: u64,
    /// The word marks of nine positions as bits.
    pub marks: u64,
}

/// An instruction, with all that it was read from.
#[derive(Clone, Copy)]
pub struct Entry {
    characters: u64,
    marks: u16,
    /// An indexed one, or another, where the characters alone do not tell at which positions it
    /// works.
    pub kind: Kind,
    /// The positions at which it works, if it is of a usual kind.
    pub a: u16,
    pub b: u16,
    pub shape: Shape,
}

/// Instructions of a storage of one size, each at a place given by its position.
#[derive(Drop)]
pub struct Cache {
    entries: [Entry; ENTRIES],
    /// The number of positions of the storage.
    pub size: u16,
    ghost right: { All (IsRight size) entries },
}

/// The position that an address represents in each storage of this size, if it names no index
/// location and that position is inside.
fn fixed_position(address: Tagged, size: u16) -> Option<u16>
    ensures inside { IfSome result (λ position. position < size) }
    ensures position { IfSome result (λ position. (s : Storage) → length s ≡ size →
        position_of s address ≡ Ok position) }
{
    if address.index.is_some() || address.base >= size {
        return None;
    }
    Some(address.base)
}

/// The positions that an instruction works at in each storage of this size, if its characters alone
/// tell them and both are inside.
fn fixed_positions(shape: &Shape, size: u16) -> Option<(u16, u16)>
    ensures { IfSome result (λ found. WorksAt size shape.now found.0 found.1) }
{
    match shape.addresses {
        Addresses::Absent => None,
        Addresses::One(address) => {
            let first = fixed_position(address, size)?;
            Some((first, first))
        }
        Addresses::Two(address, other) => {
            let first = fixed_position(address, size)?;
            let second = fixed_position(other, size)?;
            Some((first, second))
        }
    }
}

impl Key {
    /// What stands from a position on.
    #[inline(always)]
    pub fn at<C: Core>(core: &C, position: u16) -> Key
        requires { position + 16 ≤ length (C.cells core.now) }
        ensures { Stands (C.cells core.now) position result.characters result.marks }
    {
        Key {
            characters: core.eight_codes(position),
            marks: core.nine_marks(position),
        }
    }
}

impl Entry {
    /// An entry that is never used.
    fn unused() -> Entry
        ensures { (size : ℕ) → IsRight size result }
    {
        Entry {
            characters: 0,
            marks: NO_MARKS,
            kind: Kind::Other,
            a: 0,
            b: 0,
            shape: Shape {
                first: Code::blank(),
                last: Code::blank(),
                length: 0,
                addresses: Addresses::Absent,
            },
        }
    }

    /// The entry of a shape that was read from this key, for a storage of this size.
    pub fn of_shape(key: Key, shape: Shape, size: u16) -> Entry
        requires shape { IsShapeOf key.characters key.marks shape }
        requires nine { key.marks < 512 }
        ensures right { IsRight size result }
        ensures shape { result.shape ≡ shape }
    {
        let other = Entry {
            characters: key.characters,
            marks: key.marks as u16,
            kind: Kind::Other,
            a: 0,
            b: 0,
            shape,
        };
        let Some((a, b)) = fixed_positions(&shape, size) else {
            return Entry {
                kind: Kind::of_indexed(&shape),
                ..other
            };
        };
        let kind = Kind::of_shape(&shape);
        if kind.is_on_fields() && (a < 16 || b < 16) {
            return other;
        }
        Entry {
            kind,
            a,
            b,
            ..other
        }
    }
}

impl Cache {
    /// A cache without instructions, for a storage of this size.
    pub fn new(size: u16) -> Cache
        ensures { result.size ≡ size }
    {
        Cache {
            entries: [Entry::unused(); ENTRIES],
            size,
        }
    }

    /// What is kept at the place of a position.
    #[inline(always)]
    pub fn slot(&self, position: u16) -> &Entry
        ensures right { IsRight self.now.size result.now }
        ensures place { (other : Entry) →
            slice_index_or self.now.entries (position % 512) other ≡ result.now }
    {
        &self.entries[position as usize % ENTRIES]
    }

    /// What is kept of the instruction at a position, if it was read from this key.
    #[inline(always)]
    pub fn entry(&self, position: u16, key: Key) -> Option<&Entry>
        ensures right { IfSome result (λ entry. IsRight self.now.size entry.now) }
        ensures same { IfSome result (λ entry.
            IsShapeOf key.characters key.marks entry.now.shape) }
        ensures place { IfSome result (λ entry. (other : Entry) →
            slice_index_or self.now.entries (position % 512) other ≡ entry.now) }
    {
        let entry = self.slot(position);
        if entry.characters == key.characters && entry.marks as u64 == key.marks {
            Some(entry)
        } else {
            None
        }
    }

    /// Keeps an entry at a position.
    pub fn keep(&mut self, position: u16, entry: Entry)
        requires { IsRight self.old.size entry }
        ensures { self.new.size ≡ self.old.size }
    {
        self.entries[position as usize % ENTRIES] = entry;
    }
}
