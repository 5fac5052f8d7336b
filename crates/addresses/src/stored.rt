//! Numbers written into storage as addresses.

ghost use Rattle.std.specs.Prelude.{◌≡◌, ◌-◌, ◌<◌, ◌≤◌, ℕ, length, Ok, Err, IfErr, IsTrue, OnErr, OnOk};
ghost use Rattle.core_store.specs.Storage.{put_codes, largest_size};
ghost use Rattle.addresses.specs.Stored.{has_three, address_stored};

use crate::written::encode;
use bcd::Code;
use core_store::{Check, Core, LARGEST_SIZE};

/// Whether the storage has three positions that end at this one.
#[inline(always)]
pub fn has_three<C: Core>(core: &C, position: u16) -> bool
    ensures three { result ≡ has_three (C.cells core.now) position }
    ensures inside { IsTrue result →
        (2 ≤ position) × (position < length (C.cells core.now)) × (position < largest_size) }
{
    position < core.size() && position >= 2
}

/// Writes three characters that end at a position. Marks stay.
#[inline(always)]
pub fn put_three<C: Core>(core: &mut C, position: u16, codes: [Code; 3])
    requires within { position < length (C.cells core.old) }
    requires from { 2 ≤ position }
    ensures { C.cells core.new ≡ put_codes (C.cells core.old) (position - 2) codes }
{
    let [first, second, third] = codes;
    core.put(position, third);
    core.put(position - 1, second);
    core.put(position - 2, first);
}

/// Writes a number, modulo 16000, as an address that ends at a position. Check ADDRESS if it would
/// pass either end of the storage.
#[tactic(auto, unfolding(crate::specs::Stored::address_stored))]
pub fn store<C: Core>(core: &mut C, position: u16, number: u16) -> Result<(), Check>
    ensures done { OnOk result (address_stored (C.cells core.old) position number
        ≡ Ok (C.cells core.new)) }
    ensures check { IfErr result (λ check. address_stored (C.cells core.old) position number
        ≡ Err check) }
    ensures unchanged { OnErr result (C.cells core.new ≡ C.cells core.old) }
    ensures below { OnOk result (position < largest_size) }
{
    if !has_three(core, position) {
        return Err(Check::Address);
    }
    put_three(core, position, encode(number % LARGEST_SIZE));
    Ok(())
}
