//! Whether fields have a place in storage, and how long they are.

ghost use Rattle.std.specs.Prelude.{◌≡◌, ◌+◌, ◌-◌, ◌<◌, ◌≤◌, ℕ, Bool, length, IsOk, IfOk};
ghost use Rattle.core_store.specs.Storage.{largest_size};
ghost use Rattle.arith.specs.Operands.{AreCounts};
ghost use Rattle.check_causes.specs.Fields.{place_told, places_told, room_told, three_told, length_told, cut_told, counts_told, counts_apart_told, apart_told, move_length_told};

use crate::causes::Cause;
use arith::Counts;
use core_store::{Core, cut_length, field_length, overlaps};

/// Whether a position is in storage.
#[tactic(auto, unfolding(crate::specs::Fields::place_told))]
pub(crate) fn test_place<C: Core>(core: &C, position: u16) -> Result<(), Cause>
    ensures place { result ≡ place_told (C.cells core.now) position }
    ensures within { IsOk result → (position < length (C.cells core.now))
        × (position < largest_size) }
{
    if position < core.size() {
        Ok(())
    } else {
        Err(Cause::FieldPast(position))
    }
}

/// Whether both positions are in storage.
#[tactic(auto, unfolding(crate::specs::Fields::places_told))]
pub(crate) fn test_places<C: Core>(core: &C, a: u16, b: u16) -> Result<(), Cause>
    ensures places { result ≡ places_told (C.cells core.now) a b }
    ensures a { IsOk result → (a < length (C.cells core.now)) × (a < largest_size) }
    ensures b { IsOk result → (b < length (C.cells core.now)) × (b < largest_size) }
{
    test_place(core, a)?;
    test_place(core, b)
}

/// Whether so many characters can end at a position.
#[tactic(auto, unfolding(crate::specs::Fields::room_told))]
pub(crate) fn test_room(count: u16, position: u16) -> Result<(), Cause>
    requires { position < largest_size }
    ensures room { result ≡ room_told count position }
    ensures within { IsOk result → count ≤ position + 1 }
{
    if count <= position + 1 {
        Ok(())
    } else {
        Err(Cause::TooFew(position))
    }
}

/// Whether three characters of storage can end at a position.
#[tactic(auto, unfolding(crate::specs::Fields::three_told))]
pub(crate) fn test_three<C: Core>(core: &C, position: u16) -> Result<(), Cause>
    ensures three { result ≡ three_told (C.cells core.now) position }
    ensures within { IsOk result → (2 ≤ position) × (position < length (C.cells core.now)) }
{
    test_place(core, position)?;
    test_room(3, position)
}

/// The length of the field at a position, or that it has no mark.
#[tactic(auto, unfolding(crate::specs::Fields::length_told))]
pub(crate) fn known_length<C: Core>(core: &C, position: u16) -> Result<u16, Cause>
    requires within { position < length (C.cells core.now) }
    requires below { position < largest_size }
    ensures length { result ≡ length_told (C.cells core.now) position }
    ensures within { IfOk result (λ count. (1 ≤ count) × (count ≤ position + 1)) }
{
    field_length(core, position).ok_or(Cause::NoFieldMark(position))
}

/// How many characters are read at a position, at most `limit`, or that the field there has no
/// mark.
#[tactic(auto, unfolding(crate::specs::Fields::cut_told))]
pub(crate) fn known_cut<C: Core>(core: &C, position: u16, limit: u16) -> Result<u16, Cause>
    requires within { position < length (C.cells core.now) }
    requires below { position < largest_size }
    requires some { 1 ≤ limit }
    ensures length { result ≡ cut_told (C.cells core.now) position limit }
    ensures within { IfOk result (λ count. (1 ≤ count) × (count ≤ limit)
        × (count ≤ position + 1)) }
{
    cut_length(core, position, limit).ok_or(Cause::NoFieldMark(position))
}

/// The lengths of the field at B and of what is read of the field at A, or why they have none.
#[tactic(auto, unfolding(crate::specs::Fields::counts_told))]
pub(crate) fn counts<C: Core>(core: &C, a: u16, b: u16) -> Result<Counts, Cause>
    ensures counts { result ≡ counts_told (C.cells core.now) a b }
    ensures known { IfOk result (λ counts. AreCounts (C.cells core.now) a b counts.a counts.b) }
{
    test_places(core, a, b)?;
    let b_count = known_length(core, b)?;
    let a_count = known_cut(core, a, b_count)?;
    Ok(Counts {
        a: a_count,
        b: b_count,
    })
}

/// Whether operands are apart.
#[tactic(auto, unfolding(crate::specs::Fields::apart_told))]
pub(crate) fn test_apart(overlap: bool) -> Result<(), Cause>
    ensures { result ≡ apart_told overlap }
{
    if overlap { Err(Cause::Overlap) } else { Ok(()) }
}

/// The same lengths for an operation that writes at B while it reads at A, or why it cannot.
#[tactic(auto, unfolding(crate::specs::Fields::counts_apart_told))]
pub(crate) fn counts_apart<C: Core>(core: &C, a: u16, b: u16) -> Result<Counts, Cause>
    ensures counts { result ≡ counts_apart_told (C.cells core.now) a b }
    ensures known { IfOk result (λ counts. AreCounts (C.cells core.now) a b counts.a counts.b) }
{
    let counts = counts(core, a, b)?;
    test_apart(overlaps(a, b, counts.a))?;
    Ok(counts)
}

/// The length of a move, or that the field at A has no mark.
#[tactic(auto, unfolding(crate::specs::Fields::move_length_told))]
pub(crate) fn move_length<C: Core>(core: &C, a: u16, b: u16) -> Result<u16, Cause>
    requires a_in { a < length (C.cells core.now) }
    requires b_in { b < length (C.cells core.now) }
    requires a_below { a < largest_size }
    requires b_below { b < largest_size }
    ensures { result ≡ move_length_told (C.cells core.now) a b }
{
    moves::move_length(core, a, b).ok_or(Cause::NoFieldMark(a))
}
