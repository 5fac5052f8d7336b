//! The number of characters that arithmetic reads.

ghost use Rattle.std.specs.Prelude.{◌≡◌, ◌≤◌, ℕ, false, IfOk, IfSome, Ok};
ghost use Rattle.core_store.specs.{Storage.{Storage}, Operands.{is_overlapping, AreClear}};
ghost use Rattle.arith.specs.Operands.{counts_at, counts_apart, AreCounts, AreOfFields};

use core_store::{Check, Core, check_inside, cut_length, field_length, overlaps};

/// The number of characters read at A and at B.
#[derive(Clone, Copy, Debug, PartialEq, Eq)]
pub struct Counts {
    pub a: u16,
    pub b: u16,
}

/// The number of characters in the cut at A and in the field at B. Fails with check ADDRESS if one
/// of them is outside the storage or would pass position 000.
#[tactic(auto, unfolding(crate::specs::Operands::counts_at))]
pub fn counts_at<C: Core>(core: &C, a: u16, b: u16) -> Result<Counts, Check>
    ensures counts { result ≡ counts_at (C.cells core.now) a b }
    ensures known { IfOk result (λ counts. AreCounts (C.cells core.now) a b counts.a counts.b) }
{
    check_inside(core, a, b)?;
    let b_count = field_length(core, b).ok_or(Check::Address)?;
    let a_count = cut_length(core, a, b_count).ok_or(Check::Address)?;
    Ok(Counts {
        a: a_count,
        b: b_count,
    })
}

/// The same for an operation that writes to the field at B while it reads at A. Fails with check
/// OVERLAP if it would overwrite characters of A before they are read.
#[tactic(auto, unfolding(crate::specs::Operands::counts_apart))]
pub fn counts_apart<C: Core>(core: &C, a: u16, b: u16) -> Result<Counts, Check>
    ensures counts { result ≡ counts_apart (C.cells core.now) a b }
    ensures known { IfOk result (λ counts. AreCounts (C.cells core.now) a b counts.a counts.b) }
    ensures apart { IfOk result (λ counts. is_overlapping a b counts.a ≡ false) }
{
    let counts = counts_at(core, a, b)?;
    if overlaps(a, b, counts.a) {
        return Err(Check::Overlap);
    }
    Ok(counts)
}

/// The same counts, of fields clear of position 000, if the B field has at most sixteen characters.
/// `None` says nothing about the fields.
#[inline(always)]
#[tactic(auto, unfolding(crate::specs::Operands::counts_at))]
pub fn clear_counts<C: Core>(core: &C, a: u16, b: u16) -> Option<Counts>
    requires { AreClear (C.cells core.now) a b }
    ensures counts { IfSome result (λ counts. counts_at (C.cells core.now) a b ≡ Ok counts) }
    ensures known { IfSome result (λ counts. AreCounts (C.cells core.now) a b counts.a counts.b) }
    ensures few { IfSome result (λ counts. counts.b ≤ 16) }
{
    let b_count = core.near_length(b);
    if b_count > 16 {
        return None;
    }
    Some(Counts {
        a: core.near_length(a).min(b_count),
        b: b_count,
    })
}

/// The same, for an operation that writes to the field at B while it reads at A, where it
/// overwrites no character of A before it is read. `None` says nothing about the fields.
#[inline(always)]
pub fn clear_counts_apart<C: Core>(core: &C, a: u16, b: u16) -> Option<Counts>
    requires { AreClear (C.cells core.now) a b }
    ensures counts { IfSome result (λ counts. counts_at (C.cells core.now) a b ≡ Ok counts) }
    ensures known { IfSome result (λ counts. AreCounts (C.cells core.now) a b counts.a counts.b) }
    ensures room { IfSome result (λ counts. (15 ≤ a) × (15 ≤ b) × (counts.b ≤ 16)) }
    ensures apart { IfSome result (λ counts. is_overlapping a b counts.a ≡ false) }
{
    let counts = clear_counts(core, a, b)?;
    if overlaps(a, b, counts.a) {
        return None;
    }
    Some(counts)
}

/// The law of the counts: what is read at B is the field there, and what is read at A is the cut
/// there to the length of that field.
pub fn counts_are_of_fields()
    ensures { (s : Storage) (a b : ℕ) (counts : Counts) → counts_at s a b ≡ Ok counts →
        AreOfFields s a b counts }
{}
