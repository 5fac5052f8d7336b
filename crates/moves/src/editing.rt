//! Data edited by a control field.

ghost use Rattle.std.specs.Prelude.{◌≡◌, ◌+◌, ◌-◌, ◌<◌, ◌≤◌, ℕ, List, Bool, true, false, length, max, min, slice_index, Some, IfSome, Ok};
ghost use Rattle.core_store.specs.{
  Doing.{Does, DoesAtOrLeaves, DoesOrLeaves},
  Storage.{codes_ending, field_length, put_codes, largest_size},
  Operands.{cut_length, AreClear},
};
ghost use Rattle.moves.specs.{
  Blanked.{ends, leading, blanked},
  Characters.{bare_units},
  declared.blanking.Stop.TheVariants.{Digit},
  Stretches.{AreIn, IsIn},
  Edited.{edited, is_minus, is_place, is_sharing, places, field_edited, IsShown},
};

use crate::blanking::{Stop, blank_near, blank_start};
use crate::control::edit_codes;
use crate::filling::{data_count, fill};
use crate::lanes;
use crate::near::put_last;
use core_store::{
    Check, Core, Registers, are_clear, check_inside, cut_length, field_length, is_minus,
};

/// The number of data characters at A and of control characters at B.
#[derive(Clone, Copy, Debug, PartialEq, Eq)]
struct Counts {
    a: u16,
    b: u16,
}

/// Whether two ranges of positions, which end at A and at B, have one in common.
#[inline(always)]
pub fn shares(a: u16, a_count: u16, b: u16, b_count: u16) -> bool
    requires a { a < largest_size }
    requires b { b < largest_size }
    requires a_count { a_count ≤ largest_size }
    requires b_count { b_count ≤ largest_size }
    ensures { result ≡ is_sharing a a_count b b_count }
{
    a < b + a_count && b < a + b_count
}

/// Makes zeros and commas of a control field blank from the left, among its first `through`
/// characters, up to a digit from 1 to 9.
#[inline(always)]
#[tactic(auto, using(crate::proofs::FillingLemmas::ending_is_from))]
fn blank_left<C: Core>(core: &mut C, b: u16, count: u16, through: u16)
    requires stretch { IsIn (C.cells core.old) b count }
    requires limit { through ≤ count }
    ensures codes { C.cells core.new ≡ put_codes (C.cells core.old) (b + 1 - count)
        (blanked (min through (leading (ends Digit) (codes_ending (C.cells core.old) b count)))
        (codes_ending (C.cells core.old) b count)) }
    ensures size { length (C.cells core.new) ≡ length (C.cells core.old) }
{
    if b >= 15 && count <= 16 {
        blank_near(core, b, count, through, Stop::Digit);
    } else {
        blank_start(core, b + 1 - count, count, through, Stop::Digit);
    }
}

/// Puts the data into the control field, and makes what is to the left of the number blank.
#[inline(always)]
#[tactic(auto, using(crate::proofs::FillingLemmas::all_edited))]
fn fill_blanked<C: Core>(core: &mut C, a: u16, a_count: u16, b: u16, b_count: u16)
    requires stretches { AreIn (C.cells core.old) a b a_count b_count }
    requires a_some { 1 ≤ a_count }
    requires below { b < largest_size }
    requires apart { is_sharing a a_count b b_count ≡ false }
    ensures codes { C.cells core.new ≡ put_codes (C.cells core.old) (b + 1 - b_count)
        (edited (codes_ending (C.cells core.old) b b_count)
        (bare_units (codes_ending (C.cells core.old) a a_count))
        (is_minus (codes_ending (C.cells core.old) a a_count))) }
    ensures size { length (C.cells core.new) ≡ length (C.cells core.old) }
{
    let through = fill(core, a, a_count, b, b_count);
    blank_left(core, b, b_count, through);
}

/// The counts of an edit, if the control field has at most sixteen characters and no data are in
/// it. `None` says nothing about the fields.
#[inline(always)]
fn clear_counts<C: Core>(core: &C, a: u16, b: u16) -> Option<Counts>
    requires { AreClear (C.cells core.now) a b }
    ensures control { IfSome result (λ counts.
        field_length (C.cells core.now) b ≡ Some counts.b) }
    ensures cut { IfSome result (λ counts. cut_length (C.cells core.now) a
        (max 1 (places (codes_ending (C.cells core.now) b counts.b))) ≡ Some counts.a) }
    ensures some { IfSome result (λ counts. (1 ≤ counts.a) × (1 ≤ counts.b)) }
    ensures most { IfSome result (λ counts. (counts.a ≤ 16) × (counts.b ≤ 16)) }
    ensures apart { IfSome result (λ counts. is_sharing a counts.a b counts.b ≡ false) }
{
    let b_count = core.near_length(b);
    if b_count > 16 {
        return None;
    }
    let a_count = core.near_length(a).min(data_count(core, b, b_count));
    if shares(a, a_count, b, b_count) {
        return None;
    }
    Some(Counts {
        a: a_count,
        b: b_count,
    })
}

/// Puts the data into the control field as `fill_blanked` does, all at once.
#[inline(always)]
#[tactic(auto, using(crate::proofs::LaneLemmas::near_long))]
fn fill_near<C: Core>(core: &mut C, a: u16, a_count: u16, b: u16, b_count: u16)
    requires a_in { a < length (C.cells core.old) }
    requires b_in { b < length (C.cells core.old) }
    requires a_room { 15 ≤ a }
    requires b_room { 15 ≤ b }
    requires a_some { 1 ≤ a_count }
    requires a_most { a_count ≤ 16 }
    requires b_most { b_count ≤ 16 }
    ensures codes { C.cells core.new ≡ put_codes (C.cells core.old) (b + 1 - b_count)
        (edited (codes_ending (C.cells core.old) b b_count)
        (bare_units (codes_ending (C.cells core.old) a a_count))
        (is_minus (codes_ending (C.cells core.old) a a_count))) }
    ensures size { length (C.cells core.new) ≡ length (C.cells core.old) }
{
    let control = core.near_codes(b);
    let amount = lanes::bare_units(core.near_codes(a));
    let minus = is_minus(core, a);
    put_last(
        core,
        b,
        b_count,
        edit_codes(control, b_count, amount, a_count, minus),
    );
}

/// Edits as `edit` does, all at once, fields that end at A and B, clear of position 000, where the
/// control field has at most sixteen characters and no data are in it. Returns whether it did; if
/// not, nothing is changed.
#[inline(never)]
pub fn edit_clear<C: Core>(core: &mut C, registers: &mut Registers, a: u16, b: u16) -> bool
    requires { AreClear (C.cells core.old) a b }
    ensures { DoesAtOrLeaves result (C.cells core.old) registers.old a b
        (C.cells core.new) registers.new field_edited }
{
    let Some(counts) = clear_counts(core, a, b) else {
        return false;
    };
    fill_near(core, a, counts.a, b, counts.b);
    core.clear_mark(b + 1 - counts.b);
    registers.pass(a, counts.a, b, counts.b);
    true
}

/// Edits so if the fields at registers A and B are clear of position 000.
#[inline(always)]
fn edit_near<C: Core>(core: &mut C, registers: &mut Registers) -> bool
    ensures { DoesOrLeaves result (C.cells core.old) registers.old
        (C.cells core.new) registers.new field_edited }
{
    let Registers { a, b, .. } = *registers;
    if !are_clear(core, a, b) {
        return false;
    }
    edit_clear(core, registers, a, b)
}

/// Edits the data at A by the control field at B. Check ADDRESS if A or B is outside the storage or
/// a field would pass position 000, check OVERLAP if data and control field share a position.
#[inline(never)]
pub fn edit<C: Core>(core: &mut C, registers: &mut Registers) -> Result<(), Check>
    ensures { Does result (C.cells core.old) registers.old
        (C.cells core.new) registers.new field_edited }
{
    if edit_near(core, registers) {
        return Ok(());
    }
    edit_far(core, registers)
}

/// Edits as `edit` does, character by character.
#[inline(never)]
#[tactic(auto, unfolding(crate::specs::Edited::field_edited))]
fn edit_far<C: Core>(core: &mut C, registers: &mut Registers) -> Result<(), Check>
    ensures { Does result (C.cells core.old) registers.old
        (C.cells core.new) registers.new field_edited }
{
    let Registers { a, b, .. } = *registers;
    check_inside(core, a, b)?;
    let b_count = field_length(core, b).ok_or(Check::Address)?;
    let a_count = cut_length(core, a, data_count(core, b, b_count)).ok_or(Check::Address)?;
    if shares(a, a_count, b, b_count) {
        return Err(Check::Overlap);
    }
    fill_blanked(core, a, a_count, b, b_count);
    core.clear_mark(b + 1 - b_count);
    registers.lower(a_count, b_count);
    Ok(())
}

/// The law of editing: before zeros and commas are made blank, the digit places of the control
/// field hold the data from the right. The units are without zone, and the places left over are
/// blank.
pub fn edited_shows_the_data()
    ensures { (control amount : List ℕ) (minus : Bool) (place : ℕ) → place < length control →
        is_place (slice_index control place) ≡ true → IsShown control amount minus place }
{}
