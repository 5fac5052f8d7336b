//! A position that is filled already: the earlier card that fills it first.

ghost use Rattle.std.specs.Prelude.{◌≡◌, ◌<◌, ◌++◌, ◌&&◌, length, IfSome, OnOk};
ghost use Rattle.autocoder.specs.Listing.{fills};
ghost use Rattle.source_reports.specs.Overlaps.{end_of_fill, first_filler, has_blank, meet, meeting_place, filler_text, filled_hint};

use crate::pieces::push_text;
use autocoder::{fills, push_number};
use autocoder_layout::{Layout, Slot, is_closed};
use std::alloc::AllocError;
use texts::push_number_between;

/// Whether a card is an instruction behind which a marked blank is placed.
fn has_blank(slots: &[Slot], index: usize) -> bool
    requires { index < length slots.now }
    ensures { result ≡ has_blank slots.now index }
{
    slots[index].role.is_instruction() && is_closed(&slots[index + 1..])
}

/// The position behind the last one that an instruction or a constant fills.
fn end_of_fill(slots: &[Slot], index: usize) -> u64
    requires { index < length slots.now }
    ensures { result ≡ end_of_fill slots.now index }
{
    let after = slots[index].after as u64;
    if has_blank(slots, index) {
        after + 1
    } else {
        after
    }
}

/// The first position that two cards fill, if they fill the same one.
fn meeting_place(slots: &[Slot], one: usize, other: usize) -> u32
    requires one { one < length slots.now }
    requires other { other < length slots.now }
    ensures { result ≡ meeting_place slots.now one other }
{
    slots[one].before.max(slots[other].before)
}

/// Whether two cards, each an instruction or a constant, fill the same position.
#[tactic(auto, unfolding(crate::specs::Overlaps::meet))]
fn meet(slots: &[Slot], one: usize, other: usize) -> bool
    requires one { one < length slots.now }
    requires other { other < length slots.now }
    ensures { result ≡ meet slots.now one other }
{
    let end = end_of_fill(slots, one).min(end_of_fill(slots, other));
    both_fill(&slots[one], &slots[other]) && (meeting_place(slots, one, other) as u64) < end
}

/// Whether both of two cards are instructions or constants.
fn both_fill(one: &Slot, other: &Slot) -> bool
    ensures { result ≡ (fills one.now.role && fills other.now.role) }
{
    fills(one.role) && fills(other.role)
}

/// The first of the cards before a card that fills a position of it.
#[tactic(auto, unfolding(crate::specs::Overlaps::first_filler))]
fn first_filler(slots: &[Slot], index: usize) -> Option<usize>
    requires { index < length slots.now }
    ensures first { result ≡ first_filler slots.now index }
    ensures earlier { IfSome result (λ earlier. earlier < index) }
{
    (0..index).find(|earlier| meet(slots, *earlier, index))
}

/// Adds the card that fills a position first, and the position.
fn push_filler(text: &mut Vec<u8>, earlier: usize, position: u32) -> Result<(), AllocError>
    requires { earlier < usize.MAX }
    ensures { OnOk result (text.new.items ≡ text.old.items ++ filler_text earlier position) }
{
    push_number_between(text, b"; card ", earlier + 1, b" fills ")?;
    push_number(text, b'0', 5, position as u64)?;
    push_text(text, " first")
}

/// Adds the earlier card that fills a position of a card first, and the position.
#[tactic(auto, unfolding(crate::specs::Overlaps::filled_hint))]
pub(crate) fn push_filled(
    text: &mut Vec<u8>,
    layout: &Layout,
    index: usize,
) -> Result<(), AllocError>
    ensures { OnOk result (text.new.items ≡ text.old.items ++ filled_hint layout.now index) }
{
    let slots = layout.slots();
    if index >= slots.len() {
        return Ok(());
    }
    match first_filler(slots, index) {
        None => Ok(()),
        Some(earlier) => { push_filler(text, earlier, meeting_place(slots, earlier, index)) }
    }
}
