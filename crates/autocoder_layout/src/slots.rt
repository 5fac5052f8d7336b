//! The slot of a card: its place, its label and its fault.

ghost use Rattle.std.specs.Prelude.{◌≡◌, ◌+◌, ◌≤◌, ◌<◌, [], length, reverse, find, option_copied, IfOk};
ghost use Rattle.cards.specs.Decks.{largest_deck};
ghost use Rattle.core_store.specs.Storage.{positions_of};
ghost use Rattle.autocoder_layout.specs.{
  Bounds.{IsWithin, farthest, last_place},
  Source.{IsInRange},
};
ghost use Rattle.autocoder_statements.specs.Ranges.{IsExpressionInRange};
ghost use Rattle.autocoder_layout.specs.Slots.{place_after, is_nothing, is_instruction, has_place, is_open, is_closed, place_after_blank, stays, takes, with_label, with_any_label, moved_to, equal_to, has_start, end_fault, end_slot, run, constant, area, instruction, equate_slot, slot_of, slots_from};

use crate::faults::SourceFault;
use crate::names::{Value, address_of, value_in};
use crate::source::{Line, Source};
use autocoder_statements::{Expression, Name, Statement, StatementFault};
use std::alloc::{AllocError, Global};

/// The place of the first card.
pub const FIRST_PLACE: u32 = 333;

/// A name and its address.
#[derive(Clone, Copy)]
pub struct Definition {
    pub name: Name,
    /// The address, which may be outside the storage.
    pub address: u32,
}

/// What a card does at its place.
#[derive(Clone, Copy, Debug, PartialEq, Eq)]
pub enum Role {
    /// Nothing, and it has no place: a comment, or a card that counts as one.
    Nothing,
    /// It fills positions with an instruction.
    Instruction,
    /// It fills positions with a constant.
    Constant,
    /// It passes positions without filling them, or moves the place, or ends the source.
    Passing,
}

/// The place of a card and what it defines, or the fault for which it does neither.
#[derive(Clone, Copy)]
pub struct Slot {
    /// The card's first position.
    pub before: u32,
    /// The position after the card's last.
    pub after: u32,
    /// The name that its label defines, if it has one.
    pub defines: Option<Definition>,
    pub fault: Option<SourceFault>,
    pub role: Role,
    /// Whether the card ends an instruction before it; then a marked blank is placed after that
    /// instruction.
    pub closes: bool,
}

impl Role {
    /// Whether a card of this role has no place.
    fn is_nothing(self) -> bool
        ensures { result ≡ is_nothing self }
    {
        match self {
            Role::Nothing => true,
            _ => false,
        }
    }

    /// Whether the card is an instruction.
    pub fn is_instruction(self) -> bool
        ensures { result ≡ is_instruction self }
    {
        match self {
            Role::Instruction => true,
            _ => false,
        }
    }
}

impl Slot {
    /// Whether the card has a place.
    fn has_place(&self) -> bool
        ensures { result ≡ has_place self.now }
    {
        !self.role.is_nothing()
    }
}

/// The place after the cards so far.
pub fn place_after(slots: &[Slot]) -> u32
    ensures { result ≡ place_after slots.now }
{
    if slots.is_empty() {
        return FIRST_PLACE;
    }
    slots[slots.len() - 1].after
}

/// The last card that has a place.
fn last_with_place(slots: &[Slot]) -> Option<&Slot>
    ensures { option_copied result ≡ find has_place (reverse slots.now) }
{
    slots.iter().rev().find(|slot| slot.has_place())
}

/// The first card that has a place.
fn first_with_place(slots: &[Slot]) -> Option<&Slot>
    ensures { option_copied result ≡ find has_place slots.now }
{
    slots.iter().find(|slot| slot.has_place())
}

/// Whether the last card that has a place is an instruction.
#[tactic(auto, unfolding(crate::specs::Slots::is_open))]
fn is_open(earlier: &[Slot]) -> bool
    ensures { result ≡ is_open earlier.now }
{
    let Some(slot) = last_with_place(earlier) else {
        return false;
    };
    slot.role.is_instruction()
}

/// Whether the next card that has a place ends an instruction before it.
#[tactic(auto, unfolding(crate::specs::Slots::is_closed))]
pub fn is_closed(later: &[Slot]) -> bool
    ensures { result ≡ is_closed later.now }
{
    let Some(slot) = first_with_place(later) else {
        return false;
    };
    slot.closes
}

/// The first instruction.
pub fn first_instruction(slots: &[Slot]) -> Option<&Slot>
    ensures { option_copied result ≡ find (λ slot. is_instruction slot.role) slots.now }
{
    slots.iter().find(|slot| slot.role.is_instruction())
}

/// The place of a card that ends an instruction before it.
#[tactic(auto, unfolding(crate::specs::Slots::place_after_blank))]
fn place_after_blank(earlier: &[Slot]) -> u32
    requires { place_after earlier.now < farthest }
    ensures place { result ≡ place_after_blank earlier.now }
    ensures limit { result ≤ place_after earlier.now + 1 }
{
    if is_open(earlier) {
        place_after(earlier) + 1
    } else {
        place_after(earlier)
    }
}

/// The slot of a card that places and defines nothing.
fn stays(earlier: &[Slot], fault: Option<SourceFault>) -> Slot
    ensures { result ≡ stays earlier.now fault }
{
    let place = place_after(earlier);
    Slot {
        before: place,
        after: place,
        defines: None,
        fault,
        role: Role::Nothing,
        closes: false,
    }
}

/// The slot of a card that takes the positions from `before` up to but not including `after`.
fn takes(role: Role, closes: bool, before: u32, after: u32) -> Slot
    ensures { result ≡ takes role closes before after }
{
    Slot {
        before,
        after,
        defines: None,
        fault: None,
        role,
        closes,
    }
}

impl Slot {
    /// The same slot with a label.
    fn with_label(&self, name: Name, address: u32) -> Slot
        ensures { result ≡ with_label self.now name address }
    {
        Slot {
            before: self.before,
            after: self.after,
            defines: Some(Definition { name, address }),
            fault: self.fault,
            role: self.role,
            closes: self.closes,
        }
    }

    /// The slot with the card's label, if it has one, which no earlier card may define.
    #[tactic(auto, unfolding(crate::specs::Slots::with_any_label))]
    fn with_any_label(&self, earlier: &[Slot], label: Option<Name>, address: u32) -> Slot
        ensures { result ≡ with_any_label earlier.now label address self.now }
    {
        let Some(name) = label else {
            return *self;
        };
        if address_of(earlier, &name).is_some() {
            return stays(earlier, Some(SourceFault::TakenLabel));
        }
        self.with_label(name, address)
    }
}

/// The slot of a card that moves the place to a position.
fn moved_to(earlier: &[Slot], value: Value) -> Slot
    requires { place_after earlier.now < farthest }
    ensures { result ≡ moved_to earlier.now value }
{
    match value {
        Value::Unknown => stays(earlier, Some(SourceFault::UnknownName)),
        Value::Outside => stays(earlier, Some(SourceFault::Outside)),
        Value::At(position) => takes(
            Role::Passing,
            is_open(earlier),
            place_after_blank(earlier),
            position as u32,
        ),
    }
}

/// The slot of a card that gives a name an address.
fn equal_to(earlier: &[Slot], name: Name, value: Value) -> Slot
    ensures { result ≡ equal_to earlier.now name value }
{
    match value {
        Value::Unknown => stays(earlier, Some(SourceFault::UnknownName)),
        Value::Outside => stays(earlier, Some(SourceFault::Outside)),
        Value::At(position) => stays(earlier, None).with_label(name, position as u32),
    }
}

/// Whether the program has a start: an address, or else its first instruction.
fn has_start(earlier: &[Slot], start: Option<Expression>) -> bool
    ensures { result ≡ has_start earlier.now start }
{
    match start {
        Some(_) => true,
        None => first_instruction(earlier).is_some(),
    }
}

/// The fault of an `END`, if its program has no start or if it has a label.
fn end_fault(earlier: &[Slot], start: Option<Expression>, labelled: bool) -> Option<StatementFault>
    ensures { result ≡ end_fault earlier.now start labelled }
{
    if !has_start(earlier, start) {
        return Some(StatementFault::Operand);
    }
    if labelled {
        return Some(StatementFault::Label);
    }
    None
}

/// The slot of a card that ends the source.
fn end_slot(earlier: &[Slot], start: Option<Expression>, labelled: bool) -> Slot
    requires { place_after earlier.now < farthest }
    ensures { result ≡ end_slot earlier.now start labelled }
{
    if let Some(fault) = end_fault(earlier, start, labelled) {
        return stays(earlier, Some(SourceFault::Statement(fault)));
    }
    let place = place_after_blank(earlier);
    takes(Role::Passing, is_open(earlier), place, place)
}

/// The slot of a card that takes `count` positions from a place on. Its label is the last of them.
fn run(
    earlier: &[Slot],
    label: Option<Name>,
    role: Role,
    closes: bool,
    place: u32,
    count: u32,
) -> Slot
    requires some { 0 < count }
    requires limit { place + count ≤ farthest }
    ensures { result ≡ run earlier.now label role closes place count }
{
    takes(role, closes, place, place + count).with_any_label(earlier, label, place + count - 1)
}

/// The slot of a constant. One without a mark ends an instruction before it.
fn constant(earlier: &[Slot], label: Option<Name>, marked: bool, count: u32) -> Slot
    requires some { 0 < count }
    requires limit { place_after earlier.now + 1 + count ≤ farthest }
    ensures { result ≡ constant earlier.now label marked count }
{
    if marked {
        let place = place_after(earlier);
        run(earlier, label, Role::Constant, false, place, count)
    } else {
        let place = place_after_blank(earlier);
        run(
            earlier,
            label,
            Role::Constant,
            is_open(earlier),
            place,
            count,
        )
    }
}

/// The slot of a card that passes positions.
fn area(earlier: &[Slot], label: Option<Name>, count: u32) -> Slot
    requires some { 0 < count }
    requires limit { place_after earlier.now + 1 + count ≤ farthest }
    ensures { result ≡ area earlier.now label count }
{
    let place = place_after_blank(earlier);
    run(
        earlier,
        label,
        Role::Passing,
        is_open(earlier),
        place,
        count,
    )
}

/// The slot of an instruction. Its label is its first position.
fn instruction(earlier: &[Slot], label: Option<Name>, count: u16) -> Slot
    requires { place_after earlier.now + count ≤ farthest }
    ensures { result ≡ instruction earlier.now label count }
{
    let place = place_after(earlier);
    takes(Role::Instruction, false, place, place + count as u32).with_any_label(
        earlier, label, place,
    )
}

/// The slot of a card that equates a name with an expression.
fn equate_slot(size: u16, earlier: &[Slot], label: Name, expression: Expression) -> Slot
    requires names { IsWithin farthest earlier.now }
    requires range { IsExpressionInRange expression }
    ensures { result ≡ equate_slot size earlier.now label expression }
{
    if address_of(earlier, &label).is_some() {
        return stays(earlier, Some(SourceFault::TakenLabel));
    }
    equal_to(earlier, label, value_in(size, earlier, expression))
}

/// The slot of a card, given the slots of the earlier cards. No name of a later card counts.
#[tactic(auto, unfolding(crate::specs::Slots::slot_of), using(crate::proofs::SlotBounds::constant_length_in_range))]
fn slot_of(size: u16, earlier: &[Slot], line: Line) -> Slot
    requires names { IsWithin farthest earlier.now }
    requires place { place_after earlier.now ≤ last_place }
    requires range { IsInRange line }
    ensures { result ≡ slot_of size earlier.now line }
{
    let statement = match line {
        Ok(statement) => statement,
        Err(fault) => return stays(earlier, Some(SourceFault::Statement(fault))),
    };
    match statement {
        Statement::Comment => stays(earlier, None),
        Statement::Job => stays(earlier, None),
        Statement::Control(_) => stays(earlier, None),
        Statement::Origin(expression) => moved_to(earlier, value_in(size, earlier, expression)),
        Statement::Equate { label, expression } => equate_slot(size, earlier, label, expression),
        Statement::Constant {
            label,
            marked,
            constant: text,
        } => constant(earlier, label, marked, text.length()),
        Statement::Area { label, positions } => area(earlier, label, positions),
        Statement::End { start, labelled } => end_slot(earlier, start, labelled),
        Statement::Instruction {
            label,
            instruction: spelled,
        } => instruction(earlier, label, spelled.length()),
    }
}

/// Returns the slot of each card of a source. Fails only if there is no memory.
pub(crate) fn lay_out(alloc: Global, source: &Source) -> Result<Vec<Slot>, AllocError>
    ensures slots { IfOk result (λ slots.
        slots.items ≡ slots_from (positions_of source.now.size) [] source.now.lines) }
    ensures within { IfOk result (λ slots. IsWithin farthest slots.items) }
    ensures count { IfOk result (λ slots. length slots.items ≡ length source.now.lines) }
    ensures few { IfOk result (λ slots. length slots.items ≤ largest_deck) }
    ensures place { IfOk result (λ slots. place_after slots.items ≤ farthest) }
{
    let size = source.size().positions();
    let mut slots = Vec::new(alloc);
    for line in source.lines() {
        let slot = slot_of(size, &slots, *line);
        slots.push(slot)?;
    }
    Ok(slots)
}
