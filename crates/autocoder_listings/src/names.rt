//! The names of a source: their addresses, and the cards that use them.

ghost use Rattle.std.specs.{
  Prelude.{◌≡◌, ◌*◌, ◌<◌, ◌≤◌, ◌++◌, ◌∷◌, ◌||◌, [], length, codes, flat_map, IfOk, OnOk},
  List.{items_where_true},
};
ghost use Rattle.cards.specs.Decks.{largest_deck};
ghost use Rattle.autocoder_listings.specs.{
  Rows.{row_of, rows_of},
  Names.{is_name, has_name, uses, users, numbers_of, name_line, users_line, users_lines, lines_of_name, lines_of_defined, heading, table_of_names, users_on_line},
};

use crate::widths::Width;
use autocoder::{push_fillers, push_glyphs, push_line, push_number};
use autocoder_layout::{Definition, Layout, Line, Slot};
use autocoder_statements::{Base, Name, Operand, Statement};
use std::alloc::{AllocError, Global};

/// The width of the part of a line before its cards.
const MARGIN: usize = 12;

/// Whether an address begins with a name.
fn is_name(wanted: &Name, base: Base) -> bool
    ensures { result ≡ is_name wanted.now base }
{
    match base {
        Base::Number(_) => false,
        Base::Name(found) => found == *wanted,
    }
}

/// Whether an operand is an address that begins with a name.
fn has_name(wanted: &Name, operand: &Option<Operand>) -> bool
    ensures { result ≡ has_name wanted.now operand.now }
{
    match operand {
        Some(Operand::Address(address)) => is_name(wanted, address.expression.base),
        _ => false,
    }
}

/// Whether one of two addresses begins with a name.
fn has_either(wanted: &Name, first: &Option<Operand>, second: &Option<Operand>) -> bool
    ensures { result ≡ (has_name wanted.now first.now || has_name wanted.now second.now) }
{
    has_name(wanted, first) || has_name(wanted, second)
}

/// Whether a card uses a name.
#[tactic(auto, unfolding(crate::specs::Names::uses))]
fn uses(wanted: &Name, line: &Line) -> bool
    ensures { result ≡ uses wanted.now line.now }
{
    match line {
        Ok(Statement::Origin(expression)) => is_name(wanted, expression.base),
        Ok(Statement::Equate { expression, .. }) => is_name(wanted, expression.base),
        Ok(
            Statement::End {
                start: Some(expression),
                ..
            },
        ) => is_name(wanted, expression.base),
        Ok(Statement::Instruction { instruction, .. }) => {
            has_either(wanted, &instruction.first, &instruction.second)
        }
        _ => false,
    }
}

/// Adds the number of a card that uses a name.
fn push_user(cards: &mut Vec<u64>, number: u64, is_user: bool) -> Result<(), AllocError>
    ensures { OnOk result (cards.new.items
        ≡ cards.old.items ++ items_where_true (is_user ∷ []) (number ∷ [])) }
{
    if is_user {
        cards.push(number)?;
    }
    Ok(())
}

/// The numbers of the cards that use a name.
fn users(alloc: Global, wanted: &Name, lines: &[Line]) -> Result<Vec<u64>, AllocError>
    requires { length lines.now ≤ largest_deck }
    ensures { IfOk result (λ cards. cards.items ≡ users wanted.now lines.now) }
{
    let mut cards = Vec::new(alloc);
    for i in 0..lines.len() {
        push_user(&mut cards, i as u64 + 1, uses(wanted, &lines[i]))?;
    }
    Ok(cards)
}

/// The number of rows of this length that `count` cards take.
fn rows_of(many: usize, count: usize) -> usize
    requires { 0 < many }
    ensures { result ≡ rows_of many count }
{
    count.div_ceil(many)
}

/// The row with this number.
fn row_of(many: usize, cards: &[u64], number: usize) -> &[u64]
    requires { many * number ≤ length cards.now }
    ensures { result.now ≡ row_of many cards.now number }
{
    let rest = &cards[many * number..];
    &rest[..rest.len().min(many)]
}

/// Adds the numbers of a row.
fn push_numbers(line: &mut Vec<u8>, row: &[u64]) -> Result<(), AllocError>
    ensures { OnOk result (line.new.items ≡ line.old.items ++ numbers_of row.now) }
{
    for card in row {
        push_number(line, b' ', 5, *card)?;
    }
    Ok(())
}

/// The line of a name, with the first row of the cards that use it.
#[tactic(auto, unfolding(crate::specs::Names::name_line))]
fn name_line(
    alloc: Global,
    many: usize,
    definition: &Definition,
    cards: &[u64],
) -> Result<Vec<u8>, AllocError>
    ensures { IfOk result (λ line. line.items ≡ name_line many definition.now cards.now) }
{
    let mut line = Vec::new(alloc);
    push_glyphs(&mut line, &definition.name.characters)?;
    line.push(b' ')?;
    push_number(&mut line, b'0', 5, definition.address as u64)?;
    push_numbers(&mut line, row_of(many, cards, 0))?;
    Ok(line)
}

/// The line of a further row of cards.
#[tactic(auto, unfolding(crate::specs::Names::users_line))]
fn users_line(
    alloc: Global,
    many: usize,
    cards: &[u64],
    number: usize,
) -> Result<Vec<u8>, AllocError>
    requires { many * number ≤ length cards.now }
    ensures { IfOk result (λ line. line.items ≡ users_line many cards.now number) }
{
    let mut line = Vec::new(alloc);
    push_fillers(&mut line, b' ', MARGIN)?;
    push_numbers(&mut line, row_of(many, cards, number))?;
    Ok(line)
}

/// Adds the lines of the rows of cards after the first.
fn push_users_lines(
    alloc: Global,
    text: &mut Vec<u8>,
    many: usize,
    cards: &[u64],
) -> Result<(), AllocError>
    requires { 0 < many }
    ensures { OnOk result (text.new.items ≡ text.old.items ++ users_lines many cards.now) }
{
    for number in 1..rows_of(many, cards.len()) {
        let line = users_line(alloc, many, cards, number)?;
        push_line(text, &line)?;
    }
    Ok(())
}

/// Adds the lines of a name.
#[tactic(auto, unfolding(crate::specs::Names::lines_of_name))]
fn push_name(
    alloc: Global,
    text: &mut Vec<u8>,
    many: usize,
    definition: &Definition,
    cards: &[u64],
) -> Result<(), AllocError>
    requires { 0 < many }
    ensures { OnOk result (text.new.items
        ≡ text.old.items ++ lines_of_name many definition.now cards.now) }
{
    let line = name_line(alloc, many, definition, cards)?;
    push_line(text, &line)?;
    push_users_lines(alloc, text, many, cards)
}

/// How the names of a source are listed: how many users stand on a line, and what its cards say.
#[derive(Clone, Copy)]
struct Table<'a> {
    many: usize,
    lines: &'a [Line],
}

impl Table<'_> {
    /// Adds the lines of the name that a card defines, if it defines one.
    #[tactic(auto, unfolding(crate::specs::Names::lines_of_defined))]
    fn push_defined(&self, alloc: Global, text: &mut Vec<u8>, slot: &Slot) -> Result<(), AllocError>
        requires some { 0 < self.now.many }
        requires deck { length self.now.lines.now ≤ largest_deck }
        ensures { OnOk result (text.new.items ≡ text.old.items
            ++ lines_of_defined self.now.many self.now.lines.now slot.now.defines) }
    {
        let Some(definition) = slot.defines else {
            return Ok(());
        };
        let cards = users(alloc, &definition.name, self.lines)?;
        push_name(alloc, text, self.many, &definition, &cards)
    }

    /// Adds the lines of the names that cards define.
    fn push_all(&self, alloc: Global, text: &mut Vec<u8>, slots: &[Slot]) -> Result<(), AllocError>
        requires some { 0 < self.now.many }
        requires deck { length self.now.lines.now ≤ largest_deck }
        ensures { OnOk result (text.new.items ≡ text.old.items ++ flat_map (λ slot.
            lines_of_defined self.now.many self.now.lines.now slot.defines) slots.now) }
    {
        for slot in slots {
            self.push_defined(alloc, text, slot)?;
        }
        Ok(())
    }
}

/// Adds the table of the names.
#[tactic(auto, unfolding(crate::specs::Names::table_of_names))]
pub(crate) fn push_names(
    alloc: Global,
    text: &mut Vec<u8>,
    width: Width,
    layout: &Layout,
) -> Result<(), AllocError>
    ensures { OnOk result (text.new.items ≡ text.old.items
        ++ table_of_names (users_on_line width) layout.now.source.lines layout.now.slots) }
{
    push_line(text, b"NAME   PLACE CARDS")?;
    let many = width.users_on_line();
    let lines = layout.source().lines();
    let table = Table { many, lines };
    table.push_all(alloc, text, layout.slots())?;
    Ok(())
}
