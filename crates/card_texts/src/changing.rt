//! What was done to the lines of a text that are taken as cards.

ghost use Rattle.std.specs.Prelude.{◌≡◌, ◌++◌, IfOk, OnOk};
ghost use Rattle.card_forms.specs.Signs.{is_small};
ghost use Rattle.card_texts.specs.{
  Changes.{change_of, changes_in, changes_of, folds_any, has_small, tabs_spread},
  Columns.{columns_from, filled_up},
};

use crate::columns::{COLUMNS, spread};
use crate::lines::{body, split_line};
use crate::punching::{Line, are_blanks, is_passed_over};
use crate::rules::{Rules, Signs};
use std::alloc::{AllocError, Global};

/// What was done to a line that is taken as a card.
#[derive(Clone, Copy)]
pub struct Change {
    /// The line, from 1.
    pub line: usize,
    /// How many tabs went on at a column.
    pub tabs: usize,
    /// Whether small letters became capitals.
    pub folded: bool,
    /// Whether it was filled up with blanks, since it has fewer than 80 columns.
    pub filled: bool,
    /// Whether its card is blank.
    pub blank: bool,
}

/// Whether a byte is a small letter.
fn is_small(byte: u8) -> bool
    ensures { result ≡ is_small byte }
{
    byte.is_ascii_lowercase()
}

impl Rules {
    /// Whether small letters are capitals by the rules.
    fn folds_any(&self) -> bool
        ensures { result ≡ folds_any self.now }
    {
        match self.signs {
            Signs::Simh => true,
            Signs::Bureau => self.folds,
        }
    }

    /// How many bytes of a line are tabs that go on at a column.
    fn tabs_in(&self, line: &[u8]) -> usize
        ensures { result ≡ tabs_spread self.now line.now }
    {
        line.iter().filter(|&&byte| self.is_spread(byte)).count()
    }
}

/// Whether a line has small letters.
fn has_small(line: &[u8]) -> bool
    ensures { result ≡ has_small line.now }
{
    line.iter().any(|&byte| is_small(byte))
}

/// What was done to a line that was looked at, given its columns.
fn change_of(rules: &Rules, number: usize, bytes: &[u8], line: &Line, columns: &[u8]) -> Change
    requires card { line.now.columns.items ≡ filled_up rules.now bytes.now }
    requires columns { columns.now ≡ columns_from rules.now 0 bytes.now }
    ensures { result ≡ change_of rules.now number bytes.now }
{
    Change {
        line: number,
        tabs: rules.tabs_in(bytes),
        folded: rules.folds_any() && has_small(bytes),
        filled: columns.len() < COLUMNS,
        blank: are_blanks(&line.columns),
    }
}

/// Adds what was done to a line, unless it is passed over.
fn push_change(
    changes: &mut Vec<Change>,
    rules: &Rules,
    number: usize,
    bytes: &[u8],
    line: &mut Line,
    columns: &mut Vec<u8>,
) -> Result<(), AllocError>
    ensures { OnOk result (changes.new.items
        ≡ changes.old.items ++ changes_in rules.now number bytes.now) }
{
    line.look(rules, number, bytes)?;
    if is_passed_over(rules, line) {
        return Ok(());
    }
    spread(columns, rules, bytes)?;
    changes.push(change_of(rules, number, bytes, line, columns))?;
    Ok(())
}

/// Returns what was done to each line of a text that is taken as a card by the rules, in the order
/// of the lines. Fails only if there is no memory.
pub fn changes(alloc: Global, rules: &Rules, text: &[u8]) -> Result<Vec<Change>, AllocError>
    ensures { IfOk result (λ changes. changes.items ≡ changes_of rules.now text.now) }
{
    let mut changes = Vec::new(alloc);
    let mut line = Line::empty(alloc);
    let mut columns = Vec::new(alloc);
    let mut number = 1;
    let mut rest = body(text);
    while !rest.is_empty() {
        let (first, behind) = split_line(rest);
        push_change(&mut changes, rules, number, first, &mut line, &mut columns)?;
        rest = behind;
        number += 1;
    }
    Ok(changes)
}
