//! The statement that has an instruction's characters.

ghost use Rattle.std.specs.Prelude.{◌≡◌};
ghost use Rattle.autocoder_statements.specs.Mnemonics.{or_else};
ghost use Rattle.disassembly.specs.Statements.{in_form, in_form_if, in_forms, of_row, of_rows, said, said_before, statement_of};

use crate::parts::{address, is_own_last, last};
use addresses::Tagged;
use autocoder_statements::{MnemonicRow, OperandForm, mnemonic_rows};
use bcd::Code;

/// An instruction of the machine as a statement of Autocoder.
#[derive(Clone, Copy)]
pub struct Statement {
    /// The name of its mnemonic, with blanks after it.
    pub name: [u8; 5],
    /// The first address.
    pub first: Option<Tagged>,
    /// The second address.
    pub second: Option<Tagged>,
    /// The last character, if the mnemonic has none of itself.
    pub last: Option<Code>,
}

/// The statement of a row's mnemonic with these parts.
fn said(
    row: &MnemonicRow,
    first: Option<Tagged>,
    second: Option<Tagged>,
    last: Option<Code>,
) -> Statement
    ensures { result ≡ said row.now first second last }
{
    Statement {
        name: row.0,
        first,
        second,
        last,
    }
}

/// The statement with these addresses, if the rest is the mnemonic's own last character, or
/// nothing.
fn said_before(
    row: &MnemonicRow,
    first: Option<Tagged>,
    second: Option<Tagged>,
    text: &[Code],
) -> Option<Statement>
    ensures { result ≡ said_before row.now first second text.now }
{
    let (_, (_, own, _)) = row;
    if !is_own_last(*own, text) {
        return None;
    }
    Some(said(row, first, second, None))
}

/// The statement of a row's mnemonic that has these characters behind its operation, in a form.
#[tactic(auto, unfolding(crate::specs::Statements::in_form))]
fn in_form(row: &MnemonicRow, form: OperandForm, text: &[Code]) -> Option<Statement>
    ensures { result ≡ in_form row.now form text.now }
{
    match form {
        OperandForm::Empty => said_before(row, None, None, text),
        OperandForm::Modifier(modifiers) => {
            let code = last(modifiers, text)?;
            Some(said(row, None, None, Some(code)))
        }
        OperandForm::One(_) => {
            let first = address(text)?;
            said_before(row, Some(first), None, &text[3..])
        }
        OperandForm::OneAndModifier(_, modifiers) => {
            let first = address(text)?;
            let code = last(modifiers, &text[3..])?;
            Some(said(row, Some(first), None, Some(code)))
        }
        OperandForm::Two(_, _) => {
            let first = address(text)?;
            let rest = &text[3..];
            let second = address(rest)?;
            said_before(row, Some(first), Some(second), &rest[3..])
        }
        OperandForm::TwoAndModifier(_, _, modifiers) => {
            let first = address(text)?;
            let rest = &text[3..];
            let second = address(rest)?;
            let code = last(modifiers, &rest[3..])?;
            Some(said(row, Some(first), Some(second), Some(code)))
        }
    }
}

/// The statement in a form, if there is a form.
fn in_form_if(row: &MnemonicRow, form: Option<OperandForm>, text: &[Code]) -> Option<Statement>
    ensures { result ≡ in_form_if row.now form text.now }
{
    in_form(row, form?, text)
}

/// The statement in one of the forms of a row's mnemonic.
#[tactic(auto, unfolding(crate::specs::Statements::in_forms))]
fn in_forms(row: &MnemonicRow, text: &[Code]) -> Option<Statement>
    ensures { result ≡ in_forms row.now text.now }
{
    let (_, (_, _, forms)) = row;
    if let Some(statement) = in_form(row, forms.form, text) {
        return Some(statement);
    }
    if let Some(statement) = in_form_if(row, forms.other, text) {
        return Some(statement);
    }
    in_form_if(row, forms.third, text)
}

/// The statement of a row's mnemonic that has these characters.
#[tactic(auto, unfolding(crate::specs::Statements::of_row))]
fn of_row(row: &MnemonicRow, word: &[Code]) -> Option<Statement>
    ensures { result ≡ of_row row.now word.now }
{
    let [code, text @ ..] = word else {
        return None;
    };
    let (_, (operation, _, _)) = row;
    if code.glyph() != *operation {
        return None;
    }
    in_forms(row, text)
}

/// What a later row has, or else what an earlier one has.
fn later_or(later: Option<Statement>, earlier: Option<Statement>) -> Option<Statement>
    ensures { result ≡ or_else later earlier }
{
    if later.is_some() { later } else { earlier }
}

/// The statement of the last of these rows that has one with these characters.
#[tactic(auto, unfolding(crate::specs::Statements::of_rows))]
fn of_rows(rows: &[MnemonicRow], word: &[Code]) -> Option<Statement>
    ensures { result ≡ of_rows rows.now word.now }
{
    let mut found = None;
    for row in rows {
        found = later_or(of_row(row, word), found);
    }
    found
}

/// Returns the statement of Autocoder that has the characters of an instruction, if there is one:
/// the assembler makes just these of it. A mnemonic with a last character of its own comes before
/// one that takes it.
#[tactic(auto, unfolding(crate::specs::Statements::statement_of))]
pub fn statement_of(word: &[Code]) -> Option<Statement>
    ensures { result ≡ statement_of word.now }
{
    of_rows(mnemonic_rows(), word)
}
