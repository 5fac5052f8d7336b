//! What the operand field of an operation should be, in the letters of the manual: a and b fields,
//! i an address to branch to, d a character.

ghost use Rattle.std.specs.Prelude.{◌≡◌, ◌<◌, ◌++◌, OnOk};
ghost use Rattle.source_reports.specs.ExpectedOperands.{glyph_if_taken, taken_glyphs, choice_text, letter_of, form_text, or_form_text, alone_by, forms_text, expected_text};

use crate::pieces::push_text;
use autocoder_statements::{Modifiers, OperandForm, OperandForms, OperandKind, Operation};
use bcd::Code;
use std::alloc::AllocError;

/// How many characters there are.
const CHARACTERS: u8 = 64;

/// Adds the glyph of the character of this number, if it may be the last of an instruction.
fn push_if_taken(text: &mut Vec<u8>, modifiers: Modifiers, number: u8) -> Result<(), AllocError>
    requires { number < 64 }
    ensures { OnOk result (text.new.items ≡ text.old.items ++ glyph_if_taken modifiers number) }
{
    let Some(code) = Code::from_number(number) else {
        return Ok(());
    };
    if !modifiers.has(code) {
        return Ok(());
    }
    text.push(code.glyph())?;
    Ok(())
}

/// Adds the glyphs of all characters that may be the last of an instruction.
fn push_taken_glyphs(text: &mut Vec<u8>, modifiers: Modifiers) -> Result<(), AllocError>
    ensures { OnOk result (text.new.items ≡ text.old.items ++ taken_glyphs modifiers) }
{
    for number in 0..CHARACTERS {
        push_if_taken(text, modifiers, number)?;
    }
    Ok(())
}

/// Adds some words and the characters that d may be, if it may not be each.
fn push_choice(text: &mut Vec<u8>, words: &str, modifiers: Modifiers) -> Result<(), AllocError>
    ensures { OnOk result (text.new.items ≡ text.old.items ++ choice_text words.now modifiers) }
{
    if matches!(modifiers, Modifiers::Any) {
        return Ok(());
    }
    push_text(text, words)?;
    push_taken_glyphs(text, modifiers)
}

/// Adds letters that end in d, and the characters that d may be.
fn push_with_choice(
    text: &mut Vec<u8>,
    letters: &str,
    words: &str,
    modifiers: Modifiers,
) -> Result<(), AllocError>
    ensures { OnOk result (text.new.items
        ≡ text.old.items ++ (letters.now ++ choice_text words.now modifiers)) }
{
    push_text(text, letters)?;
    push_choice(text, words, modifiers)
}

/// The letter of the first operand.
fn letter_of(field: &'static str, kind: OperandKind) -> &'static str
    ensures { result.now ≡ letter_of field.now kind }
{
    match kind {
        OperandKind::Branch => "i",
        OperandKind::Field => field,
    }
}

/// Adds a form in letters, where a field that stands alone has this letter.
#[tactic(auto, unfolding(crate::specs::ExpectedOperands::form_text))]
fn push_form(text: &mut Vec<u8>, alone: &'static str, form: OperandForm) -> Result<(), AllocError>
    ensures { OnOk result (text.new.items ≡ text.old.items ++ form_text alone.now form) }
{
    match form {
        OperandForm::Empty => push_text(text, "nothing"),
        OperandForm::Modifier(modifiers) => push_with_choice(text, "d", " of ", modifiers),
        OperandForm::One(kind) => push_text(text, letter_of(alone, kind)),
        OperandForm::OneAndModifier(kind, modifiers) => {
            push_text(text, letter_of(alone, kind))?;
            push_with_choice(text, ",d", " with d of ", modifiers)
        }
        OperandForm::Two(kind, _) => {
            push_text(text, letter_of("a", kind))?;
            push_text(text, ",b")
        }
        OperandForm::TwoAndModifier(kind, _, modifiers) => {
            push_text(text, letter_of("a", kind))?;
            push_with_choice(text, ",b,d", " with d of ", modifiers)
        }
    }
}

/// Adds one more form, if there is one.
fn push_or_form(
    text: &mut Vec<u8>,
    alone: &'static str,
    form: Option<OperandForm>,
) -> Result<(), AllocError>
    ensures { OnOk result (text.new.items ≡ text.old.items ++ or_form_text alone.now form) }
{
    match form {
        None => Ok(()),
        Some(form) => {
            push_text(text, " or ")?;
            push_form(text, alone, form)
        }
    }
}

/// The letter of a field that stands alone.
fn alone_by(third: Option<OperandForm>) -> &'static str
    ensures { result.now ≡ alone_by third }
{
    match third {
        Some(OperandForm::Two(OperandKind::Branch, _)) => "b",
        _ => "a",
    }
}

/// Adds the forms of an instruction in letters.
#[tactic(auto, unfolding(crate::specs::ExpectedOperands::forms_text))]
fn push_forms(text: &mut Vec<u8>, forms: &OperandForms) -> Result<(), AllocError>
    ensures { OnOk result (text.new.items ≡ text.old.items ++ forms_text forms.now) }
{
    let alone = alone_by(forms.third);
    push_form(text, alone, forms.form)?;
    push_or_form(text, alone, forms.other)?;
    push_or_form(text, alone, forms.third)
}

/// Adds what the operand field of an operation should be.
#[tactic(auto, unfolding(crate::specs::ExpectedOperands::expected_text))]
pub(crate) fn push_expected(text: &mut Vec<u8>, operation: &Operation) -> Result<(), AllocError>
    ensures { OnOk result (text.new.items ≡ text.old.items ++ expected_text operation.now) }
{
    match operation {
        Operation::Job => push_text(text, "any text"),
        Operation::Control => push_text(text, "a digit from 1 to 6"),
        Operation::Origin => push_text(text, "an address, as AREA&5"),
        Operation::Equate => push_text(text, "an address, as AREA&5"),
        Operation::MarkedConstant => push_text(text, "@text@, 125, &125, -125 or #12"),
        Operation::Constant => push_text(text, "@text@, 125, &125, -125 or #12"),
        Operation::Area => push_text(text, "a number from 1 on"),
        Operation::End => push_text(text, "nothing or an address, as START"),
        Operation::Instruction(mnemonic) => push_forms(text, &mnemonic.forms),
    }
}
