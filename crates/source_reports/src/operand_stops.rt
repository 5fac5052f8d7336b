//! How far the operand field of a card can be read, and what the field should have there.

ghost use Rattle.std.specs.Prelude.{◌≡◌, ◌<◌, ◌≤◌, ◌-◌, if◌then◌else◌, false, length, drop, IfSome, IsTrue};
ghost use Rattle.autocoder_statements.specs.{
  Limits.{longest_text},
  Operands.{operand},
};
ghost use Rattle.source_reports.specs.OperandStops.{character_at, glyph_at, has_comma, ends_at, farther, operand_end, character_stop, stop_behind, stop_of_one, stop_of_two, form_stop, or_farther, forms_stop, plain_length, address_stop, are_zeros, begins_positive, number_stop, opens_literal, constant_stop, gives_size, size_stop, start_stop, stop_of};

use autocoder_statements::{
    Class, Modifiers, Operand, OperandForm, OperandForms, OperandKind, Operation, is_blank,
    read_operand,
};
use bcd::Code;

/// The greatest number of digits of a number.
pub(crate) const MOST_DIGITS: usize = 5;

/// What an operand field should have where the reading of it stops.
#[derive(Clone, Copy)]
pub(crate) enum Wanted {
    /// The end of the operands: two blanks.
    End,
    /// The end behind the last character of an instruction.
    LastEnd,
    /// A comma.
    Comma,
    /// An operand of this kind.
    Operand(OperandKind),
    /// The last character of an instruction, one of these.
    Last(Modifiers),
    /// A constant.
    Constant,
    /// A number that is not 0.
    Number,
    /// A digit that gives a size.
    Size,
}

/// Where the reading of an operand field stops.
#[derive(Clone, Copy)]
pub(crate) struct Stop {
    /// How many characters come before.
    pub(crate) count: usize,
    /// What the field should have there.
    pub(crate) wanted: Wanted,
}

/// The character of a field behind so many others, or a blank behind the field's end.
pub(crate) fn character_at(field: &[Code], count: usize) -> Code
    ensures { result ≡ character_at field.now count }
{
    if count < field.len() {
        field[count]
    } else {
        Code::blank()
    }
}

/// The glyph of a field behind so many characters, or a blank behind the field's end.
pub(crate) fn glyph_at(field: &[Code], count: usize) -> u8
    ensures { result ≡ glyph_at field.now count }
{
    character_at(field, count).glyph()
}

/// Whether a field has a comma behind so many characters.
fn has_comma(field: &[Code], count: usize) -> bool
    ensures comma { result ≡ has_comma field.now count }
    ensures within { IsTrue result → count < length field.now }
{
    count < field.len() && field[count].glyph() == b','
}

/// Whether the operands end behind so many characters.
pub(crate) fn ends_at(field: &[Code], count: usize) -> bool
    ensures ends { result ≡ ends_at field.now count }
    ensures within { result ≡ false → count < length field.now }
{
    count >= field.len() || (is_blank(field[count]) && is_blank(character_at(field, count + 1)))
}

/// The one of two stops that is farther on, or else the second one.
fn farther(one: Stop, other: Stop) -> Stop
    ensures { result ≡ farther one other }
{
    if other.count < one.count { one } else { other }
}

/// How many characters come before the end of an operand that begins behind so many of them.
fn operand_end(kind: OperandKind, count: usize, field: &[Code]) -> Option<usize>
    requires length { length field.now ≤ longest_text }
    requires within { count ≤ length field.now }
    ensures end { result ≡ operand_end kind count field.now }
    ensures within { IfSome result (λ end. end ≤ length field.now) }
{
    match read_operand(kind, &field[count..]) {
        None => None,
        Some((_, length)) => Some(count + length),
    }
}

/// The stop at the last character of an instruction.
fn character_stop(modifiers: Modifiers, count: usize, field: &[Code]) -> Stop
    requires { count ≤ length field.now }
    ensures { result ≡ character_stop modifiers count field.now }
{
    if modifiers.has(character_at(field, count)) {
        Stop {
            count: count + 1,
            wanted: Wanted::LastEnd,
        }
    } else {
        Stop {
            count,
            wanted: Wanted::Last(modifiers),
        }
    }
}

/// The stop behind an operand.
fn stop_behind(last: Option<Modifiers>, count: usize, field: &[Code]) -> Stop
    ensures { result ≡ stop_behind last count field.now }
{
    let Some(modifiers) = last else {
        return Stop {
            count,
            wanted: Wanted::End,
        };
    };
    if has_comma(field, count) {
        return character_stop(modifiers, count + 1, field);
    }
    Stop {
        count,
        wanted: Wanted::Comma,
    }
}

/// The stop of one operand behind so many characters.
fn stop_of_one(kind: OperandKind, last: Option<Modifiers>, count: usize, field: &[Code]) -> Stop
    requires length { length field.now ≤ longest_text }
    requires within { count ≤ length field.now }
    ensures { result ≡ stop_of_one kind last count field.now }
{
    match operand_end(kind, count, field) {
        None => Stop {
            count,
            wanted: Wanted::Operand(kind),
        },
        Some(end) => stop_behind(last, end, field),
    }
}

/// The stop of two operands with a comma between them.
fn stop_of_two(
    kind: OperandKind,
    other: OperandKind,
    last: Option<Modifiers>,
    field: &[Code],
) -> Stop
    requires { length field.now ≤ longest_text }
    ensures { result ≡ stop_of_two kind other last field.now }
{
    let Some(end) = operand_end(kind, 0, field) else {
        return Stop {
            count: 0,
            wanted: Wanted::Operand(kind),
        };
    };
    if has_comma(field, end) {
        return stop_of_one(other, last, end + 1, field);
    }
    Stop {
        count: end,
        wanted: Wanted::Comma,
    }
}

/// The stop of a field that is read in a form.
#[tactic(auto, unfolding(crate::specs::OperandStops::form_stop))]
fn form_stop(form: OperandForm, field: &[Code]) -> Stop
    requires { length field.now ≤ longest_text }
    ensures { result ≡ form_stop form field.now }
{
    match form {
        OperandForm::Empty => Stop {
            count: 0,
            wanted: Wanted::End,
        },
        OperandForm::Modifier(modifiers) => character_stop(modifiers, 0, field),
        OperandForm::One(kind) => stop_of_one(kind, None, 0, field),
        OperandForm::OneAndModifier(kind, modifiers) => {
            stop_of_one(kind, Some(modifiers), 0, field)
        }
        OperandForm::Two(kind, other) => stop_of_two(kind, other, None, field),
        OperandForm::TwoAndModifier(kind, other, modifiers) => {
            stop_of_two(kind, other, Some(modifiers), field)
        }
    }
}

/// The farther of a stop and the one of a form, if there is a form.
fn or_farther(stop: Stop, form: Option<OperandForm>, field: &[Code]) -> Stop
    requires { length field.now ≤ longest_text }
    ensures { result ≡ or_farther stop form field.now }
{
    match form {
        None => stop,
        Some(form) => farther(stop, form_stop(form, field)),
    }
}

/// The farthest stop of a field that may have any of these forms.
#[tactic(auto, unfolding(crate::specs::OperandStops::forms_stop))]
fn forms_stop(forms: &OperandForms, field: &[Code]) -> Stop
    requires { length field.now ≤ longest_text }
    ensures { result ≡ forms_stop forms.now field.now }
{
    let first = form_stop(forms.form, field);
    let second = or_farther(first, forms.other, field);
    or_farther(second, forms.third, field)
}

/// How many of so many characters are before an index location, if there is one.
fn without_index(is_indexed: bool, count: usize) -> usize
    ensures { result ≡ (if is_indexed then count - 3 else count) }
{
    if is_indexed {
        count.saturating_sub(3)
    } else {
        count
    }
}

/// How many characters an operand of so many takes without its index location.
fn plain_length(operand: &Operand, count: usize) -> usize
    ensures { result ≡ plain_length operand.now count }
{
    match operand {
        Operand::Address(address) => without_index(address.index.is_some(), count),
        Operand::Literal(_) => count,
    }
}

/// The stop of an address without an index location.
fn address_stop(field: &[Code]) -> Stop
    requires { length field.now ≤ longest_text }
    ensures { result ≡ address_stop (operand OperandKind.Branch field.now) }
{
    match read_operand(OperandKind::Branch, field) {
        None => Stop {
            count: 0,
            wanted: Wanted::Operand(OperandKind::Branch),
        },
        Some((operand, count)) => Stop {
            count: plain_length(&operand, count),
            wanted: Wanted::End,
        },
    }
}

/// Whether all of these characters are the digit 0.
fn are_zeros(digits: &[Code]) -> bool
    ensures { result ≡ are_zeros digits.now }
{
    digits.iter().all(|code| code.glyph() == b'0')
}

/// Whether a text begins with a number of one to five digits that is not 0.
#[tactic(auto, unfolding(crate::specs::OperandStops::begins_positive))]
fn begins_positive(text: &[Code]) -> bool
    ensures { result ≡ begins_positive text.now }
{
    let digits = Class::Digit.run(text);
    if digits == 0 {
        return false;
    }
    if digits > MOST_DIGITS {
        return false;
    }
    !are_zeros(&text[..digits])
}

/// The stop of a number that is not 0, behind so many characters.
fn number_stop(count: usize, field: &[Code]) -> Stop
    requires { count ≤ length field.now }
    ensures { result ≡ number_stop count field.now }
{
    let rest = &field[count..];
    if begins_positive(rest) {
        return Stop {
            count: count + Class::Digit.run(rest),
            wanted: Wanted::End,
        };
    }
    Stop {
        count,
        wanted: Wanted::Number,
    }
}

/// Whether literals begin with this glyph.
pub(crate) fn opens_literal(glyph: u8) -> bool
    ensures { result ≡ opens_literal glyph }
{
    glyph == b'@' || (glyph == b'&' || glyph == b'-')
}

/// The stop of a constant.
#[tactic(auto, unfolding(crate::specs::OperandStops::constant_stop))]
fn constant_stop(field: &[Code]) -> Stop
    requires some { 0 < length field.now }
    requires length { length field.now ≤ longest_text }
    ensures { result ≡ constant_stop field.now }
{
    let glyph = glyph_at(field, 0);
    if glyph == b'#' {
        return number_stop(1, field);
    }
    let digits = Class::Digit.run(field);
    if 0 < digits {
        return Stop {
            count: digits,
            wanted: Wanted::End,
        };
    }
    if opens_literal(glyph) {
        return stop_of_one(OperandKind::Field, None, 0, field);
    }
    Stop {
        count: 0,
        wanted: Wanted::Constant,
    }
}

/// Whether a glyph is one of the digits that give a size.
fn gives_size(glyph: u8) -> bool
    ensures { result ≡ gives_size glyph }
{
    b'1' <= glyph && glyph <= b'6'
}

/// The stop of a size.
fn size_stop(field: &[Code]) -> Stop
    ensures { result ≡ size_stop field.now }
{
    if gives_size(glyph_at(field, 0)) {
        return Stop {
            count: 1,
            wanted: Wanted::End,
        };
    }
    Stop {
        count: 0,
        wanted: Wanted::Size,
    }
}

/// The stop of the start of a program, which may be left out.
fn start_stop(field: &[Code]) -> Stop
    requires { length field.now ≤ longest_text }
    ensures { result ≡ start_stop field.now }
{
    if ends_at(field, 0) {
        return Stop {
            count: 0,
            wanted: Wanted::End,
        };
    }
    address_stop(field)
}

/// Where the reading of an operand field stops, by the operation.
#[tactic(auto, unfolding(crate::specs::OperandStops::stop_of))]
pub(crate) fn stop_of(operation: &Operation, field: &[Code]) -> Stop
    requires { length field.now ≡ longest_text }
    ensures { result ≡ stop_of operation.now field.now }
{
    match operation {
        Operation::Job => Stop {
            count: 0,
            wanted: Wanted::End,
        },
        Operation::Control => size_stop(field),
        Operation::Origin => address_stop(field),
        Operation::Equate => address_stop(field),
        Operation::MarkedConstant => constant_stop(field),
        Operation::Constant => constant_stop(field),
        Operation::Area => number_stop(0, field),
        Operation::End => start_stop(field),
        Operation::Instruction(mnemonic) => forms_stop(&mnemonic.forms, field),
    }
}
