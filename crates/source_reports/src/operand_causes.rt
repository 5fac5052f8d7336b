//! What is wrong where the reading of a card's operand field stops, and how it is told.

ghost use Rattle.std.specs.Prelude.{◌≡◌, ◌<◌, length};
ghost use Rattle.source_reports.specs.OperandCauses.{early_blank, late_blank, begins_index, is_sign, behind_operand, follower, last_follower, is_index_number, is_index, wrong_name, wrong_literal, literal_cause, sign_cause, operand_cause, constant_cause, number_cause, last_cause, part_cause, wrong_part, cause_at, ended_cause, cause_of, cause_text};

use crate::operand_stops::{MOST_DIGITS, Stop, Wanted, ends_at, glyph_at, opens_literal};
use autocoder_statements::{Class, LONGEST_NAME, OperandKind};
use bcd::Code;

/// What is wrong with an operand field.
#[derive(Clone, Copy)]
pub(crate) enum Cause {
    /// The field ends where an operand is wanted.
    Missing,
    /// There is an operand behind the last one.
    TooMany,
    /// Column 21 is blank, and column 22 is not.
    LateStart,
    /// There is a blank behind a comma.
    BlankBehindComma,
    /// There is only one blank behind the operands.
    OneBlank,
    /// There is a `+`.
    Plus,
    /// There is a sign without digits behind it.
    Sign,
    /// There is an index location where none may be.
    Index,
    /// There is a character that continues no operand.
    Misplaced,
    /// There is more than one character where one is wanted.
    OneCharacter,
    /// There is another character than those that the operation has.
    OtherCharacter,
    /// There is a name of over six characters.
    LongName,
    /// There is an index location in place of a name.
    IndexAlone,
    /// There is a number of over five digits.
    LongNumber,
    /// There are two `@` with nothing between them.
    EmptyText,
    /// There is an `@` without another one.
    OpenText,
    /// There is a literal where only an address may stand.
    Literal,
    /// There is a `*` in place of an address.
    Asterisk,
    /// There is a character with which no operand begins.
    NoOperand,
    /// There is no constant, and perhaps a text without its `@`.
    NoQuotes,
    /// There is no number.
    NoNumber,
    /// There is the number 0.
    Zero,
    /// There is no digit of a size.
    OtherSize,
}

/// A blank where an operand or a part of one is wanted.
fn early_blank(count: usize) -> Cause
    ensures { result ≡ early_blank count }
{
    if count == 0 {
        Cause::LateStart
    } else {
        Cause::BlankBehindComma
    }
}

/// A blank behind operands.
fn late_blank(count: usize) -> Cause
    ensures { result ≡ late_blank count }
{
    if count == 0 {
        Cause::LateStart
    } else {
        Cause::OneBlank
    }
}

/// Whether two glyphs begin an index location.
fn begins_index(glyph: u8, next: u8) -> bool
    ensures { result ≡ begins_index glyph next }
{
    glyph == b'&' && next == b'X'
}

/// Whether a glyph is a sign of numbers.
fn is_sign(glyph: u8) -> bool
    ensures { result ≡ is_sign glyph }
{
    glyph == b'&' || glyph == b'-'
}

/// A character behind an operand, by its glyph and the next one.
fn behind_operand(glyph: u8, next: u8) -> Cause
    ensures { result ≡ behind_operand glyph next }
{
    if glyph == b',' {
        return Cause::TooMany;
    }
    if glyph == b'+' {
        return Cause::Plus;
    }
    if begins_index(glyph, next) {
        return Cause::Index;
    }
    if is_sign(glyph) {
        return Cause::Sign;
    }
    Cause::Misplaced
}

/// What follows operands, and does not end them.
fn follower(count: usize, field: &[Code]) -> Cause
    requires { count < length field.now }
    ensures { result ≡ follower count field.now }
{
    let glyph = glyph_at(field, count);
    if glyph == b' ' {
        return late_blank(count);
    }
    if count == 0 {
        return Cause::TooMany;
    }
    behind_operand(glyph, glyph_at(field, count + 1))
}

/// What follows the last character of an instruction.
fn last_follower(count: usize, field: &[Code]) -> Cause
    ensures { result ≡ last_follower count field.now }
{
    if glyph_at(field, count) == b' ' {
        return late_blank(count);
    }
    Cause::OneCharacter
}

/// Whether a glyph is the number of an index location.
fn is_index_number(glyph: u8) -> bool
    ensures { result ≡ is_index_number glyph }
{
    b'1' <= glyph && glyph <= b'3'
}

/// Whether the letters and digits that a text begins with name an index location.
fn is_index(text: &[Code]) -> bool
    ensures { result ≡ is_index text.now }
{
    glyph_at(text, 0) == b'X'
        && (Class::LetterOrDigit.run(text) == 2 && is_index_number(glyph_at(text, 1)))
}

/// A text that begins with a letter, and with no address.
fn wrong_name(text: &[Code]) -> Cause
    ensures { result ≡ wrong_name text.now }
{
    if LONGEST_NAME < Class::LetterOrDigit.run(text) {
        return Cause::LongName;
    }
    if is_index(text) {
        return Cause::IndexAlone;
    }
    Cause::LongNumber
}

/// A literal that is none, by its first two glyphs.
fn wrong_literal(glyph: u8, next: u8) -> Cause
    ensures { result ≡ wrong_literal glyph next }
{
    if is_sign(glyph) {
        return Cause::Sign;
    }
    if next == b'@' {
        return Cause::EmptyText;
    }
    Cause::OpenText
}

/// A text that begins like a literal, and with no operand of a kind.
fn literal_cause(kind: OperandKind, text: &[Code]) -> Cause
    ensures { result ≡ literal_cause kind text.now }
{
    match kind {
        OperandKind::Branch => Cause::Literal,
        OperandKind::Field => wrong_literal(glyph_at(text, 0), glyph_at(text, 1)),
    }
}

/// A text that begins with no letter or digit, and with no operand of a kind.
fn sign_cause(kind: OperandKind, text: &[Code]) -> Cause
    ensures { result ≡ sign_cause kind text.now }
{
    let glyph = glyph_at(text, 0);
    if glyph == b',' {
        return Cause::Missing;
    }
    if glyph == b'+' {
        return Cause::Plus;
    }
    if glyph == b'*' {
        return Cause::Asterisk;
    }
    if opens_literal(glyph) {
        return literal_cause(kind, text);
    }
    Cause::NoOperand
}

/// A text that is no blank, and begins with no operand of a kind.
fn operand_cause(kind: OperandKind, text: &[Code]) -> Cause
    ensures { result ≡ operand_cause kind text.now }
{
    if 0 < Class::Digit.run(text) {
        return Cause::LongNumber;
    }
    if 0 < Class::LetterOrDigit.run(text) {
        return wrong_name(text);
    }
    sign_cause(kind, text)
}

/// A text that is no blank, and begins with no constant.
fn constant_cause(text: &[Code]) -> Cause
    ensures { result ≡ constant_cause text.now }
{
    if glyph_at(text, 0) == b'+' {
        Cause::Plus
    } else {
        Cause::NoQuotes
    }
}

/// A text that is no blank, and begins with no number of one to five digits, or with 0.
fn number_cause(text: &[Code]) -> Cause
    ensures { result ≡ number_cause text.now }
{
    let digits = Class::Digit.run(text);
    if digits == 0 {
        return Cause::NoNumber;
    }
    if MOST_DIGITS < digits {
        return Cause::LongNumber;
    }
    Cause::Zero
}

/// A text that is no blank, and whose first character may not be the last of the instruction.
fn last_cause(text: &[Code]) -> Cause
    ensures { result ≡ last_cause text.now }
{
    if glyph_at(text, 1) == b' ' {
        Cause::OtherCharacter
    } else {
        Cause::OneCharacter
    }
}

/// What is wrong with a text, which is no blank, where a part of an operand field is wanted.
fn part_cause(wanted: Wanted, text: &[Code]) -> Cause
    ensures { result ≡ part_cause wanted text.now }
{
    match wanted {
        Wanted::Operand(kind) => operand_cause(kind, text),
        Wanted::Last(_) => last_cause(text),
        Wanted::Constant => constant_cause(text),
        Wanted::Number => number_cause(text),
        _ => Cause::OtherSize,
    }
}

/// What is wrong where a part of an operand field is wanted.
fn wrong_part(wanted: Wanted, count: usize, field: &[Code]) -> Cause
    requires { count < length field.now }
    ensures { result ≡ wrong_part wanted count field.now }
{
    if glyph_at(field, count) == b' ' {
        return early_blank(count);
    }
    part_cause(wanted, &field[count..])
}

/// What is wrong where a field does not end.
fn cause_at(wanted: Wanted, count: usize, field: &[Code]) -> Cause
    requires { count < length field.now }
    ensures { result ≡ cause_at wanted count field.now }
{
    match wanted {
        Wanted::End => follower(count, field),
        Wanted::Comma => follower(count, field),
        Wanted::LastEnd => last_follower(count, field),
        _ => wrong_part(wanted, count, field),
    }
}

/// What is wrong where a field ends, if the end is not what is wanted.
fn ended_cause(wanted: Wanted) -> Option<Cause>
    ensures { result ≡ ended_cause wanted }
{
    match wanted {
        Wanted::End => None,
        Wanted::LastEnd => None,
        _ => Some(Cause::Missing),
    }
}

/// What is wrong with an operand field, by the stop of its reading, if it is not right.
#[tactic(auto, unfolding(crate::specs::OperandCauses::cause_of))]
pub(crate) fn cause_of(stop: Stop, field: &[Code]) -> Option<Cause>
    ensures { result ≡ cause_of stop field.now }
{
    if ends_at(field, stop.count) {
        return ended_cause(stop.wanted);
    }
    Some(cause_at(stop.wanted, stop.count, field))
}

/// The words for what is wrong.
#[tactic(auto, unfolding(crate::specs::OperandCauses::cause_text))]
pub(crate) fn cause_text(cause: Cause) -> &'static str
    ensures { result.now ≡ cause_text cause }
{
    match cause {
        Cause::Missing => "; an operand is missing",
        Cause::TooMany => "; an operand too many",
        Cause::LateStart => "; operands begin in 21, comments in 23",
        Cause::BlankBehindComma => "; leave out the blank behind the comma",
        Cause::OneBlank => "; put two blanks before a comment",
        Cause::Plus => "; plus is &",
        Cause::Sign => "; a sign stands before digits",
        Cause::Index => "; an index location may not stand here",
        Cause::Misplaced => "; this character does not belong here",
        Cause::OneCharacter => "; d is one character",
        Cause::OtherCharacter => "; this d is not known",
        Cause::LongName => "; a name has at most six letters and digits",
        Cause::IndexAlone => "; X1, X2 and X3 stand behind & alone",
        Cause::LongNumber => "; a number has at most five digits",
        Cause::EmptyText => "; nothing stands between the two @",
        Cause::OpenText => "; the closing @ is missing",
        Cause::Literal => "; a literal may not stand here",
        Cause::Asterisk => "; * is no address: name a label",
        Cause::NoOperand => "; no operand begins so",
        Cause::NoQuotes => "; put a text between two @",
        Cause::NoNumber => "; a number is wanted",
        Cause::Zero => "; 0 is too few",
        Cause::OtherSize => "; this is no size",
    }
}
