//! The names of operations, and the one that is nearly what stands on a card.

ghost use Rattle.std.specs.Prelude.{◌≡◌, ◌<◌, ◌≤◌, ◌++◌, ◌==◌, length, count_by, position, codes, IfSome, OnOk};
ghost use Rattle.bcd.specs.Table.{byte};
ghost use Rattle.source_reports.specs.OperationNames.{mismatches, has_glyphs, is_same_at, first_difference, are_exchanged, is_near_from, is_near, near_in, near_operation, shown_length, shown_name};

use bcd::Code;
use std::alloc::AllocError;

/// The number of columns of the operation field.
pub(crate) const LONGEST: usize = 5;

/// The names of all operations, which are those of the tables of `autocoder_statements`.
const NAMES: [[u8; LONGEST]; 48] = [
    *b"JOB  ", *b"CTL  ", *b"ORG  ", *b"EQU  ", *b"DCW  ", *b"DC   ", *b"DS   ", *b"END  ",
    *b"A    ", *b"S    ", *b"ZA   ", *b"ZS   ", *b"MCW  ", *b"LCA  ", *b"MN   ", *b"MZ   ",
    *b"MCS  ", *b"MCE  ", *b"C    ", *b"MA   ", *b"SW   ", *b"CW   ", *b"CS   ", *b"B    ",
    *b"BLC  ", *b"BCV  ", *b"BU   ", *b"BE   ", *b"BL   ", *b"BH   ", *b"BAV  ", *b"BSS  ",
    *b"BCE  ", *b"BWZ  ", *b"BW   ", *b"R    ", *b"W    ", *b"WR   ", *b"P    ", *b"RP   ",
    *b"WP   ", *b"WRP  ", *b"CC   ", *b"SS   ", *b"H    ", *b"SBR  ", *b"SAR  ", *b"NOP  ",
];

/// In how many characters a text differs from these glyphs, as far as both go.
fn mismatches(text: &[Code], glyphs: &[u8]) -> usize
    ensures { result ≡ mismatches text.now glyphs.now }
{
    text.iter()
        .zip(glyphs.iter())
        .filter(|(code, glyph)| code.glyph() != **glyph)
        .count()
}

/// Whether a text has these glyphs, as far as both go.
pub(crate) fn has_glyphs(text: &[Code], glyphs: &[u8]) -> bool
    ensures { result ≡ has_glyphs text.now glyphs.now }
{
    mismatches(text, glyphs) == 0
}

/// Whether a field has in a column the glyph that a name has in a column.
fn is_same_at(field: &[Code], column: usize, name: &[u8; LONGEST], other: usize) -> bool
    requires column { column < length field.now }
    requires other { other < 5 }
    ensures { result ≡ is_same_at field.now column name.now other }
{
    field[column].glyph() == name[other]
}

/// The first column in which an operation field differs from a name.
fn first_difference(field: &[Code], name: &[u8; LONGEST]) -> Option<usize>
    requires field { length field.now ≡ 5 }
    ensures column { result ≡ first_difference field.now name.now }
    ensures within { IfSome result (λ column. column < 5) }
{
    (0..LONGEST).find(|column| !is_same_at(field, *column, name, *column))
}

/// Whether a field is a name but for two neighbours that are exchanged, from a column on.
fn are_exchanged(field: &[Code], name: &[u8; LONGEST], column: usize) -> bool
    requires field { length field.now ≡ 5 }
    ensures { result ≡ are_exchanged field.now name.now column }
{
    if column >= LONGEST - 1 {
        return false;
    }
    is_same_at(field, column, name, column + 1)
        && (is_same_at(field, column + 1, name, column)
            && has_glyphs(&field[column + 2..], &name[column + 2..]))
}

/// Whether behind their first difference, in a column, a field and a name are nearly the same.
fn is_near_from(field: &[Code], name: &[u8; LONGEST], column: usize) -> bool
    requires field { length field.now ≡ 5 }
    requires column { column < 5 }
    ensures { result ≡ is_near_from field.now name.now column }
{
    has_glyphs(&field[column + 1..], &name[column + 1..])
        || (has_glyphs(&field[column + 1..], &name[column..])
            || (has_glyphs(&field[column..], &name[column + 1..])
                || are_exchanged(field, name, column)))
}

/// Whether an operation field is nearly a name.
#[tactic(auto, unfolding(crate::specs::OperationNames::is_near))]
fn is_near(field: &[Code], name: &[u8; LONGEST]) -> bool
    requires field { length field.now ≡ 5 }
    ensures { result ≡ is_near field.now name.now }
{
    match first_difference(field, name) {
        None => false,
        Some(column) => is_near_from(field, name, column),
    }
}

/// How many of these names an operation field nearly is.
fn count_near(table: &[[u8; LONGEST]], field: &[Code]) -> usize
    requires { length field.now ≡ 5 }
    ensures { result ≡ count_by (is_near field.now) table.now }
{
    table.iter().filter(|name| is_near(field, name)).count()
}

/// The index of the first of these names that an operation field nearly is.
fn near_index(table: &[[u8; LONGEST]], field: &[Code]) -> Option<usize>
    requires { length field.now ≡ 5 }
    ensures index { result ≡ position (is_near field.now) table.now }
    ensures within { IfSome result (λ index. index < length table.now) }
{
    table.iter().position(|name| is_near(field, name))
}

/// The one of these names that an operation field nearly is, if there is exactly one.
#[tactic(auto, unfolding(crate::specs::OperationNames::near_in))]
fn near_in(table: &[[u8; LONGEST]], field: &[Code]) -> Option<[u8; LONGEST]>
    requires { length field.now ≡ 5 }
    ensures { result ≡ near_in table.now field.now }
{
    if count_near(table, field) != 1 {
        return None;
    }
    match near_index(table, field) {
        None => None,
        Some(index) => Some(table[index]),
    }
}

/// The name of an operation that an operation field nearly is, if there is exactly one.
pub(crate) fn near_operation(field: &[Code]) -> Option<[u8; LONGEST]>
    requires { length field.now ≡ 5 }
    ensures { result ≡ near_operation field.now }
{
    near_in(&NAMES, field)
}

/// How many characters of a name come before its first blank.
fn first_blank(name: &[u8]) -> Option<usize>
    ensures index { result ≡ position (λ glyph. glyph == byte (codes " ")) name.now }
    ensures within { IfSome result (λ index. index < length name.now) }
{
    name.iter().position(|glyph| *glyph == b' ')
}

/// How many characters a name has before the blanks behind it.
fn shown_length(name: &[u8; LONGEST]) -> usize
    ensures length { result ≡ shown_length name.now }
    ensures within { result ≤ 5 }
{
    match first_blank(name) {
        None => LONGEST,
        Some(index) => index,
    }
}

/// Adds the name of an operation without the blanks behind it. Fails only if there is no memory.
#[tactic(auto, unfolding(crate::specs::OperationNames::shown_name))]
pub fn push_operation_name(text: &mut Vec<u8>, name: &[u8; LONGEST]) -> Result<(), AllocError>
    ensures { OnOk result (text.new.items ≡ text.old.items ++ shown_name name.now) }
{
    text.extend_from_slice(&name[..shown_length(name)])?;
    Ok(())
}
