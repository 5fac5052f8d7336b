//! Operations that are not in the table but have another name in Autocoder, are spelled out as a
//! word, or are left out, and what to write for them.

ghost use Rattle.std.specs.Prelude.{◌≡◌, option_map};
ghost use Rattle.source_reports.specs.LeftOut.{is_among, multiply, divide, tapes, disks, parts, feeds, kind_left_out, left_out, spelled_out, advice};

use crate::operation_names::{LONGEST, has_glyphs};
use bcd::Code;

/// Multiply.
const MULTIPLY: [[u8; LONGEST]; 3] = [*b"M    ", *b"MUL  ", *b"MULT "];

/// Divide.
const DIVIDE: [[u8; LONGEST]; 2] = [*b"D    ", *b"DIV  "];

/// The orders to tapes.
const TAPES: [[u8; LONGEST]; 10] = [
    *b"RT   ", *b"WT   ", *b"RTW  ", *b"WTW  ", *b"RWD  ", *b"RWU  ", *b"BSP  ", *b"SKP  ",
    *b"WTM  ", *b"CU   ",
];

/// The orders to disks.
const DISKS: [[u8; LONGEST]; 8] = [
    *b"SD   ", *b"RD   ", *b"WD   ", *b"RDW  ", *b"WDW  ", *b"RDT  ", *b"WDT  ", *b"WDC  ",
];

/// The cards of programs in parts.
const PARTS: [[u8; LONGEST]; 5] = [*b"EX   ", *b"XFR  ", *b"LTORG", *b"SFX  ", *b"ENT  "];

/// The orders to feed cards early.
const FEEDS: [[u8; LONGEST]; 2] = [*b"SRF  ", *b"SPF  "];

/// Whether an operation field has one of these names.
fn is_among(table: &[[u8; LONGEST]], field: &[Code]) -> bool
    ensures { result ≡ is_among table.now field.now }
{
    table.iter().any(|name| has_glyphs(field, &name[..]))
}

/// What to write for an operation that is left out with others.
fn kind_left_out(field: &[Code]) -> Option<&'static str>
    ensures { option_map (λ text. text.now) result ≡ kind_left_out field.now }
{
    if is_among(&MULTIPLY, field) {
        return Some("; multiply is left out: add in a loop");
    }
    if is_among(&DIVIDE, field) {
        return Some("; divide is left out: subtract in a loop");
    }
    if is_among(&TAPES, field) {
        return Some("; tapes are left out: read and punch cards");
    }
    if is_among(&DISKS, field) {
        return Some("; disks are left out: read and punch cards");
    }
    if is_among(&PARTS, field) {
        return Some("; a program has one part, which END ends");
    }
    if is_among(&FEEDS, field) {
        return Some("; R and P alone move cards");
    }
    None
}

/// What to write for an operation that is left out.
fn left_out(field: &[Code]) -> Option<&'static str>
    ensures { option_map (λ text. text.now) result ≡ left_out field.now }
{
    if has_glyphs(field, b"MCM  ") {
        return Some("; move record is left out: move its fields");
    }
    if has_glyphs(field, b"DSA  ") {
        return Some("; address constants are left out: use SBR");
    }
    if has_glyphs(field, b"DA   ") {
        return Some("; record areas are left out: use DS");
    }
    kind_left_out(field)
}

/// What to write for an operation that is spelled out as a word, or is left out.
fn spelled_out(field: &[Code]) -> Option<&'static str>
    ensures { option_map (λ text. text.now) result ≡ spelled_out field.now }
{
    if has_glyphs(field, b"HALT ") {
        return Some("; here it is H");
    }
    if has_glyphs(field, b"ADD  ") {
        return Some("; here it is A");
    }
    if has_glyphs(field, b"SUB  ") {
        return Some("; here it is S");
    }
    if has_glyphs(field, b"MOVE ") {
        return Some("; here it is MCW");
    }
    if has_glyphs(field, b"READ ") {
        return Some("; here it is R");
    }
    if has_glyphs(field, b"PRINT") {
        return Some("; here it is W");
    }
    if has_glyphs(field, b"PUNCH") {
        return Some("; here it is P");
    }
    left_out(field)
}

/// What to write for an operation that has another name here, is spelled out, or is left out.
pub(crate) fn advice(field: &[Code]) -> Option<&'static str>
    ensures { option_map (λ text. text.now) result ≡ advice field.now }
{
    if has_glyphs(field, b"MLC  ") {
        return Some("; here it is MCW");
    }
    if has_glyphs(field, b"MLCWA") {
        return Some("; here it is LCA");
    }
    if has_glyphs(field, b"MLNS ") {
        return Some("; here it is MN");
    }
    if has_glyphs(field, b"MLZS ") {
        return Some("; here it is MZ");
    }
    spelled_out(field)
}
