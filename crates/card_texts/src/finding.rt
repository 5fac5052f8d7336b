//! What is wrong with a line.

ghost use Rattle.std.specs.Prelude.{◌≡◌, ◌<◌, ◌≤◌, ◌+◌, ◌∷◌, ◌++◌, [], false, length, slice_index_or, OnOk};
ghost use Rattle.card_texts.specs.{
  Signs.{is_glyph},
  Faults.{columns_behind, error_within, faults_from, faults_within, four_bytes, goes_on, is_inside, is_past, is_told, met_behind, nothing_met, told_of, width_behind, without_bare},
  declared.faults.TextError.TheVariants.{PastTheCard},
};

use crate::columns::COLUMNS;
use crate::faults::{TextError, TextFault};
use crate::rules::Rules;
use bcd::Code;
use card_forms::is_punch_line;
use std::alloc::AllocError;

/// What was met in a line: a tab and a small letter are told once.
#[derive(Clone, Copy)]
pub(crate) struct Met {
    /// A tab was told.
    tab: bool,
    /// A small letter was told.
    small: bool,
    /// The byte before begins or goes on with a character of several bytes.
    inside: bool,
}

/// Whether a byte goes on with a character of several bytes.
fn goes_on(byte: u8) -> bool
    ensures { result ≡ goes_on byte }
{
    (128..192).contains(&byte)
}

/// Whether a byte is the glyph of a character.
pub(crate) fn is_glyph(byte: u8) -> bool
    ensures { result ≡ is_glyph byte }
{
    match Code::from_glyph(byte) {
        Some(_) => true,
        None => false,
    }
}

/// What is wrong with the first of these bytes, within the card.
#[tactic(auto, unfolding(crate::specs::Faults::error_within))]
fn error_within(rules: &Rules, byte: u8, rest: &[u8]) -> Option<TextError>
    ensures { result ≡ error_within rules.now byte rest.now }
{
    if rules.is_spread(byte) {
        return None;
    }
    if byte == b'\t' {
        return Some(TextError::Tab);
    }
    if is_glyph(rules.glyph(byte)) {
        return None;
    }
    if byte.is_ascii_lowercase() {
        return Some(TextError::SmallLetter);
    }
    Some(TextError::NoCode(character(byte, rest)))
}

/// The byte at a place, or 0 behind the last one.
fn byte_at(bytes: &[u8], place: usize) -> u8
    ensures { result ≡ slice_index_or bytes.now place 0 }
{
    match bytes.get(place) {
        Some(&byte) => byte,
        None => 0,
    }
}

/// The first four bytes of a character, filled up with zeros.
fn character(byte: u8, rest: &[u8]) -> [u8; 4]
    ensures { result ≡ four_bytes (byte ∷ rest.now) }
{
    [byte, byte_at(rest, 0), byte_at(rest, 1), byte_at(rest, 2)]
}

impl Met {
    /// Nothing was met.
    fn nothing() -> Self
        ensures { result ≡ nothing_met }
    {
        Met {
            tab: false,
            small: false,
            inside: false,
        }
    }

    /// Whether a byte goes on with the character of the byte before.
    fn is_inside(self, byte: u8) -> bool
        ensures { result ≡ is_inside self byte }
    {
        self.inside && goes_on(byte)
    }

    /// Whether an error is one that is told once, and was.
    fn has_told(self, error: TextError) -> bool
        ensures { result ≡ is_told self error }
    {
        match error {
            TextError::Tab => self.tab,
            TextError::SmallLetter => self.small,
            _ => false,
        }
    }

    /// What was met behind a byte with this error.
    fn behind(self, error: Option<TextError>, byte: u8) -> Self
        ensures { result ≡ met_behind self error byte }
    {
        match error {
            Some(TextError::Tab) => Met {
                tab: true,
                inside: false,
                ..self
            },
            Some(TextError::SmallLetter) => Met {
                small: true,
                inside: false,
                ..self
            },
            _ => Met {
                inside: byte >= 192,
                ..self
            },
        }
    }
}

/// Adds a fault, unless it was told.
fn tell(
    faults: &mut Vec<TextFault>,
    met: Met,
    line: usize,
    filled: usize,
    error: Option<TextError>,
) -> Result<(), AllocError>
    requires { filled < usize.MAX }
    ensures { OnOk result (faults.new.items ≡ faults.old.items ++ told_of line filled met error) }
{
    let Some(error) = error else {
        return Ok(());
    };
    if met.has_told(error) {
        return Ok(());
    }
    let column = filled + 1;
    faults.push(TextFault {
        line,
        column,
        error,
    })?;
    Ok(())
}

/// Bytes up to the last one that does not leave its columns blank.
#[tactic(auto, using(crate::proofs::WidthLemmas::bare_cut, crate::proofs::WidthLemmas::none_bare), unfolding(crate::specs::Faults::without_bare))]
fn without_bare<'a>(rules: &Rules, bytes: &'a [u8]) -> &'a [u8]
    ensures bytes { result.now ≡ without_bare rules.now bytes.now }
    ensures length { length result.now ≤ length bytes.now }
{
    let mut rest = bytes;
    while let Some((&byte, before)) = rest.split_last() {
        if !rules.is_bare(byte) {
            break;
        }
        rest = before;
    }
    rest
}

/// How many columns are filled behind bytes, after so many.
#[tactic(auto, unfolding(crate::specs::Faults::columns_behind))]
fn columns_behind(rules: &Rules, before: usize, bytes: &[u8]) -> usize
    requires { before + length bytes.now + 255 < usize.MAX }
    ensures { result ≡ columns_behind rules.now before false bytes.now }
{
    let mut filled = before;
    let mut inside = false;
    let mut rest = bytes;
    while let Some((&byte, behind)) = rest.split_first() {
        rest = behind;
        if inside && goes_on(byte) {
            continue;
        }
        filled = rules.behind(filled, byte);
        inside = byte >= 192;
    }
    filled
}

/// How many columns a line has, where these bytes stand behind so many.
fn width_behind(rules: &Rules, filled: usize, bytes: &[u8]) -> usize
    requires { filled + length bytes.now + 255 < usize.MAX }
    ensures { result ≡ width_behind rules.now filled bytes.now }
{
    columns_behind(rules, filled, without_bare(rules, bytes))
}

/// Adds the fault that a character stands past the card, behind so many columns of its line.
fn push_past(
    faults: &mut Vec<TextFault>,
    rules: &Rules,
    line: usize,
    filled: usize,
    bytes: &[u8],
) -> Result<(), AllocError>
    requires { filled + length bytes.now + 255 < usize.MAX }
    ensures { OnOk result (faults.new.items ≡ faults.old.items ++ record {
      line = line;
      column = filled + 1;
      error = PastTheCard (width_behind rules.now filled bytes.now);
    } ∷ []) }
{
    let width = width_behind(rules, filled, bytes);
    faults.push(TextFault {
        line,
        column: filled + 1,
        error: TextError::PastTheCard(width),
    })?;
    Ok(())
}

/// Adds the faults of a line.
pub(crate) fn push_faults(
    faults: &mut Vec<TextFault>,
    rules: &Rules,
    number: usize,
    line: &[u8],
) -> Result<(), AllocError>
    ensures { OnOk result (faults.new.items
        ≡ faults.old.items ++ faults_within rules.now number line.now) }
{
    if is_punch_line(line) {
        faults.push(TextFault {
            line: number,
            column: 1,
            error: TextError::PunchLine,
        })?;
        return Ok(());
    }
    push_character_faults(faults, rules, number, line)
}

/// Adds the faults of the characters of a line.
#[tactic(auto, unfolding(crate::specs::Faults::faults_from))]
fn push_character_faults(
    faults: &mut Vec<TextFault>,
    rules: &Rules,
    number: usize,
    line: &[u8],
) -> Result<(), AllocError>
    ensures { OnOk result (faults.new.items
        ≡ faults.old.items ++ faults_from rules.now number 0 nothing_met line.now) }
{
    let mut filled = 0;
    let mut met = Met::nothing();
    let mut rest = line;
    while let Some((&byte, behind)) = rest.split_first() {
        if is_past(rules.keeps, filled) {
            return Ok(());
        }
        let left = rest;
        rest = behind;
        if met.is_inside(byte) {
            continue;
        }
        if filled < COLUMNS {
            let error = error_within(rules, byte, behind);
            tell(faults, met, number, filled, error)?;
            met = met.behind(error, byte);
            filled = rules.behind(filled, byte);
        } else if rules.is_bare(byte) {
            filled = rules.behind(filled, byte);
        } else {
            return push_past(faults, rules, number, filled, left);
        }
    }
    Ok(())
}

/// Whether a column behind so many is past the last one that is looked at.
fn is_past(keeps: Option<u8>, filled: usize) -> bool
    ensures { result ≡ is_past keeps filled }
{
    match keeps {
        Some(last) => last as usize <= filled,
        None => false,
    }
}
