//! Punch files whose digits may be small letters.

ghost use Rattle.std.specs.{
  Prelude.{◌≡◌, ◌==◌, IfOk, length},
  List.{list_all},
};
ghost use Rattle.card_forms.specs.PunchFiles.{capital_digit, in_capitals, is_any_digit, is_punch_line};

use crate::faults::is_digit;
use cards::COLUMNS;
use std::alloc::{AllocError, Global};

/// How many digits the line of a card has.
const LINE_DIGITS: usize = 3 * COLUMNS;

/// The capital of a small hexadecimal digit; every other byte is returned as it is.
fn capital_digit(byte: u8) -> u8
    ensures { result ≡ capital_digit byte }
{
    match byte {
        b'a'..=b'f' => byte - 32,
        _ => byte,
    }
}

/// A punch file with capitals in place of its small digits.
#[tactic(auto, unfolding(crate::specs::PunchFiles::in_capitals))]
pub(crate) fn in_capitals(alloc: Global, file: &[u8]) -> Result<Vec<u8>, AllocError>
    ensures { IfOk result (λ capitals. capitals.items ≡ in_capitals file.now) }
{
    let mut capitals = Vec::new(alloc);
    for &byte in file {
        capitals.push(capital_digit(byte))?;
    }
    Ok(capitals)
}

/// Whether a byte is a hexadecimal digit, a capital or a small one.
fn is_any_digit(byte: u8) -> bool
    ensures { result ≡ is_any_digit byte }
{
    is_digit(capital_digit(byte))
}

/// Whether all of these are hexadecimal digits.
fn are_digits(line: &[u8]) -> bool
    ensures { result ≡ list_all (λ byte. is_any_digit byte) line.now }
{
    line.iter().all(|&byte| is_any_digit(byte))
}

/// Returns whether a line is that of a card in a punch file: 240 hexadecimal digits, capitals or
/// small ones, without the line's end.
pub fn is_punch_line(line: &[u8]) -> bool
    ensures { result ≡ is_punch_line line.now }
{
    line.len() == LINE_DIGITS && are_digits(line)
}
