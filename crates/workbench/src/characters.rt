//! Characters that are none of the 64, as they are told.

ghost use Rattle.std.specs.Prelude.{◌≤◌};

use card_texts::Remedy;
use std::io;
use std::io::Write;

/// How many bytes a character of UTF-8 has that begins with this one.
fn length_by(first: u8) -> usize
    ensures { result ≤ 4 }
{
    if first < 192 {
        return 1;
    }
    if first < 224 {
        return 2;
    }
    if first < 240 { 3 } else { 4 }
}

/// The character of UTF-8 that begins with these bytes, or none where it is not one.
fn character(bytes: &[u8; 4]) -> Option<&str> {
    str::from_utf8(&bytes[..length_by(bytes[0])]).ok()
}

/// Whether a character can be shown as it is: it is no control character.
fn is_shown(bytes: &[u8; 4]) -> bool {
    match bytes[0] {
        0..=32 | 127 => false,
        0xC2 => bytes[1] >= 0xA0,
        _ => true,
    }
}

/// Writes a character that is none of the 64, or its first byte where it cannot be shown.
pub(crate) fn tell_character<E: Write>(errors: &mut E, bytes: &[u8; 4]) -> io::Result<()> {
    let first = bytes[0];
    match character(bytes) {
        Some(text) if is_shown(bytes) => write!(errors, "the character {text}"),
        _ => write!(errors, "the byte \\x{first:02X}"),
    }
}

/// Writes a glyph between two texts.
fn tell_glyph<E: Write>(errors: &mut E, before: &[u8], glyph: u8, behind: &[u8]) -> io::Result<()> {
    let glyph = [glyph];
    errors.write_all(before)?;
    errors.write_all(&glyph)?;
    errors.write_all(behind)
}

/// Writes what helps where a character is none of the 64, if anything is known.
pub(crate) fn tell_remedy<E: Write>(errors: &mut E, remedy: Option<Remedy>) -> io::Result<()> {
    match remedy {
        Some(Remedy::SimhSign(b' ')) => {
            errors.write_all(b"; in SimH's signs it is a blank (--signs simh)")
        }
        Some(Remedy::SimhSign(glyph)) => {
            tell_glyph(
                errors,
                b"; in SimH's signs it is ",
                glyph,
                b" (--signs simh)",
            )
        }
        Some(Remedy::Written(glyph)) => tell_glyph(errors, b"; write ", glyph, b" in its place"),
        None => Ok(()),
    }
}
