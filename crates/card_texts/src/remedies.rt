//! What helps where a character is none of the 64.

ghost use Rattle.std.specs.Prelude.{◌≡◌};
ghost use Rattle.card_texts.specs.Remedies.{is_lozenge, is_record_mark, remedy_of, written_for};

use crate::finding::is_glyph;
use card_forms::simh_glyph;

/// What helps where a character is none of the 64.
#[derive(Clone, Copy)]
pub enum Remedy {
    /// Among SimH's signs it stands for this glyph.
    SimhSign(u8),
    /// No table of signs has it; this glyph is to be written in its place.
    Written(u8),
}

/// Whether bytes begin with the lozenge.
fn is_lozenge(bytes: &[u8]) -> bool
    ensures { result ≡ is_lozenge bytes.now }
{
    bytes.starts_with(&[0xE2, 0x8C, 0x91])
}

/// Whether bytes begin with the record mark: the double dagger, or the byte 1E.
fn is_record_mark(bytes: &[u8]) -> bool
    ensures { result ≡ is_record_mark bytes.now }
{
    bytes.starts_with(&[0xE2, 0x80, 0xA1]) || bytes.starts_with(&[0x1E])
}

/// The glyph to be written for a character that no table of signs has.
fn written_for(bytes: &[u8]) -> Option<Remedy>
    ensures { result ≡ written_for bytes.now }
{
    if is_lozenge(bytes) {
        return Some(Remedy::Written(b')'));
    }
    if is_record_mark(bytes) {
        return Some(Remedy::Written(b'|'));
    }
    None
}

/// Returns what helps where a character is none of the 64, by its first four bytes: the table of
/// signs that has it, or the glyph to be written in its place; nothing of a character for which
/// none is known.
pub fn remedy_of(bytes: &[u8; 4]) -> Option<Remedy>
    ensures { result ≡ remedy_of bytes.now }
{
    let glyph = simh_glyph(bytes[0]);
    if is_glyph(glyph) {
        return Some(Remedy::SimhSign(glyph));
    }
    written_for(bytes)
}
