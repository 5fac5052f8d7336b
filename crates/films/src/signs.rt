//! The signs by which a film writes characters.

ghost use Rattle.std.specs.Prelude.{◌≡◌, ◌≤◌, ◌++◌, length, map, take, OnOk};
ghost use Rattle.units.specs.Listing.{without_trailing_blanks};
ghost use Rattle.films.specs.Signs.{glyph_on, sign_of, sign_of_code, signs_of, signs_on};

use bcd::Code;
use std::alloc::AllocError;

/// Where characters stand that are written by signs.
#[derive(Clone, Copy)]
pub(crate) enum Surface {
    /// In a printed line: the printer's chain lacks thirteen characters.
    OnPaper,
    /// On a card.
    OnCard,
}

/// The sign of the blank.
const BLANK: u8 = b'~';

/// The signs of the characters in the order of their numbers.
const SIGNS: [u8; 64] = *b"~1234567890#@:gq^/STUVWXYZ|,%=b+-JKLMNOPQR!$*];_aABCDEFGHI?.)[l}";

/// The signs of what the printer shows for them.
const SIGNS_PRINTED: [u8; 64] =
    *b"~1234567890#@~~~~/STUVWXYZ|,%~~~-JKLMNOPQR!$*~~~aABCDEFGHI?.)~~~";

/// The sign of a character.
#[tactic(auto, using(crate::proofs::SignTables::sign_at))]
pub(crate) fn sign(code: Code) -> u8
    ensures { result ≡ sign_of_code code }
{
    SIGNS[code.number() as usize]
}

/// The sign of what the printer shows for a character.
#[tactic(auto, using(crate::proofs::SignTables::printed_at))]
fn printed_sign(code: Code) -> u8
    ensures { result ≡ sign_of (glyph_on Surface.OnPaper code) }
{
    SIGNS_PRINTED[code.number() as usize]
}

impl Surface {
    /// The sign of a character here.
    #[tactic(auto, unfolding(crate::specs::Signs::sign_of_code))]
    fn sign(self, code: Code) -> u8
        ensures { result ≡ sign_of (glyph_on self code) }
    {
        match self {
            Surface::OnPaper => printed_sign(code),
            Surface::OnCard => sign(code),
        }
    }

    /// The number of characters without the blanks at their end.
    fn length_shown(self, codes: &[Code]) -> usize
        ensures within { result ≤ length codes.now }
        ensures text { without_trailing_blanks (map (glyph_on self) codes.now)
            ≡ map (glyph_on self) (take result codes.now) }
    {
        for length in (0..codes.len()).rev() {
            if self.sign(codes[length]) != BLANK {
                return length + 1;
            }
        }
        0
    }
}

/// The sign of a glyph.
#[tactic(auto, unfolding(crate::specs::Signs::sign_of))]
fn sign_of(glyph: u8) -> u8
    ensures { result ≡ sign_of glyph }
{
    match glyph {
        b' ' => b'~',
        b'&' => b'a',
        b'\\' => b'b',
        b'>' => b'g',
        b'<' => b'l',
        b'"' => b'q',
        _ => glyph,
    }
}

/// Adds the signs of glyphs.
pub(crate) fn push_signs_of(out: &mut Vec<u8>, glyphs: &[u8]) -> Result<(), AllocError>
    ensures { OnOk result (out.new.items ≡ out.old.items ++ signs_of glyphs.now) }
{
    for glyph in glyphs {
        out.push(sign_of(*glyph))?;
    }
    Ok(())
}

/// Adds the signs of characters.
fn push_each(out: &mut Vec<u8>, codes: &[Code], surface: Surface) -> Result<(), AllocError>
    ensures { OnOk result (out.new.items
        ≡ out.old.items ++ map (λ code. sign_of (glyph_on surface code)) codes.now) }
{
    for code in codes {
        out.push(surface.sign(*code))?;
    }
    Ok(())
}

/// Adds the signs of characters on a surface, without the blanks at their end.
pub(crate) fn push_signs(
    out: &mut Vec<u8>,
    codes: &[Code],
    surface: Surface,
) -> Result<(), AllocError>
    ensures { OnOk result (out.new.items ≡ out.old.items ++ signs_on surface codes.now) }
{
    push_each(out, &codes[..surface.length_shown(codes)], surface)
}
