//! The signs of SimH's IBM 1401, and the columns of a card that are filled.

ghost use Rattle.std.specs.Prelude.{◌≡◌};
ghost use Rattle.card_forms.specs.Signs.{filled, simh_glyph, simh_sign};

use bcd::Code;
use cards::Card;

/// The glyph of SimH's sign for it; a byte that is no such sign is returned as it is.
#[tactic(auto, unfolding(crate::specs::Signs::simh_glyph))]
pub fn simh_glyph(byte: u8) -> u8
    ensures { result ≡ simh_glyph byte }
{
    match byte {
        b'{' => b'"',
        b'~' => b'=',
        b'"' => b'+',
        b'=' => b'#',
        b'\'' => b'@',
        b'(' => b'%',
        b'+' => b'&',
        b'`' => b' ',
        _ => byte.to_ascii_uppercase(),
    }
}

/// The sign that SimH punches for a character.
#[tactic(auto, unfolding(crate::specs::Signs::simh_sign))]
pub(crate) fn simh_sign(code: Code) -> u8
    ensures { result ≡ simh_sign code }
{
    match code.number() {
        15 => b'{',
        29 => b'~',
        31 => b'"',
        _ => code.glyph(),
    }
}

/// The columns of a card up to the last one that is not blank.
#[tactic(auto, using(crate::proofs::FilledColumns::blank_cut, crate::proofs::FilledColumns::none_blank), unfolding(crate::specs::Signs::filled))]
pub fn filled(card: &Card) -> &[Code]
    ensures { result.now ≡ filled card.now.0 }
{
    let mut columns: &[Code] = &card.0;
    while let Some((last, before)) = columns.split_last() {
        if last.number() != 0 {
            break;
        }
        columns = before;
    }
    columns
}
