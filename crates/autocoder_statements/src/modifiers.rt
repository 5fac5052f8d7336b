//! The last character of an operand field.

ghost use Rattle.std.specs.Prelude.{◌≡◌};
ghost use Rattle.autocoder_statements.specs.Operands.{is_among, is_modifier, modifier, next_modifier};

use crate::characters::{begins, is_blank, is_ended};
use bcd::Code;

/// The characters that may end an operand field.
#[derive(Clone, Copy)]
pub enum Modifiers {
    /// Each but the blank.
    Any,
    /// The sense switches `B` to `G`.
    Switches,
    /// The tests for zones and word marks: `1 2 B K S 3 C L T`.
    ZonesAndMarks,
    /// The orders to the carriage: `J K L / S T 1 A`.
    Carriage,
    /// The pockets of the punch: `1 2 4 8`.
    Pockets,
}

/// Whether a character's glyph is among these.
fn is_among(code: Code, glyphs: &[u8]) -> bool
    ensures { result ≡ is_among glyphs.now code }
{
    let glyph = code.glyph();
    glyphs.iter().any(|other| *other == glyph)
}

impl Modifiers {
    /// Whether a character is one of them.
    #[tactic(auto, unfolding(crate::specs::Operands::is_modifier))]
    pub fn has(self, code: Code) -> bool
        ensures { result ≡ is_modifier self code }
    {
        match self {
            Modifiers::Any => !is_blank(code),
            Modifiers::Switches => is_among(code, b"BCDEFG"),
            Modifiers::ZonesAndMarks => is_among(code, b"12BKS3CLT"),
            Modifiers::Carriage => is_among(code, b"JKL/ST1A"),
            Modifiers::Pockets => is_among(code, b"1248"),
        }
    }
}

/// Reads the one character that ends the field.
#[tactic(auto, unfolding(crate::specs::Operands::modifier))]
pub fn read_modifier(modifiers: Modifiers, text: &[Code]) -> Option<Code>
    ensures { result ≡ modifier modifiers text.now }
{
    let [code, rest @ ..] = text else {
        return None;
    };
    if !modifiers.has(*code) {
        return None;
    }
    if !is_ended(rest) {
        return None;
    }
    Some(*code)
}

/// Reads the one character that ends the field, after a comma.
#[tactic(auto, unfolding(crate::specs::Operands::next_modifier))]
pub fn read_next_modifier(modifiers: Modifiers, text: &[Code]) -> Option<Code>
    ensures { result ≡ next_modifier modifiers text.now }
{
    if !begins(text, b",") {
        return None;
    }
    read_modifier(modifiers, &text[1..])
}
