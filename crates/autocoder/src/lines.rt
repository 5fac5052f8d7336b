//! The lines of a listing: their fields, and their ends.

ghost use Rattle.std.specs.Prelude.{◌≡◌, ◌≤◌, ◌++◌, ◌∷◌, [], length, take, replicate, IfOk, OnOk};
ghost use Rattle.autocoder.specs.Listing.{right, fills, place_field, glyphs_of, card_line, line_text};
ghost use Rattle.cards.specs.Files.{line_feed};

use autocoder_layout::{Role, Slot};
use bcd::Code;
use cards::{Card, LINE_FEED};
use itoa::Buffer;
use std::alloc::{AllocError, Global};

/// Adds `count` fillers.
pub fn push_fillers(line: &mut Vec<u8>, filler: u8, count: usize) -> Result<(), AllocError>
    ensures { OnOk result (line.new.items ≡ line.old.items ++ replicate count filler) }
{
    for _ in 0..count {
        line.push(filler)?;
    }
    Ok(())
}

/// Adds a number right-aligned in a field of `width` characters, after fillers.
pub fn push_number(
    line: &mut Vec<u8>,
    filler: u8,
    width: usize,
    number: u64,
) -> Result<(), AllocError>
    ensures { OnOk result (line.new.items ≡ line.old.items ++ right filler width number) }
{
    let mut buffer = Buffer::new();
    let printed = buffer.format(number).as_bytes();
    push_fillers(line, filler, width.saturating_sub(printed.len()))?;
    line.extend_from_slice(printed)?;
    Ok(())
}

/// Adds the glyphs of some characters.
pub fn push_glyphs(line: &mut Vec<u8>, codes: &[Code]) -> Result<(), AllocError>
    ensures { OnOk result (line.new.items ≡ line.old.items ++ glyphs_of codes.now) }
{
    for code in codes {
        line.push(code.glyph())?;
    }
    Ok(())
}

/// Whether a card fills positions.
pub fn fills(role: Role) -> bool
    ensures { result ≡ fills role }
{
    match role {
        Role::Instruction => true,
        Role::Constant => true,
        _ => false,
    }
}

/// Adds the leftmost position that a card fills, if it is an instruction or a constant.
#[tactic(auto, unfolding(crate::specs::Listing::place_field))]
fn push_place(line: &mut Vec<u8>, slot: &Slot) -> Result<(), AllocError>
    ensures { OnOk result (line.new.items ≡ line.old.items ++ place_field slot.now) }
{
    if fills(slot.role) {
        push_number(line, b'0', 5, slot.before as u64)
    } else {
        push_fillers(line, b' ', 5)
    }
}

/// The line of a card.
#[tactic(auto, unfolding(crate::specs::Listing::card_line))]
pub fn card_line(
    alloc: Global,
    number: u64,
    slot: &Slot,
    card: &Card,
) -> Result<Vec<u8>, AllocError>
    ensures { IfOk result (λ line. line.items ≡ card_line number slot.now card.now) }
{
    let mut line = Vec::new(alloc);
    push_number(&mut line, b' ', 4, number)?;
    line.push(b' ')?;
    push_place(&mut line, slot)?;
    line.push(b' ')?;
    push_glyphs(&mut line, &card.0)?;
    Ok(line)
}

/// The number of characters of a line without the blanks at its end.
fn length_listed(line: &[u8]) -> usize
    ensures within { result ≤ length line.now }
    ensures text { line_text line.now ≡ take result line.now ++ line_feed ∷ [] }
{
    for length in (0..line.len()).rev() {
        if line[length] != b' ' {
            return length + 1;
        }
    }
    0
}

/// Adds a line without the blanks at its end, and its line feed.
pub fn push_line(text: &mut Vec<u8>, line: &[u8]) -> Result<(), AllocError>
    ensures { OnOk result (text.new.items ≡ text.old.items ++ line_text line.now) }
{
    text.extend_from_slice(&line[..length_listed(line)])?;
    text.push(LINE_FEED)?;
    Ok(())
}
