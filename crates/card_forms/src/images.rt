//! The images of cards: of each column the pattern of its holes.

ghost use Rattle.std.specs.Prelude.{◌≡◌, ◌<◌, length, map, IfOk, IfSome, IsNone};
ghost use Rattle.bcd.specs.Table.{punches_of};
ghost use Rattle.card_forms.specs.{
  Images.{are_characters, character_of, glyph_shown, image_of, images_of, is_character, odd_card, odd_column, sign_shown},
  Signs.{filled},
};

use crate::signs::simh_sign;
use bcd::Code;
use cards::{COLUMNS, Card};
use std::alloc::{AllocError, Global};

/// The image of a card: of each column the pattern of its holes, row 12 as 0x800, row 11 as 0x400,
/// and the rows 0 to 9 as 0x200 to 0x001.
#[derive(Clone, Copy, Debug, PartialEq, Eq)]
pub struct CardImage(pub [u16; COLUMNS]);

/// What is shown of a column whose pattern is no character's. It is none of the 64 glyphs.
const NO_GLYPH: u8 = b'~';

/// The punches of a card's columns.
fn patterns(codes: &[Code]) -> [u16; COLUMNS]
    requires { length codes.now ≡ 80 }
    ensures { result ≡ map punches_of codes.now }
{
    let mut patterns = [0; COLUMNS];
    for index in 0..COLUMNS {
        patterns[index] = codes[index].punches();
    }
    patterns
}

/// Returns the image of a card.
pub fn image_of(card: &Card) -> CardImage
    ensures { result ≡ image_of card.now }
{
    CardImage(patterns(&card.0))
}

/// Returns the images of cards, in order. Fails only if there is no memory.
pub fn images_of(alloc: Global, cards: &[Card]) -> Result<Vec<CardImage>, AllocError>
    ensures { IfOk result (λ images. images.items ≡ images_of cards.now) }
{
    let mut images = Vec::new(alloc);
    for card in cards {
        images.push(image_of(card))?;
    }
    Ok(images)
}

/// Returns the character of a column, if its pattern is one's.
#[tactic(auto, using(crate::proofs::ImageCharacters::character_is, crate::proofs::ImageCharacters::character_none))]
pub fn character_of(pattern: u16) -> Option<Code>
    ensures found { IfSome result (λ code. character_of pattern ≡ code) }
    ensures below { IfSome result (λ code. code < 64) }
    ensures none { IsNone result → character_of pattern ≡ 64 }
{
    Code::of_punches(pattern)
}

/// Whether a pattern is a character's.
fn is_character(pattern: u16) -> bool
    ensures { result ≡ is_character pattern }
{
    match character_of(pattern) {
        Some(_) => true,
        None => false,
    }
}

/// Returns the glyph of a column's character, or `~` where its pattern is no character's.
#[tactic(auto, unfolding(crate::specs::Images::glyph_shown))]
pub fn glyph_shown(pattern: u16) -> u8
    ensures { result ≡ glyph_shown pattern }
{
    match character_of(pattern) {
        Some(code) => code.glyph(),
        None => NO_GLYPH,
    }
}

/// The sign that SimH punches for a column's character, or 0 where its pattern is no character's.
#[tactic(auto, unfolding(crate::specs::Images::sign_shown))]
pub(crate) fn sign_shown(pattern: u16) -> u8
    ensures { result ≡ sign_shown pattern }
{
    match character_of(pattern) {
        Some(code) => simh_sign(code),
        None => 0,
    }
}

/// Returns the columns of a card up to the last one that has a hole.
#[tactic(auto, using(crate::proofs::FilledColumns::blank_cut, crate::proofs::FilledColumns::none_blank), unfolding(crate::specs::Signs::filled))]
pub fn filled_columns(image: &CardImage) -> &[u16]
    ensures { result.now ≡ filled image.now.0 }
{
    let mut columns: &[u16] = &image.0;
    while let Some((last, before)) = columns.split_last() {
        if *last != 0 {
            break;
        }
        columns = before;
    }
    columns
}

/// The place of the first column of a card that is no character.
pub(crate) fn odd_column(image: &CardImage) -> Option<usize>
    ensures first { result ≡ odd_column image.now }
    ensures within { IfSome result (λ column. column < 80) }
{
    let columns: &[u16] = &image.0;
    columns.iter().position(|pattern| !is_character(*pattern))
}

/// The place of the first card with a column that is no character.
pub(crate) fn odd_card(images: &[CardImage]) -> Option<usize>
    ensures { result ≡ odd_card images.now }
{
    images.iter().position(|image| odd_column(image).is_some())
}

/// Returns whether each column of each card is a character.
pub fn are_characters(images: &[CardImage]) -> bool
    ensures { result ≡ are_characters images.now }
{
    odd_card(images).is_none()
}
