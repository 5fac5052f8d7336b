//! Parts of a deck, and the cards on which a number stands.

ghost use Rattle.std.specs.Prelude.{◌≡◌, ◌<◌, ◌≤◌, length, drop, IfSome, IsNone};
ghost use Rattle.card_tools.specs.{
  Cutting.{HasPart, first_with, has_number, next_behind, number_place, part_of},
  Lines.{columns_shown},
};

use card_forms::{CardImage, glyph_shown};

/// Where something stands in the columns 73 to 80 of cards, by the places of these, the first being
/// 1.
#[derive(Clone, Copy, Debug, PartialEq, Eq)]
pub enum NumberPlace {
    /// On no card.
    Nowhere,
    /// On this card alone.
    Once(usize),
    /// First on the one and next on the other, and maybe on more.
    Twice(usize, usize),
}

/// The place before the first of the columns that hold a number.
const NUMBER_COLUMN: usize = 72;

/// Returns the cards from one place to another, the first place being 1; none where the deck has no
/// such part.
pub fn cut(images: &[CardImage], first: usize, last: usize) -> Option<&[CardImage]>
    ensures part { IfSome result (λ part. HasPart first last (length images.now)
        × (part.now ≡ part_of first last images.now)) }
    ensures none { IsNone result → HasPart first last (length images.now) → ⊥ }
{
    if first == 0 {
        return None;
    }
    if first > last {
        return None;
    }
    if last > images.len() {
        return None;
    }
    Some(&images[first - 1..last])
}

/// The columns 73 to 80 of a card.
fn number_columns(image: &CardImage) -> &[u16]
    ensures columns { result.now ≡ drop 72 image.now.0 }
    ensures eight { length result.now ≡ 8 }
{
    let columns: &[u16] = &image.0;
    &columns[NUMBER_COLUMN..]
}

/// Eight columns as they are shown.
fn shown(columns: &[u16]) -> [u8; 8]
    requires { length columns.now ≡ 8 }
    ensures { result ≡ columns_shown columns.now }
{
    let mut shown = [b' '; 8];
    for place in 0..8 {
        shown[place] = glyph_shown(columns[place]);
    }
    shown
}

/// Whether this stands in the columns 73 to 80 of a card.
fn has_number(image: &CardImage, number: &[u8]) -> bool
    ensures { result ≡ has_number number.now image.now }
{
    let shown = shown(number_columns(image));
    shown.as_slice() == number
}

/// The place of the first card on which this stands, from 0.
fn first_with(images: &[CardImage], number: &[u8]) -> Option<usize>
    ensures first { result ≡ first_with number.now images.now }
    ensures within { IfSome result (λ place. place < length images.now) }
{
    images.iter().position(|image| has_number(image, number))
}

/// The cards from one with this place on, from 0.
fn from_place(images: &[CardImage], place: usize) -> &[CardImage]
    requires { place ≤ length images.now }
    ensures { result.now ≡ drop place images.now }
{
    &images[place..]
}

/// Returns on which cards something stands in the columns 73 to 80, where a column that is no
/// character is `~`. What is no eight bytes long stands on none.
pub fn number_place(images: &[CardImage], number: &[u8]) -> NumberPlace
    ensures { result ≡ number_place number.now images.now }
{
    let Some(place) = first_with(images, number) else {
        return NumberPlace::Nowhere;
    };
    match first_with(from_place(images, place + 1), number) {
        None => NumberPlace::Once(place + 1),
        Some(next) => NumberPlace::Twice(place + 1, place + 1 + next + 1),
    }
}
