//! The laws of pictures and pages: they are read as what they show.

ghost use Rattle.std.specs.{Prelude.{◌≡◌, ◌<◌, ◌^◌, ℕ, List, length, map}, List.{All, AllZip}};
ghost use Rattle.bcd.specs.Table.{glyph_of};
ghost use Rattle.cards.specs.{Decks.{IsCard}, declared.Card.{Card}};
ghost use Rattle.card_forms.specs.{
  Images.{IsImage, image_of},
  Signs.{filled},
  declared.images.CardImage.{CardImage},
};
ghost use Rattle.pictures.specs.{
  Cards.{picture},
  Decks.{deck_page_of},
  Forms.{pages},
  Reading.{HasThePrint, HasThePunches, Shows, figures_read, listing_read, print_read},
};

/// The law of holes: the upper left corners of the holes in a card's picture are those of the
/// columns and rows in which the card is punched, and no others.
pub fn holes_are_the_punches()
    ensures { (card : CardImage) → IsImage card → HasThePunches (picture card) card }
{}

/// The law of print: what stands at the upper edge of a card's picture is the card's glyphs up to
/// the last column that is not blank, with a blank for a column that is no character.
pub fn print_is_read()
    ensures card { (card : CardImage) → IsImage card → HasThePrint (picture card) card }
    ensures characters { (card : Card) → IsCard card →
        print_read (picture (image_of card)) ≡ map glyph_of (filled card.0) }
{}

/// The law of pictures: two cards with one picture are one card.
pub fn pictures_differ()
    ensures images { (one two : CardImage) → IsImage one → IsImage two →
        picture one ≡ picture two → one ≡ two }
    ensures characters { (one two : Card) → IsCard one → IsCard two →
        picture (image_of one) ≡ picture (image_of two) → one ≡ two }
{}

/// The law of decks: the figures on the page of a deck, whatever its title, are as many as its
/// cards, and each shows its card, the holes and the print.
pub fn figures_are_the_cards()
    ensures { (title : List ℕ) (deck : List CardImage) → All IsImage deck → length deck < 2 ^ 63 →
        AllZip Shows (figures_read (deck_page_of title deck)) deck }
{}

/// The law of pages: the texts of their forms, with a form feed between two, are the listing,
/// whatever the title is.
pub fn listing_is_read()
    ensures { (title listing : List ℕ) → length listing < 2 ^ 63 →
        listing_read (pages title listing) ≡ listing }
{}
