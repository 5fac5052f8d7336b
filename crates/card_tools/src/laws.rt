//! The laws of characters shown, of numbered decks, of comparisons and of manifests.

ghost use Rattle.std.specs.Prelude.{◌≡◌, ◌≤◌, ◌↔◌, [], ◌∷◌, ◌++◌, ℕ, List};
ghost use Rattle.std.specs.List.{All};
ghost use Rattle.cards.specs.{Decks.{IsCard, IsDeck}, Files.{text_of}, declared.Card.{Card}};
ghost use Rattle.card_forms.specs.{
  Images.{IsImage, image_of, images_of},
  Signs.{filled},
  declared.images.CardImage.{CardImage},
};
ghost use Rattle.texts.specs.Digests as digests;
ghost use Rattle.card_tools.specs.{
  Checking.{told},
  Comparing.{differing},
  Lines.{barred, glyphs_of},
  Manifests.{IsEntry, digest_of},
  Numbering.{IsNumbered},
};

/// The law of characters: a card of characters is shown by their glyphs, and the digest of a deck of
/// such cards is that of its deck text.
pub fn characters_are_shown_by_glyphs()
    ensures card { (card : Card) → IsCard card →
        barred (image_of card) ≡ 124 ∷ glyphs_of (filled card.0) ++ 124 ∷ [] }
    ensures digest { (deck : List Card) → IsDeck deck →
        digest_of (images_of deck) ≡ digests.digest_of (text_of deck) }
{}

/// The law of numbered decks: of a deck that was numbered by a step of at least 1 the check tells
/// nothing.
pub fn numbered_is_in_order()
    ensures { (word : List ℕ) (first step : ℕ) (deck new : List Card) → IsDeck deck → 1 ≤ step →
        IsNumbered word first step deck new → told new ≡ [] }
{}

/// The law of comparisons: no card differs exactly where the two decks are the same: in each hole,
/// and so, where all columns are characters, in each character.
pub fn same_decks_do_not_differ()
    ensures images { (first second : List CardImage) → All IsImage first → All IsImage second →
        (differing first second ≡ 0) ↔ (first ≡ second) }
    ensures decks { (first second : List Card) → IsDeck first → IsDeck second →
        (differing (images_of first) (images_of second) ≡ 0) ↔ (first ≡ second) }
{}

/// The law of manifests: a line is read as one digest and one name at most.
pub fn manifest_lines_have_one_reading()
    ensures { (line digest name other label : List ℕ) → IsEntry line digest name →
        IsEntry line other label → (digest ≡ other) × (name ≡ label) }
{}
