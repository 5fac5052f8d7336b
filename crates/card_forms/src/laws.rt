//! The laws of the forms.

ghost use Rattle.std.specs.Prelude.{◌≡◌, true, ℕ, List};
ghost use Rattle.std.specs.List.{All};
ghost use Rattle.cards.specs.{Decks.{IsDeck}, declared.Card.{Card}, Files.{punch_file_of}};
ghost use Rattle.card_forms.specs.{
  ColumnBinary.{binary_of, punch_file_for},
  Faults.{IsFirstFault},
  Forms.{IsFileOf, file_of},
  ImageFiles.{IsImageFile, has_file, image_file_of},
  Images.{IsImage, images_of},
  declared.images.CardImage.{CardImage},
  declared.forms.Form.{Form},
  declared.forms.Form.TheVariants.{Binary, Punch},
  declared.faults.FormFault.{FormFault},
};

/// The law of the forms: what is written of a deck in a form is a file of that form of that deck,
/// and no file of a form is one of two decks, or of a deck and at fault. Hence a deck that is
/// written in a form and read, and written in another and read, is the same deck. The column binary
/// of a deck stands for the deck's punch file.
pub fn forms_agree()
    ensures written { (form : Form) (deck : List Card) → IsDeck deck →
        IsFileOf form (file_of form deck) deck }
    ensures one_deck { (form : Form) (bytes : List ℕ) (one two : List Card) → IsDeck one →
        IsDeck two → IsFileOf form bytes one → IsFileOf form bytes two → one ≡ two }
    ensures not_both { (form : Form) (bytes : List ℕ) (deck : List Card) (fault : FormFault) →
        IsFirstFault form bytes fault → IsDeck deck → IsFileOf form bytes deck → ⊥ }
    ensures binary { (deck : List Card) → IsDeck deck →
        punch_file_for (binary_of deck) ≡ punch_file_of deck }
{}

/// The law of images: a file of a deck is one of the images of its cards, and what is written of
/// these is what is written of the deck. No file of a form is one of two lists of images. What is
/// written of any images as a punch file or in column binary is a file of these images, so no hole
/// is lost there.
pub fn images_agree()
    ensures read { (form : Form) (bytes : List ℕ) (deck : List Card) → IsDeck deck →
        IsFileOf form bytes deck → IsImageFile form bytes (images_of deck) }
    ensures characters { (form : Form) (deck : List Card) → IsDeck deck →
        has_file form (images_of deck) ≡ true }
    ensures written { (form : Form) (deck : List Card) → IsDeck deck →
        image_file_of form (images_of deck) ≡ file_of form deck }
    ensures one { (form : Form) (bytes : List ℕ) (first second : List CardImage) →
        IsImageFile form bytes first → IsImageFile form bytes second → first ≡ second }
    ensures punched { (images : List CardImage) → All IsImage images →
        IsImageFile Punch (image_file_of Punch images) images }
    ensures binary { (images : List CardImage) → All IsImage images →
        IsImageFile Binary (image_file_of Binary images) images }
{}
