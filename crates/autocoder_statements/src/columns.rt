//! The fields of a card, by their columns.

ghost use Rattle.std.specs.{Prelude.{◌≡◌, length}, List.{list_all}};
ghost use Rattle.autocoder_statements.specs.{
  Limits.{longest_text},
  Characters.{is_blank},
  Statements.{label_field, operation_field, operand_field, is_comment, is_broken, operation_in, operation_of, operation_columns},
};

use crate::characters::{Class, begins, is_blank, with_blanks};
use crate::operations::{LONGEST_OPERATION, Operation, operation_named};
use bcd::Code;
use cards::Card;

/// The columns of the label, 6 to 15.
pub fn label_field(card: &Card) -> &[Code]
    ensures { result.now ≡ label_field card.now }
{
    let columns = &card.0[..];
    &columns[5..15]
}

/// The columns of the operation, 16 to 20.
pub fn operation_field(card: &Card) -> &[Code]
    ensures field { result.now ≡ operation_field card.now }
    ensures length { length result.now ≡ operation_columns }
{
    let columns = &card.0[..];
    &columns[15..20]
}

/// The columns of the operands, 21 to 72.
pub fn operand_field(card: &Card) -> &[Code]
    ensures field { result.now ≡ operand_field card.now }
    ensures length { length result.now ≡ longest_text }
{
    let columns = &card.0[..];
    &columns[20..72]
}

/// Whether a card is a comment: it has `*` in column 6.
#[tactic(auto, unfolding(crate::specs::Statements::is_comment))]
pub fn is_comment(card: &Card) -> bool
    ensures { result ≡ is_comment card.now }
{
    begins(label_field(card), b"*")
}

/// Whether all characters are blank.
fn are_blank(text: &[Code]) -> bool
    ensures { result ≡ list_all is_blank text.now }
{
    text.iter().all(|code| is_blank(*code))
}

/// Whether there is a character after the first blank of a field.
#[tactic(auto, unfolding(crate::specs::Statements::is_broken))]
pub fn is_broken(field: &[Code]) -> bool
    ensures { result ≡ is_broken field.now }
{
    !are_blank(&field[Class::Filled.run(field)..])
}

/// The operation that the word in an operation field names.
#[tactic(auto, unfolding(crate::specs::Statements::operation_in))]
pub fn operation_in(field: &[Code]) -> Option<Operation>
    requires { length field.now ≡ operation_columns }
    ensures { result ≡ operation_in field.now }
{
    let word: [Code; LONGEST_OPERATION] = with_blanks(&field[..Class::Filled.run(field)]);
    operation_named(&word)
}

/// The operation of a card, even if the card has a fault other than an unknown operation. `None`
/// for a comment.
#[tactic(auto, unfolding(crate::specs::Statements::operation_of))]
pub fn operation_of(card: &Card) -> Option<Operation>
    ensures { result ≡ operation_of card.now }
{
    if is_comment(card) {
        return None;
    }
    operation_in(operation_field(card))
}
