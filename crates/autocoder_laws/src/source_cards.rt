//! The law of cards.

ghost use Rattle.std.specs.Prelude.{◌≡◌, ◌↔◌, length, Ok, IsErr};
ghost use Rattle.cards.specs.declared.decks.Card.{Card};
ghost use Rattle.autocoder_statements.specs.{
  Statements.{statement_on},
  declared.reading.Statement.{Statement},
};
ghost use Rattle.autocoder_laws.specs.Cards.{IsCard};

/// The law of cards: a card on which a statement is spelled is read as that statement, and a card
/// that is read as a statement spells it. So a card says one thing at most, and it has a fault
/// exactly where it spells nothing.
pub fn cards_are_read()
    ensures read { (said : Statement) (card : Card) → IsCard said card →
        statement_on card ≡ Ok said }
    ensures spelled { (said : Statement) (card : Card) → length card.0 ≡ 80 →
        statement_on card ≡ Ok said → IsCard said card }
    ensures one { (one other : Statement) (card : Card) → IsCard one card → IsCard other card →
        one ≡ other }
    ensures faulty { (card : Card) → length card.0 ≡ 80 →
        IsErr (statement_on card) ↔ ((said : Statement) → IsCard said card → ⊥) }
{}
