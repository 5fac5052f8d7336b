//! The law of customers.

ghost use Rattle.std.specs.{Prelude.{◌≡◌, ℕ, List, map, true, false}, List.{AllByRecursion}};
ghost use Rattle.office.specs.{
  Office.{Office, own, take, fold},
  declared.commands.Command.{Command},
};
ghost use Rattle.bureau_laws.specs.{
  Customers.{names, commands_of, replies_to, own_round, own_kept, answers_to},
  KeptRounds.{KeptRound, IsChain, left_by, kept_in, answers_in},
  Headline.{Round, AreKept},
};

/// The law of customers: the replies to a customer's commands in a list are the replies to these
/// commands alone, given to the customer's own part of the office. Commands that name other
/// customers change neither that part nor any reply to the customer.
pub fn customers_are_apart()
    ensures replies { (customer : List ℕ) (commands : List Command) (office : Office) →
        replies_to customer commands (fold commands office).1
        ≡ (fold (commands_of customer commands) (own customer office)).1 }
    ensures own { (customer : List ℕ) (commands : List Command) (office : Office) →
        own customer (fold commands office).0
        ≡ (fold (commands_of customer commands) (own customer office)).0 }
    ensures others { (customer : List ℕ) (commands : List Command) (office : Office) →
        AllByRecursion (λ command. names customer command ≡ false) commands →
        own customer (fold commands office).0 ≡ own customer office }
    ensures alone { (customer : List ℕ) (command : Command) (others : List Command)
        (office : Office) → names customer command ≡ true →
        AllByRecursion (λ other. names customer other ≡ false) others →
        (take command (fold others office).0).1 ≡ (take command office).1 }
{}

/// The law of customers over rounds: where rounds are kept from an office on, a customer's commands
/// in them alone, with the replies that they got, are kept from the customer's own part of the
/// office on; what is kept of them is the customer's commands among all that are kept. At the
/// beginning of each round, before each command that was replied to and at the end, the office is
/// the customer's own part of the whole one.
pub fn customers_are_apart_in_rounds()
    ensures kept { (customer : List ℕ) (office : Office) (rounds : List Round)
        (commands : List Command) → AreKept office rounds commands →
        AreKept (own customer office) (map (own_round customer) rounds)
        (commands_of customer commands) }
    ensures chain { (customer : List ℕ) (office : Office) (chain : List KeptRound) →
        IsChain office chain → IsChain (own customer office) (map (own_kept customer) chain) }
    ensures answers { (customer : List ℕ) (chain : List KeptRound) →
        answers_in (map (own_kept customer) chain) ≡ answers_to customer (answers_in chain) }
    ensures own_parts_are_left { (customer : List ℕ) (office : Office)
        (chain : List KeptRound) → IsChain office chain →
        own customer (left_by office chain)
        ≡ (fold (commands_of customer (kept_in chain)) (own customer office)).0 }
{}
