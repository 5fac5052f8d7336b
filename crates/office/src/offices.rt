//! The laws of whole offices.

ghost use Rattle.std.specs.{
  Prelude.{◌≡◌, ℕ, List},
  List.Sorted.{IsPermutation, IsStrictlySortedBy},
};
ghost use Rattle.bcd.specs.Orders.{in_order};
ghost use Rattle.office.specs.{
  Office.{Office, AreDistinct, own, free_jobs, by_number, by_name, take},
  declared.commands.Command.{Command},
  declared.replies.Reply.{Reply},
};

/// The law of lists: a customer's list is that customer's jobs, and the list of jobs that are not
/// held is those jobs, each in rising order.
pub fn lists_are_in_order()
    ensures own { (customer : List ℕ) (office : Office) →
        IsPermutation (own customer office) (in_order by_number (own customer office)) }
    ensures own_rise { (customer : List ℕ) (office : Office) → AreDistinct office →
        IsStrictlySortedBy by_number (in_order by_number (own customer office)) }
    ensures free { (office : Office) →
        IsPermutation (free_jobs office) (in_order by_name (free_jobs office)) }
    ensures free_rise { (office : Office) → AreDistinct office →
        IsStrictlySortedBy by_name (in_order by_name (free_jobs office)) }
{}

/// The law of submissions: one that was taken gets the same reply when it comes again, and then
/// changes nothing.
pub fn submissions_repeat()
    ensures { (command : Command) (office : Office) (cards : ℕ) →
        (take command office).1 ≡ Reply.Taken cards →
        take command (take command office).0 ≡ ((take command office).0, Reply.Taken cards) }
{}

/// The law of names: after any command, no two jobs have the same name.
pub fn names_stay_apart()
    ensures { (command : Command) (office : Office) → AreDistinct office →
        AreDistinct (take command office).0 }
{}
