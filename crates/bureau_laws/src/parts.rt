//! The law of parts and joins.

ghost use Rattle.std.specs.Prelude.{◌≡◌, ◌++◌, ℕ, List, true};
ghost use Rattle.office.specs.{Office.{Office, fold}, declared.commands.Command.{Command}};
ghost use Rattle.job_archives.specs.{
  Parts.{HasNoJobs, is_among, part_of},
  declared.customers.Customers.{Customers},
};
ghost use Rattle.bureau_laws.specs.Customers.{replies_to};

use job_archives::{joins_keep_customers, parts_keep_customers};

/// The law of parts and joins: a customer gets the same replies to the same commands from a part of
/// an office that has the customer as from the whole, and from two offices joined as from the one
/// in which the customer has jobs, whatever other customers do.
pub fn parts_keep_replies()
    ensures part { (customers : Customers) (customer : List ℕ) (commands : List Command)
        (office : Office) → is_among customers customer ≡ true →
        replies_to customer commands (fold commands (part_of customers office)).1
        ≡ replies_to customer commands (fold commands office).1 }
    ensures first { (customer : List ℕ) (commands : List Command) (office more : Office) →
        HasNoJobs more customer →
        replies_to customer commands (fold commands (office ++ more)).1
        ≡ replies_to customer commands (fold commands office).1 }
    ensures second { (customer : List ℕ) (commands : List Command) (office more : Office) →
        HasNoJobs office customer →
        replies_to customer commands (fold commands (office ++ more)).1
        ≡ replies_to customer commands (fold commands more).1 }
{
    // Laws, for the proof: they do nothing.
    parts_keep_customers();
    joins_keep_customers();
}
