//! The law of repeats.

ghost use Rattle.std.specs.Prelude.{◌≡◌, ◌⊎◌, ℕ, List};
ghost use Rattle.office.specs.{
  Office.{Office, take, fold},
  declared.commands.Command.{Command},
  declared.replies.Reply.{Reply},
};
ghost use Rattle.bureau_laws.specs.Repeats.{IsRepeatOf, IsNumberTaken, IsLastPlaceTaken};

use office::submissions_repeat;

/// The law of repeats: a submission that was taken gets the same reply when it comes again after
/// any further commands, and then changes nothing. If the reply was lost and the job was not kept,
/// it also gets that reply, unless meanwhile a job with other contents took the number, or other
/// jobs the last of the customer's places.
pub fn repeats_in_any_shift()
    ensures kept { (first again : Command) (commands : List Command) (office : Office)
        (cards : ℕ) → IsRepeatOf first again → (take first office).1 ≡ Reply.Taken cards →
        let later = (fold commands (take first office).0).0 in
        take again later ≡ (later, Reply.Taken cards) }
    ensures lost { (first again : Command) (commands : List Command) (office : Office)
        (cards : ℕ) → IsRepeatOf first again → (take first office).1 ≡ Reply.Taken cards →
        let later = (fold commands office).0 in
        ((take again later).1 ≡ Reply.Taken cards)
        ⊎ (IsNumberTaken first office later ⊎ IsLastPlaceTaken first office later) }
{
    submissions_repeat();
}
