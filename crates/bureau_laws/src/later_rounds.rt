//! The law of repeats over rounds.

ghost use Rattle.std.specs.Prelude.{◌≡◌, ◌⊎◌, ◌++◌, ◌∷◌, ℕ, List};
ghost use Rattle.office.specs.{
  Office.{Office, take, fold},
  declared.commands.Command.{Command},
  declared.replies.Reply.{Reply},
};
ghost use Rattle.bureau_laws.specs.{
  Repeats.{IsRepeatOf, IsNumberTaken, IsLastPlaceTaken},
  KeptRounds.{KeptRound, IsChain, Answer, answers_in, IsTakenAlready},
};

use office::submissions_repeat;

/// The law of repeats over rounds: a submission that was taken gets the same reply when it comes
/// again, later in its round or in any later round, and then changes nothing. The same holds in any
/// later round if it was kept and its reply was lost.
///
/// If it would have been taken, the repeat gets that reply in any later round, whether the first
/// was kept or not, unless meanwhile a job with other contents took its number, or other jobs the
/// last of its customer's places.
pub fn repeats_in_later_rounds()
    ensures replied { (office : Office) (chain : List KeptRound) → IsChain office chain →
        (earlier between later : List Answer) (first again : Answer) (cards : ℕ) →
        answers_in chain ≡ earlier ++ first ∷ (between ++ again ∷ later) →
        IsRepeatOf first.command again.command → first.reply ≡ Reply.Taken cards →
        IsTakenAlready again cards }
    ensures kept { (office : Office) (earlier later : List KeptRound) (round : KeptRound) →
        IsChain office (earlier ++ round ∷ later) →
        (sooner more : List Command) (first : Command) (cards : ℕ) →
        round.kept ≡ sooner ++ first ∷ more →
        (take first (fold sooner round.office).0).1 ≡ Reply.Taken cards →
        (before after : List Answer) (again : Answer) →
        answers_in later ≡ before ++ again ∷ after → IsRepeatOf first again.command →
        IsTakenAlready again cards }
    ensures given { (office : Office) (earlier later : List KeptRound) (round : KeptRound) →
        IsChain office (earlier ++ round ∷ later) →
        (sooner more : List Command) (first : Command) (cards : ℕ) →
        round.round.given ≡ sooner ++ first ∷ more →
        let then = (fold sooner round.office).0 in
        (take first then).1 ≡ Reply.Taken cards → (before after : List Answer) (again : Answer) →
        answers_in later ≡ before ++ again ∷ after → IsRepeatOf first again.command →
        (again.reply ≡ Reply.Taken cards)
        ⊎ (IsNumberTaken first then again.before ⊎ IsLastPlaceTaken first then again.before) }
{
    // A law, for the proof: it does nothing.
    submissions_repeat();
}
