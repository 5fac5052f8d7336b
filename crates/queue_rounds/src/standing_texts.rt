//! The texts that a bureau prints of the standing of a job.

ghost use Rattle.std.specs.{
  Prelude.{◌≡◌, ◌≢◌, ◌++◌, ℕ, List, MatchOption},
  Bool.{MatchBool},
  List.{list_any},
};
ghost use Rattle.queue_rounds.specs.StandingTexts.{IsAddress, is_standing, is_with_address};

use texts::number_up_to;

/// What stands before the address in the texts that have one.
const BEFORE_ADDRESS: [&str; 8] = [
    "halted next ",
    "check ADDRESS at ",
    "check INSTRUCTION at ",
    "check DATA at ",
    "check OVERLAP at ",
    "check READER EMPTY at ",
    "check PUNCH FULL at ",
    "check PRINTER FULL at ",
];

/// Whether a text is an address of the largest storage, with no zero in front.
#[tactic(auto, using(crate::proofs::StandingLemmas::zero_is, crate::proofs::StandingLemmas::none_is))]
fn is_address(text: &str) -> bool
    ensures { MatchBool result (IsAddress text.now) (¬ (IsAddress text.now)) }
{
    if text == "0" {
        return true;
    }
    number_up_to(text, 15_999).is_some()
}

/// What is behind these words in a text that begins with them.
fn behind<'a>(text: &'a str, words: &str) -> Option<&'a str>
    ensures { MatchOption result ((rest : List ℕ) → text.now ≢ words.now ++ rest)
        (λ rest. text.now ≡ words.now ++ rest.now) }
{
    text.strip_prefix(words)
}

/// Whether a text is these words, and behind them an address.
#[tactic(auto, using(crate::proofs::StandingLemmas::behind_is, crate::proofs::StandingLemmas::behind_none))]
fn is_with_address(text: &str, words: &str) -> bool
    ensures { result ≡ is_with_address text.now words.now }
{
    match behind(text, words) {
        Some(rest) => is_address(rest),
        None => false,
    }
}

/// Whether a text is one of these, and behind it an address.
fn is_any_with_address(text: &str, before: &[&str]) -> bool
    ensures { result ≡ list_any (λ words. is_with_address text.now words.now) before.now }
{
    for words in before {
        if is_with_address(text, words) {
            return true;
        }
    }
    false
}

/// Whether a text is what a bureau prints of a standing.
#[tactic(auto, using(crate::proofs::StandingLemmas::standing_is))]
pub(crate) fn is_standing(text: &str) -> bool
    ensures { result ≡ is_standing text.now }
{
    text == "running" || is_any_with_address(text, &BEFORE_ADDRESS)
}
