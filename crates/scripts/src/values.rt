//! The values of the words of a line.

ghost use Rattle.std.specs.Prelude.{◌≡◌, ◌≢◌, ◌≤◌, ℕ, IfOk, IfSome, IfNone, decimal, string_bytes};
ghost use Rattle.units.specs.declared.Switches.{Switches};
ghost use Rattle.texts.specs.{Numbers.{IsNumberOf}, Switches.{AreSwitchesOf}};
ghost use Rattle.scripts.specs.Texts.{IsCountOf, IsKindOf, text_of};
ghost use Rattle.office.specs.declared.commands.Kind.{Kind};

use office::Kind;
use std::alloc::{AllocError, Global};
use texts::number_or_zero;
use units::Switches;

/// The greatest number of cards of a submission.
const MOST_CARDS: u32 = 2_000;

/// The text of a word.
fn text_of(word: &[u8]) -> &str
    ensures { result.now ≡ text_of word.now }
{
    match str::from_utf8(word) {
        Ok(text) => text,
        Err(_) => "",
    }
}

/// The customer's name in a word.
pub(crate) fn customer_of(alloc: Global, word: &[u8]) -> Result<String, AllocError>
    ensures { IfOk result (λ customer. string_bytes customer ≡ text_of word.now) }
{
    String::from_str(alloc, text_of(word))
}

/// The number in a word, or 0 if the word is not one.
pub(crate) fn number_of(word: &[u8]) -> u32
    ensures { IsNumberOf (text_of word.now) result }
{
    number_or_zero(text_of(word))
}

/// The switches in a word.
pub(crate) fn switches_of(word: &[u8]) -> Option<Switches>
    ensures some { IfSome result (AreSwitchesOf (text_of word.now)) }
    ensures none { IfNone result ((switches : Switches) → ¬ AreSwitchesOf (text_of word.now) switches) }
{
    texts::switches_of(text_of(word))
}

/// The kind of a deck in a word.
pub(crate) fn kind_of(word: &[u8]) -> Option<Kind>
    ensures some { IfSome result (IsKindOf word.now) }
    ensures none { IfNone result ((kind : Kind) → ¬ IsKindOf word.now kind) }
{
    match word {
        b"object" => Some(Kind::Object),
        b"autocoder" => Some(Kind::Autocoder),
        _ => None,
    }
}

/// The count of cards in a word: 0 to 2,000 in plain decimal.
pub(crate) fn count_of(word: &[u8]) -> Option<usize>
    ensures some { IfSome result (IsCountOf word.now) }
    ensures none { IfNone result ((count : ℕ) → ¬ IsCountOf word.now count) }
{
    if word == b"0".as_slice() {
        return Some(0);
    }
    let number = number_of(word);
    if number == 0 || number > MOST_CARDS {
        return None;
    }
    Some(number as usize)
}
