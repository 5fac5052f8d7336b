//! The parts of a text between its slashes.

ghost use Rattle.std.specs.{Prelude.{◌≡◌}, List.{before_first, after_first}};
ghost use Rattle.http_messages.specs.Parts.{is_slash, part};

/// The text after its first slash, or nothing.
fn after_slash(text: &str) -> &str
    ensures { result.now ≡ after_first is_slash text.now }
{
    match text.split_once('/') {
        Some((_, after)) => after,
        None => "",
    }
}

/// The text before its first slash, or all of it.
fn before_slash(text: &str) -> &str
    ensures { result.now ≡ before_first is_slash text.now }
{
    match text.split_once('/') {
        Some((before, _)) => before,
        None => text,
    }
}

/// The part of a text with this index, from 0. After the last part all parts are empty.
#[tactic(auto, using(crate::proofs::PartLemmas::part_next, crate::proofs::PartLemmas::part_last))]
pub fn part(text: &str, place: usize) -> &str
    ensures { result.now ≡ part place text.now }
{
    let mut rest = text;
    let mut left = place;
    while left > 0 {
        rest = after_slash(rest);
        left -= 1;
    }
    before_slash(rest)
}
