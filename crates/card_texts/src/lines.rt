//! The lines of a text.

ghost use Rattle.std.specs.Prelude.{◌≡◌, ◌<◌, ◌≤◌, ◌∷◌, [], false, true, length};
ghost use Rattle.card_texts.specs.Lines.{lines_from, without_ends, without_front};

/// Ends a line, alone or behind a carriage return.
const LINE_FEED: u8 = b'\n';
/// Ends a line, alone or before a line feed.
const CARRIAGE_RETURN: u8 = b'\r';
/// The byte by which some systems end a text.
const END: u8 = 0x1A;

/// A text without the mark that some editors put at its front.
fn after_front(text: &[u8]) -> &[u8]
    ensures body { result.now ≡ without_front text.now }
    ensures length { length result.now ≤ length text.now }
{
    match text {
        [0xEF, 0xBB, 0xBF, rest @ ..] => rest,
        _ => text,
    }
}

/// A text without the bytes by which some systems end it.
#[tactic(auto, using(crate::proofs::LineLemmas::end_passed_over, crate::proofs::LineLemmas::no_end_stays), unfolding(crate::specs::Lines::without_ends))]
fn before_ends(text: &[u8]) -> &[u8]
    ensures body { result.now ≡ without_ends text.now }
    ensures length { length result.now ≤ length text.now }
{
    let mut rest = text;
    while let Some((&byte, before)) = rest.split_last() {
        if byte != END {
            break;
        }
        rest = before;
    }
    rest
}

/// What is read of a text.
pub(crate) fn body(text: &[u8]) -> &[u8]
    ensures body { result.now ≡ without_ends (without_front text.now) }
    ensures length { length result.now ≤ length text.now }
{
    before_ends(after_front(text))
}

/// The first line of a text, and the bytes behind its end.
pub(crate) fn split_line(text: &[u8]) -> (&[u8], &[u8])
    requires { 0 < length text.now }
    ensures line { lines_from false text.now ≡ result.0.now ∷ lines_from false result.1.now }
    ensures shorter { length result.1.now < length text.now }
{
    for (place, &byte) in text.iter().enumerate() {
        let behind = place + 1;
        if byte == LINE_FEED {
            return (&text[..place], &text[behind..]);
        }
        if byte == CARRIAGE_RETURN {
            return (&text[..place], after_return(&text[behind..]));
        }
    }
    (text, &[])
}

/// The bytes behind a carriage return, without a line feed that goes with it.
#[tactic(auto, unfolding(crate::specs::Lines::lines_from))]
fn after_return(text: &[u8]) -> &[u8]
    ensures lines { lines_from false result.now ≡ lines_from true text.now }
    ensures length { length result.now ≤ length text.now }
{
    match text.split_first() {
        Some((&byte, rest)) if byte == LINE_FEED => rest,
        _ => text,
    }
}
