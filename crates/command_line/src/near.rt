//! Texts that are nearly the same.

ghost use Rattle.std.specs.Prelude.{◌≡◌};
ghost use Rattle.command_line.specs.Near.{are_swapped, is_mended, is_near};

/// Whether two texts begin with the same two bytes in another order, and are the same behind them.
fn are_swapped(one: &[u8], other: &[u8]) -> bool
    ensures { result ≡ are_swapped one.now other.now }
{
    let [first, second, more @ ..] = one else {
        return false;
    };
    let [begin, next, rest @ ..] = other else {
        return false;
    };
    *first == *next && *second == *begin && more == rest
}

/// Whether two texts are the same but for one byte at their beginning, each given with what is
/// behind its first byte.
fn is_mended(one: &[u8], more: &[u8], other: &[u8], rest: &[u8]) -> bool
    ensures { result ≡ is_mended one.now more.now other.now rest.now }
{
    more == rest || one == rest || more == other || are_swapped(one, other)
}

/// Returns whether two texts are the same, but for one byte that is another, that one of them has
/// more, or that has changed places with the next.
#[tactic(auto, unfolding(crate::specs::Near::is_near))]
pub fn is_near(one: &[u8], other: &[u8]) -> bool
    ensures { result ≡ is_near one.now other.now }
{
    let mut left = one;
    let mut right = other;
    while let Some((&first, more)) = left.split_first() {
        let Some((&begin, rest)) = right.split_first() else {
            return more.is_empty();
        };
        if first != begin {
            return is_mended(left, more, right, rest);
        }
        left = more;
        right = rest;
    }
    right.len() <= 1
}
