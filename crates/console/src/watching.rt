//! The position that is watched.

ghost use Rattle.std.specs.Prelude.{◌≡◌};
ghost use Rattle.console.specs.Goes.{cells_differ, marks_differ, watched_cell};

use core_store::Core;

/// The contents of the watched position.
pub(crate) fn watched_cell<C: Core>(watched: Option<u16>, core: &C) -> (u8, bool)
    ensures { result ≡ watched_cell watched (C.cells core.now) }
{
    let Some(position) = watched else {
        return (0, false);
    };
    if position >= core.size() {
        return (0, false);
    }
    (core.get(position).number(), core.is_marked(position))
}

/// Whether one of two has a word mark and the other has none.
fn marks_differ(before: bool, now: bool) -> bool
    ensures { result ≡ marks_differ before now }
{
    if before { !now } else { now }
}

/// Whether the contents of a position are others.
pub(crate) fn cells_differ(before: (u8, bool), now: (u8, bool)) -> bool
    ensures { result ≡ cells_differ before now }
{
    before.0 != now.0 || marks_differ(before.1, now.1)
}
