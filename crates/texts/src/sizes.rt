//! Sizes of storage as texts.

ghost use Rattle.std.specs.Prelude.{◌≡◌, ◌≢◌, IfSome, IfNone, decimal};
ghost use Rattle.core_store.specs.{Storage.{positions_of}, declared.sizes.Size.{Size}};

use crate::numbers::number_of;
use core_store::Size;

/// The size whose number of positions the text spells in plain decimal, if there is one.
pub fn size_of(text: &str) -> Option<Size>
    ensures some { IfSome result (λ size. text.now ≡ decimal (positions_of size)) }
    ensures none { IfNone result ((size : Size) → text.now ≢ decimal (positions_of size)) }
{
    let Some(number) = number_of(text) else {
        return None;
    };
    Size::of_positions(number)
}
