//! Cutting bytes in two.

ghost use Rattle.std.specs.Prelude.{◌≡◌, ◌∷◌, ◌++◌, IfSome, IfNone};
ghost use Rattle.scripts.specs.Lines.{IsWithout};

use memchr::memchr;

/// The bytes before the first one equal to `byte`, and those after it.
pub(crate) fn cut_at(byte: u8, bytes: &[u8]) -> Option<(&[u8], &[u8])>
    ensures found { IfSome result (λ cut. IsWithout byte cut.0.now
        × (bytes.now ≡ cut.0.now ++ byte ∷ cut.1.now)) }
    ensures missing { IfNone result (IsWithout byte bytes.now) }
{
    match memchr(byte, bytes) {
        Some(place) => Some((&bytes[..place], &bytes[place + 1..])),
        None => None,
    }
}
