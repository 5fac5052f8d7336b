//! The limits of slices.

ghost use Rattle.std.specs.Prelude.{◌≡◌};
ghost use Rattle.office.specs.Limits.{is_limit};

/// Whether a slice may have this limit.
pub fn is_limit(limit: u32) -> bool
    ensures { result ≡ is_limit limit }
{
    1 <= limit && limit <= 2_000
}
