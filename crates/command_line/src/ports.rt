//! The numbers in the arguments of subcommands of a bureau's file.

ghost use Rattle.std.specs.Prelude.{◌≡◌, ◌≢◌, ℕ, IfSome, IfNone, decimal};
ghost use Rattle.command_line.specs.Tasks.{IsCount, IsPort};

use texts::number_up_to;

/// The number of a port, from 1 to 65535.
pub(crate) fn port_of(text: &str) -> Option<u16>
    ensures some { IfSome result (λ port. IsPort port × (text.now ≡ decimal port)) }
    ensures none { IfNone result ((port : ℕ) → IsPort port → text.now ≢ decimal port) }
{
    match number_up_to(text, 65_535) {
        Some(number) => Some(number as u16),
        None => None,
    }
}

/// The number of connections to be served, from 1 to 1,000,000.
pub(crate) fn count_of(text: &str) -> Option<u32>
    ensures some { IfSome result (λ count. IsCount count × (text.now ≡ decimal count)) }
    ensures none { IfNone result ((count : ℕ) → IsCount count → text.now ≢ decimal count) }
{
    number_up_to(text, 1_000_000)
}
