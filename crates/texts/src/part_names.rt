//! The names of files that are not whole yet.

ghost use Rattle.std.specs.Prelude.{◌≡◌, IfOk, string_bytes};
ghost use Rattle.texts.specs.PartNames.{part_name};

use std::alloc::{AllocError, Global};

/// The most names that are tried for a file that is not whole yet.
pub const MOST_PARTS: u16 = 1000;

/// Returns the name of a file that is not whole yet, beside a path: `PATH.N.part`. Fails only if
/// there is no memory.
#[tactic(auto, unfolding(crate::specs::PartNames::part_name))]
pub fn part_name(alloc: Global, path: &str, number: u16) -> Result<String, AllocError>
    ensures { IfOk result (λ name. string_bytes name ≡ part_name path.now number) }
{
    let name = format!(in alloc; "{path}.{number}.part")?;
    Ok(name)
}
