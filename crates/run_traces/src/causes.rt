//! The cause of a check, behind its name.

ghost use Rattle.std.specs.Prelude.{◌≡◌, ◌++◌, OnOk};
ghost use Rattle.run_traces.specs.Causes.{cause_shown};

use check_causes::Cause;
use std::alloc::{AllocError, Global};

/// Adds what follows the name of a check.
pub(crate) fn push_cause(
    alloc: Global,
    line: &mut Vec<u8>,
    cause: Option<Cause>,
) -> Result<(), AllocError>
    ensures { OnOk result (line.new.items ≡ line.old.items ++ cause_shown cause) }
{
    let Some(cause) = cause else {
        return Ok(());
    };
    let words = format!(in alloc; ": {cause}")?;
    line.extend_from_slice(words.as_bytes())
}
