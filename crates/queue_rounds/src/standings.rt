//! How a job stands, as the bureau's reply tells.

ghost use Rattle.std.specs.Prelude.{◌≡◌, IfOk, option_map, string_bytes};
ghost use Rattle.serde_json.specs.View.{view};
ghost use Rattle.queue_rounds.specs.{Answers.{Tells, flag_at, standing_in}, Standings.{stands}};

use crate::answers::{number_at, read, standing_at};
use serde_json::Value;
use std::alloc::{AllocError, Global};

/// How a job stands.
#[derive(Drop)]
pub struct Standing {
    /// `running`, or where its machine stopped. It is a text that a bureau prints.
    pub standing: String,
    /// Whether it is held.
    pub held: bool,
    /// Whether it is collected.
    pub collected: bool,
    /// How many instructions it was granted.
    pub granted: u32,
    /// How many cards it has punched.
    pub cards: u32,
    /// How many lines it has printed.
    pub lines: u32,
}

/// Whether a member says true, if it says true or false.
fn flag_at(value: &Value, name: &str) -> Option<bool>
    ensures { result ≡ flag_at name.now (view value.now) }
{
    match value.get(name) {
        Some(member) => member.as_bool(),
        None => None,
    }
}

/// The standing that a value tells.
fn standing_in(alloc: Global, value: &Value) -> Result<Option<Standing>, AllocError>
    ensures { IfOk result (λ found. option_map stands found ≡ standing_in (view value.now)) }
{
    let Some(standing) = standing_at(value) else {
        return Ok(None);
    };
    let Some(held) = flag_at(value, "held") else {
        return Ok(None);
    };
    let Some(collected) = flag_at(value, "collected") else {
        return Ok(None);
    };
    let Some(granted) = number_at(value, "granted") else {
        return Ok(None);
    };
    let Some(cards) = number_at(value, "cards") else {
        return Ok(None);
    };
    let Some(lines) = number_at(value, "lines") else {
        return Ok(None);
    };
    let standing = String::from_str(alloc, standing)?;
    Ok(Some(Standing {
        standing,
        held,
        collected,
        granted,
        cards,
        lines,
    }))
}

/// Returns how a job stands that a body tells; none if it tells no standing that a bureau prints.
/// Fails only if there is no memory.
pub fn read_standing(alloc: Global, body: &[u8]) -> Result<Option<Standing>, AllocError>
    ensures { IfOk result (λ found. Tells standing_in body.now (option_map stands found)) }
{
    match read(alloc, body)? {
        Some(value) => standing_in(alloc, &value),
        None => Ok(None),
    }
}
