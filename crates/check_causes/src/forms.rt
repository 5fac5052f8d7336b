//! The forms of instructions.

ghost use Rattle.std.specs.Prelude.{◌≡◌, ◌≤◌, true, IsTrue};
ghost use Rattle.machine.specs.Instructions.{is_form, is_last};

use bcd::Code;
use machine::{allows, has_form};

/// Whether an instruction of so many characters has a form, and its last character is allowed.
pub(crate) fn is_instruction(first: Code, count: u16, last: Code) -> bool
    requires most { count ≤ 8 }
    ensures allowed { result ≡ is_last first count last }
    ensures formed { IsTrue result → is_form first count ≡ true }
{
    if !has_form(first, count) {
        return false;
    }
    allows(first, count, last)
}
