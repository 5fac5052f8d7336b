//! The statement in a storage.

ghost use Rattle.std.specs.Prelude.{◌≡◌, ◌<◌, ◌≤◌, ◌+◌, length, take, IfSome};
ghost use Rattle.core_store.specs.Storage.{codes_from};
ghost use Rattle.disassembly.specs.Storage.{statement_at};

use crate::statements::{Statement, statement_of};
use bcd::Code;
use check_causes::word_length;
use core_store::Core;

/// The greatest number of characters of an instruction.
const LONGEST: usize = 8;

/// The characters from a position on, blanks behind them.
pub(crate) fn codes_from<C: Core>(core: &C, first: u16, count: u16) -> [Code; LONGEST]
    requires most { count ≤ 8 }
    requires inside { first + count ≤ length (C.cells core.now) }
    ensures { take count result ≡ codes_from (C.cells core.now) first count }
{
    let mut codes = [Code::blank(); LONGEST];
    for place in 0..count {
        codes[place as usize] = core.get_after(first, place);
    }
    codes
}

/// Returns the statement that has the characters of the instruction at a position, if one begins
/// and ends there and it has one.
#[tactic(auto, unfolding(crate::specs::Storage::statement_at, machine::specs::Word::word))]
pub fn statement_at<C: Core>(core: &C, i: u16) -> Option<Statement>
    ensures { result ≡ statement_at (C.cells core.now) i }
{
    let count = word_length(core, i)?;
    let codes = codes_from(core, i, count);
    statement_of(&codes[..count as usize])
}
