//! What a job was granted and has made, in words.

ghost use Rattle.std.specs.Prelude.{◌≡◌, ◌++◌, codes, decimal, OnOk};
ghost use Rattle.texts.specs.Made.{flag_words, if_set, made_words};

use crate::numbers::push_decimal;
use std::alloc::AllocError;

/// What a job was granted and has made, and its flags.
#[derive(Clone, Copy)]
pub struct Made {
    /// The instructions granted, over all stretches.
    pub granted: u32,
    /// The number of cards punched.
    pub cards: u32,
    /// The number of lines printed.
    pub lines: u32,
    /// Whether the job is held.
    pub held: bool,
    /// Whether what it made was collected.
    pub collected: bool,
}

/// Adds words if a flag is set.
fn push_if(out: &mut Vec<u8>, flag: bool, words: &str) -> Result<(), AllocError>
    ensures { OnOk result (out.new.items ≡ out.old.items ++ if_set flag words.now) }
{
    if flag {
        return out.extend_from_slice(words.as_bytes());
    }
    Ok(())
}

/// Adds words and a number after them.
fn push_counted(out: &mut Vec<u8>, words: &str, number: u32) -> Result<(), AllocError>
    ensures { OnOk result (out.new.items ≡ out.old.items ++ words.now ++ decimal number) }
{
    out.extend_from_slice(words.as_bytes())?;
    push_decimal(out, number as usize)
}

/// Adds a job's flags.
#[tactic(auto, unfolding(crate::specs::Made::flag_words))]
fn push_flags(out: &mut Vec<u8>, made: Made) -> Result<(), AllocError>
    ensures { OnOk result (out.new.items ≡ out.old.items ++ flag_words made) }
{
    push_if(out, made.held, " held")?;
    push_if(out, made.collected, " collected")
}

/// Adds, behind the words of a job's standing, what the job was granted and has made, and its
/// flags. Fails if there is no memory.
#[tactic(auto, unfolding(crate::specs::Made::made_words))]
pub fn push_made(out: &mut Vec<u8>, made: Made) -> Result<(), AllocError>
    ensures { OnOk result (out.new.items ≡ out.old.items ++ made_words made) }
{
    push_counted(out, " granted ", made.granted)?;
    push_counted(out, " cards ", made.cards)?;
    push_counted(out, " lines ", made.lines)?;
    push_flags(out, made)
}
