//! The row of words that the program's arguments spell.

ghost use Rattle.std.specs.Prelude.{◌≡◌, ◌⊎◌, IfErr, IfOk, true, false};
ghost use Rattle.command_line.specs.{
  Plain.{texts},
  Programs.{IsMisread, is_clear},
  Subcommands.{bureau},
  Words.{Row, Spells, SpellsInPlace, row_as},
  declared.mistakes.Mistake.TheVariants.{Memory},
  declared.spelled.Words.{Words},
};

use crate::arguments::Found;
use crate::plain::is_clear;
use crate::programs::{Asked, asked_by, mistake_in};
use crate::spelled::{Words, WordsFault};
use crate::subcommands::{BUREAU, Subcommand};
use std::alloc::Global;

/// Returns the row of a subcommand that clap found, unless an argument may be read as an option.
fn clear_words<'a>(
    arguments: &'a [String],
    subcommand: Subcommand,
    found: Found<'a>,
) -> Result<Words<'a>, WordsFault<'a>>
    ensures ok { IfOk result (λ row. (is_clear bureau (texts arguments.entry.now) ≡ true)
        × (row ≡ Words.Subcommand subcommand found.entry)) }
    ensures err { IfErr result (λ fault. (is_clear bureau (texts arguments.entry.now) ≡ false)
        × IsMisread bureau (texts arguments.entry.now) fault) }
{
    if !is_clear(&BUREAU, arguments) {
        return Err(mistake_in(&BUREAU, arguments));
    }
    Ok(Words::Subcommand(subcommand, found))
}

/// Returns the row of words that the program's arguments spell.
///
/// # Errors
///
/// Returns what is wrong with the arguments if they spell no row, and that there is no memory if
/// they could not be read. Nothing was done then. Arguments that ask for a help or for the version
/// never fail.
pub fn words<'a>(alloc: Global, arguments: &'a [String]) -> Result<Words<'a>, WordsFault<'a>>
    ensures ok { IfOk result (λ row. Spells (texts arguments.entry.now) (row_as row)) }
    ensures err { IfErr result (λ fault. (row : Row) → Spells (texts arguments.entry.now) row
        → fault ≡ Memory) }
    ensures in_place { IfOk result (λ found. (row : Row) →
        SpellsInPlace (texts arguments.entry.now) row → row_as found ≡ row) }
    ensures never { IfErr result (λ _. (row : Row) →
        ¬ SpellsInPlace (texts arguments.entry.now) row) }
    ensures mistake { IfErr result (λ fault. (fault ≡ Memory)
        ⊎ IsMisread bureau (texts arguments.entry.now) fault) }
{
    if arguments.is_empty() {
        return Ok(Words::Standard);
    }
    match asked_by(alloc, &BUREAU, arguments) {
        Ok(Asked::Help(page)) => Ok(Words::Help(page)),
        Ok(Asked::Version) => Ok(Words::Version),
        Ok(Asked::Subcommand(subcommand, found)) => clear_words(arguments, subcommand, found),
        Err(mistake) => Err(mistake),
    }
}
