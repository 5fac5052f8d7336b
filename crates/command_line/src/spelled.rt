//! The rows of words that the program takes.

use crate::arguments::Found;
use crate::mistakes::Mistake;
use crate::subcommands::Subcommand;

/// A row of words that the program takes.
#[derive(Drop)]
pub enum Words<'a> {
    /// No words: the program runs the deck on the standard input.
    Standard,
    /// The words that ask for the help of a subcommand, or for the whole help.
    Help(Option<Subcommand>),
    /// The word that asks for the version.
    Version,
    /// The name of a subcommand, with the values that were found after it.
    Subcommand(Subcommand, Found<'a>),
}

/// Why the program's arguments are no row of words, or could not be read.
pub type WordsFault<'a> = Mistake<'a>;
