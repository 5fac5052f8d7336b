//! Scripts: commands as lines of text, and replies as lines.
//!
//! [`read_script`] reads the bytes of a script, and [`parse`] returns its commands, or the number
//! of the first line that is not part of a command. [`write_reply`] writes the line of a reply, and
//! [`write_bad`], [`write_fault`] and [`write_refusal`] write the lines for what went wrong.
//! Writing takes no memory, and adds the number of bytes written to a count. This crate uses no
//! database.
//!
//! `specs/Commands.antt` defines the meaning of the words of a line, `specs/Scripts.antt` which
//! bytes are the script of which commands and which line is bad, and `specs/Replies.antt` the line
//! of each reply. The contract for the layer above: `parse` returns what these definitions say; a
//! line is written whole, or the writer failed and took a beginning of it.
#![tactic(auto)]

mod cuts;
mod decks;
mod faults;
mod found;
mod headings;
mod job_words;
mod meaning;
mod meanings;
mod parsing;
mod pieces;
mod reading;
mod replying;
mod sending;
mod values;
mod words;
mod write_failed;

pub use faults::ScriptFault;
pub use headings::Heading;
pub use meanings::Meaning;
pub use parsing::{MOST_BYTES, parse};
pub use reading::{ReadFault, read_script};
pub use replying::{write_bad, write_fault, write_refusal, write_reply};
pub use write_failed::WriteFailed;
