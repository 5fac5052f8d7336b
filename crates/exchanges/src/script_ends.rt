//! How a script ended, and its result.

use ledger::Fault;

/// How a script ended.
#[derive(Clone, Copy, Debug, PartialEq, Eq)]
pub enum ScriptEnd {
    /// Every command was replied to.
    Whole,
    /// The bytes are not a script. Nothing was applied.
    Bad,
    /// The reader failed. Nothing was applied or written.
    ReadFailed,
    /// The writer failed.
    WriteFailed,
    /// A command met a fault, or there was no memory for the script.
    Fault(Fault),
}

/// The result of a script.
#[derive(Clone, Copy, Debug, PartialEq, Eq)]
pub struct Scripted {
    /// The number of commands that the bureau replied to.
    pub acknowledged: usize,
    /// The number of bytes written, at most 2^64 - 1.
    pub sent: usize,
    /// Whether a command was refused.
    pub refused: bool,
    /// How it ended.
    pub ended: ScriptEnd,
}
