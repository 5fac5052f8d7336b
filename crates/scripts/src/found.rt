//! A command and the bytes after it.

use office::Command;

/// The first command of some bytes.
#[derive(Drop)]
pub(crate) struct Found<'a> {
    pub(crate) command: Command,
    /// The number of its lines.
    pub(crate) lines: usize,
    /// The bytes after it.
    pub(crate) rest: &'a [u8],
}
