//! The verdict on a head.

use crate::targets::Target;

/// The verdict on the head of a request.
#[derive(Clone, Copy)]
pub enum Verdict<'a> {
    /// It is refused with this status alone, given as its number.
    Refused(u16),
    /// It asks for this.
    Asks {
        asked: Target<'a>,
        /// The number of bytes of the body.
        count: u32,
        /// The beginning of the body: the bytes after the head that were read with it.
        begun: &'a [u8],
    },
}
