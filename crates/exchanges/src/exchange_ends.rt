//! How an exchange ended.

use http::StatusCode;

/// How an exchange ended.
#[derive(Clone, Copy, Debug, PartialEq, Eq)]
pub enum Exchange {
    /// The writer took the whole answer, which has this status and this number of bytes.
    Answered { status: StatusCode, sent: usize },
    /// The reader failed. Nothing was carried out and nothing was written.
    ReadFailed,
    /// The writer failed, or took no more, after this number of bytes of the answer.
    WriteFailed { sent: usize },
}
