//! The length of a body, as given by the header fields of a head.

/// The length of the body that a head gives.
#[derive(Clone, Copy, Debug, PartialEq, Eq)]
pub enum BodyLength {
    /// It gives none.
    Unsaid,
    /// This number of bytes.
    Bytes(u32),
    /// It gives an invalid one: more than one, or not 1 to 7 digits.
    Bad,
}
