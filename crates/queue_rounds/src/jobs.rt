//! The names of jobs.

/// The name of a job. Each that [`read_queue`](crate::read_queue) returns is one of a bureau's: its
/// customer has 1 to 12 capital letters and digits, and its number is from 1 to 999,999.
#[derive(Debug, Drop, PartialEq, Eq)]
pub struct JobName {
    /// Its customer.
    pub customer: String,
    /// Its number.
    pub number: u32,
}
