//! What the target of a request asks for.

use office::{JobCommand, Kind};
use texts::JobName;
use units::Switches;

/// What a target asks for. A number or a size is 0 if its text is not a number.
#[derive(Clone, Copy)]
pub enum Target<'a> {
    /// To take in a job. Its deck is the body.
    Submission {
        job: JobName<'a>,
        kind: Kind,
        size: u32,
        switches: Switches,
    },
    /// A command on a job.
    Job {
        job: JobName<'a>,
        command: JobCommand,
    },
    /// The jobs of a customer.
    Jobs(&'a str),
    /// The jobs that are running and not held.
    Queue,
}
