//! What the paths of the counter ask for.

use http::Method;
use office::Kind;

/// A command on a job, without its value.
#[derive(Clone, Copy)]
pub enum Verb {
    /// To run the job for a limited number of instructions.
    Slice,
    /// To start the job again.
    Start,
    /// To hold the job.
    Hold,
    /// To release the held job.
    Release,
    /// To mark the job as collected.
    Collect,
    /// To tell the standing of the job.
    Standing,
    /// To hand out the cards that the job punched.
    Cards,
    /// To hand out the cards of one pocket.
    Pocket,
    /// To hand out the lines that the job printed.
    Lines,
}

/// What a path asks for.
#[derive(Clone, Copy)]
pub enum Route {
    /// To take in a job with a deck of this kind.
    Submit(Kind),
    /// A command on a job.
    Job(Verb),
    /// The jobs of a customer.
    Jobs,
    /// The jobs that are running and not held.
    Queue,
}

/// A path: the method of its requests, and what they ask for. The method is PUT for a new job, POST
/// for a command on a job that is there, and GET for a query.
#[derive(Clone, Drop)]
pub struct Path {
    pub method: Method,
    pub route: Route,
}
