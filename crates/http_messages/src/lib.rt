//! Messages over HTTP: the request that the bytes of a reader are, and the bytes of each reply.
//!
//! [`Request::read`] reads one request, its head and then its body. The result is a status that
//! refuses it, the fault of a deck, or a command for the bureau, with its deck if it has one.
//! [`Routes`] is the table of all paths, made once. The contract for the layer above: what was read
//! is a request of all bytes that the reader had, as `specs/Requests.antt` defines it, and a status
//! that refuses it is one of six.
//!
//! From the inside out: `paths` has the thirteen paths and finds the one of a target, and `parts` the
//! texts in a target that replace a path's names. A target is routed whole: nothing in it is
//! decoded, and no query part is split off. `reading` reads a head by the grammar of `httparse`, and
//! `judging` judges it by `head_tests`: [`Head::verdict`] returns what it asks for and the length of
//! its body, or the status of the first test that it does not pass. `request_bodies` reads exactly
//! the body, and `commands` makes the command of both.
//!
//! [`reply_to`] returns the bytes of the office's reply, head and body; [`deck_fault`] returns
//! those for the fault of a deck's text. [`refusal_answer`] returns the bytes that refuse a request
//! by its status alone, and [`Fault::answer`] those of the bureau's own faults: these are fixed,
//! and take no memory. `specs/ReplyBodies.antt` defines the body of each reply, and
//! `specs/Replies.antt` its status and its head. The contract for the layer above: the bytes of a
//! reply are those of `reply_bytes` there. Bodies are made by `serde_json`; `specs/Values.antt` has
//! their members.
//!
//! Statuses are `http`'s, which also has the reason phrase of each. By [`phrases_are_standard`] these
//! are the phrases of the profile, also in the fixed answers. By [`names_stand_as_they_are`] a
//! customer's name is in the queue's body unchanged. This crate uses no database.
#![tactic(auto)]

mod answers;
mod asking;
mod commands;
mod fault;
mod fields;
mod fixed;
mod head;
mod head_tests;
mod judging;
mod laws;
mod lengths;
mod lists;
mod parts;
mod paths;
mod reading;
mod replies;
mod reply_bodies;
mod request;
mod request_bodies;
mod routes;
mod routing;
mod targets;
mod values;
mod verdicts;

pub use fault::RequestFault;
pub use fixed::{Fault, refusal_answer};
pub use head::Head;
pub use laws::{names_stand_as_they_are, phrases_are_standard};
pub use paths::router;
pub use replies::{deck_fault, reply_to, status_of};
pub use request::Request;
pub use request_bodies::{Body, read_body};
pub use routes::{Path, Route, Verb};
pub use routing::Routes;
pub use targets::Target;
pub use verdicts::Verdict;
