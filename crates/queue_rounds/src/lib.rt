//! Rounds: the jobs of a bureau's queue are run in turns, one slice each, and its queue is watched.
//!
//! The operator asks a bureau that is being served for its queue, gives each job of it one slice,
//! and asks again. [`read_reply`] reads a response by `httparse`, and [`outcome_of_queue`] and
//! [`outcome_of_slice`] say what a reply is, byte for byte. [`Rounds`] says what is asked for next and
//! when there is a pause or an end: a state machine whose requests are a function of the replies
//! (`specs/Rounds.antt`). Its laws:
//! each job that a round lists has exactly one slice of it ([`each_job_of_a_round_has_one_slice`]);
//! no job has more than one slice more than another ([`turns_are_fair`]); work in which no slice
//! runs pauses, and ends after ten rounds unless it is kept up
//! ([`work_in_which_no_slice_runs_ends`]); and no round is begun beyond those that are asked for
//! ([`no_more_rounds_than_asked_for`]).
//!
//! [`changes_between`] says which jobs left a queue and which came
//! ([`changes_lead_to_the_next_queue`]). [`jobs_of`] and [`standing_of`] say what a customer's jobs
//! are and how each stands, and [`push_row`] and [`push_page_row`] are the rows of a table of them.
#![tactic(auto)]

mod answers;
mod changes;
mod jobs;
mod laws;
mod replies;
mod responses;
mod rounds;
mod standing_texts;
mod standings;
mod tables;
mod turns;

pub use answers::{Ran, read_jobs, read_queue, read_ran, read_refusal};
pub use changes::{Changes, changes_between};
pub use jobs::JobName;
pub use laws::{
    changes_lead_to_the_next_queue, each_job_of_a_round_has_one_slice,
    no_more_rounds_than_asked_for, standings_are_those_printed, turns_are_fair,
    work_in_which_no_slice_runs_ends,
};
pub use replies::{
    Outcome, Passed, Reply, jobs_of, outcome_of_queue, outcome_of_slice, standing_of,
};
pub use responses::read_reply;
pub use rounds::{MOST_TRIES, Next, Rounds, Why, is_spent};
pub use standings::{Standing, read_standing};
pub use tables::{JobRow, push_page_row, push_row};
