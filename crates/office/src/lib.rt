//! The office: jobs, the commands on them, and the replies.
//!
//! Nothing here depends on how jobs are kept. A job is its stretches, its flags and its machine;
//! [`new_job`] makes one from what a customer hands in, and [`take`] carries out any command on it.
//! A store that keeps a job in parts uses the steps of [`take`]: [`Job::drive`] carries out a slice
//! or a start on a job's machine, [`FlagCommand::on_flags`] sets flags and replies by a job's
//! summary, and [`cards_from`] selects cards. [`Job::parts`] returns the whole state of a job
//! between two calls, and [`Job::from_parts`] makes the job again from it.
//!
//! `specs/Office.antt` defines the effect of commands on the jobs of all customers. The contract
//! for the layer above: a new job and the reply to a command are those of the definitions there,
//! and without memory a job stays as it was. The laws relate what was granted in pieces to whole
//! runs.
//!
//! Further laws: no two jobs come to have one name ([`names_stay_apart`]); a submission that was
//! taken gets the same reply when it comes again, and then changes nothing
//! ([`submissions_repeat`]); what is a job stays one ([`commands_keep_jobs`]).
#![tactic(auto)]

mod beginnings;
mod commands;
mod drives;
mod flags;
mod halts;
mod jobs;
mod laws;
mod limits;
mod lists;
mod making;
mod offices;
mod refusals;
mod replies;
mod stackers;
mod stretches;
mod summaries;
mod taking;

pub use beginnings::programs_run_from_their_start;
pub use commands::{Command, Contents, JobCommand, Kind};
pub use drives::Drive;
pub use flags::{FlagCommand, NewFlags};
pub use halts::{stopped_machines_stay, whole_runs_end_alike};
pub use jobs::{Job, JobParts, ShownJob};
pub use laws::{
    commands_act_on_pictures, commands_keep_jobs, grants_are_whole_runs, halts_are_needed,
    halts_stay_between, offices_run_whole, pictures_go_on, sources_run_as_programs,
};
pub use limits::is_limit;
pub use lists::{JobLine, JobList, Listing, PunchedCards, QueueLine, QueueList, SourceFaults};
pub use making::{NewFault, new_job};
pub use offices::{lists_are_in_order, names_stay_apart, submissions_repeat};
pub use refusals::Refusal;
pub use replies::Reply;
pub use stackers::{Stacker, cards_from};
pub use stretches::{Stretch, are_stretches, granted_in};
pub use summaries::Summary;
pub use taking::take;
