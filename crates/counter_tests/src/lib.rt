//! Tests of the counter that no file shows: requests, scripts, runs and assemblies whose readers
//! and writers give and take little, or fail; a bureau whose store failed; two connections; each
//! row of words; and each command on a job.
//!
//! Further tests show bodies, answers and lines that a program gives only if memory or the store
//! fails, and punches that are not a character. Requests, scripts, runs and their answers are in
//! `cases/`.
#![tactic(auto)]

#[cfg(test)]
mod assemblies;
#[cfg(test)]
mod broken;
#[cfg(test)]
mod deck_runs;
#[cfg(test)]
mod decks;
#[cfg(test)]
mod devices;
#[cfg(test)]
mod doors;
#[cfg(test)]
mod fixed_answers;
#[cfg(test)]
mod job_replies;
#[cfg(test)]
mod jobs;
#[cfg(test)]
mod punches;
#[cfg(test)]
mod request_bodies;
#[cfg(test)]
mod requests;
#[cfg(test)]
mod script_ends;
#[cfg(test)]
mod script_lines;
#[cfg(test)]
mod served;
#[cfg(test)]
mod submissions;
#[cfg(test)]
mod told;
#[cfg(test)]
mod word_rows;
