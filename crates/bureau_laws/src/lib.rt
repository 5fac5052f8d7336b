//! The theorems of the bureau: stops lose nothing, customers are apart, a submission may be sent
//! again, bytes are one request and one script, replies are read, and each refusal has its reason.
//!
//! They are over the definitions that the program's calls are proved against.
//!
//! - **Stops lose nothing** ([`one_history`]): rounds in which a bureau's file is opened, work is
//!   done and everything stops, any number of them, each stopped at any moment. The replies of all
//!   rounds are those of one history. It is made of a beginning of the commands that were carried
//!   out in each round, and contains every command that was replied to. Each job at a halt has made
//!   the cards and lines of one uninterrupted run over its whole deck, in order, none lost and none
//!   repeated. The last files are of the office after this history, with these cards and lines in
//!   their rows ([`stops_lose_nothing`]); for files of an earlier version
//!   [`old_files_wait_for_a_migration`] says what is left. `ledger_files` proves that a file that is
//!   opened, any work with it and a stop make such a round; the program's scripts, requests and
//!   exports are such work. The file may be migrated before and between the rounds, and everything
//!   may stop there too. [`chains_lead_on`] says that the commands which are left are those kept of
//!   the rounds.
//! - **Customers are apart** ([`customers_are_apart`]): the replies to a customer's commands do not
//!   depend on any other customer; nor do they over any number of rounds
//!   ([`customers_are_apart_in_rounds`]). Nor do they depend on whether the customer's jobs are in a
//!   file of their own or with others' ([`parts_keep_replies`]).
//! - **A submission may be sent again** ([`repeats_in_any_shift`]): one that was taken gets the
//!   same reply when it comes again, after any further commands, and changes nothing then. One that
//!   would have been taken and was lost is taken when it comes later, unless meanwhile a job with
//!   other contents took its number, or other jobs the last of the customer's places. The same
//!   holds over any number of rounds ([`repeats_in_later_rounds`]).
//! - **Bytes are one request** ([`one_request`]): bytes begin with one head ([`one_head`]); they
//!   ask for something or are refused, and not both; bytes that begin with a head are refused with
//!   one status, any others with 400 or 431 ([`one_refusal`]); they ask for one thing
//!   ([`one_asking`]).
//! - **Requests end** ([`requests_end`]): a request ends where its Content-Length says. One that is
//!   cut short asks for nothing and is refused with 400, and bytes after its end do not matter.
//! - **Bytes are one script** ([`one_script`]): they are the script of one list of commands, or
//!   they have one first bad line, or they are too many.
//! - **Replies are read** ([`replies_are_read`]): the bytes of each reply of the counter are read
//!   as its status and its body, and the operator reads of them what was written: the queue, what a
//!   slice did or why it was refused, how a job stands, and that the bureau failed.
//! - **Refusals have reasons** ([`refusals_have_reasons`]): for each number with which a command on
//!   a job is refused, how the job is exactly then, and which reason is given where several hold.
#![tactic(auto)]

mod asking;
mod commands;
mod customers;
mod ends;
mod headline;
mod heads;
mod joining;
mod later_rounds;
mod parts;
mod refusals;
mod repeats;
mod replies;
mod requests;
mod rounds;

pub use asking::one_asking;
pub use commands::one_script;
pub use customers::{customers_are_apart, customers_are_apart_in_rounds};
pub use ends::requests_end;
pub use headline::{one_history, stops_lose_nothing};
pub use heads::{one_head, one_refusal};
pub use joining::two_rounds;
pub use later_rounds::repeats_in_later_rounds;
pub use parts::parts_keep_replies;
pub use refusals::refusals_have_reasons;
pub use repeats::repeats_in_any_shift;
pub use replies::replies_are_read;
pub use requests::one_request;
pub use rounds::{chains_lead_on, old_files_wait_for_a_migration};
