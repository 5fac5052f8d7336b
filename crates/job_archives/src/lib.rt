//! What is kept beside a bureau's file: the archive of a job, the list of jobs, and a copy of the
//! file.
//!
//! `job_checks` runs a job again, and finds that its rows are those that it makes. [`bag_of`]
//! returns the bag of such a job: in `data/` its decks, what it has printed and punched, and a
//! record with the digests of these, and beside it the files that BagIt asks for. The contract for
//! the layer above: each file's bytes are those that a definition gives for the job
//! (`specs/Archives.antt`, `specs/Records.antt`, `specs/Bags.antt`), and what they hold can be read
//! back: the cards ([`archives_are_read`]), and the whole job ([`archives_are_whole`]). [`page_of`]
//! returns the page of such a job, to look at in a browser (`specs/Pages.antt`).
//!
//! [`run_archived`] runs a job again from two files of its archive alone, and returns it only if its
//! archive has these two files (`specs/Reruns.antt`). [`stretch_script`] and [`flag_script`] return
//! the commands that hand it in again (`specs/Restoring.antt`).
//!
//! [`list_jobs`] returns the list of a bureau's jobs: the text that a definition gives for the
//! office that the tables stand for (`specs/Lists.antt`), and what a crash may leave of the store
//! stands for that office whatever it returns.
//!
//! [`compare_files`] compares a bureau's file with a copy of it, or of the part that some
//! [`Customers`] have, both of them open: the rows of all tables, those of one job at a time, and
//! tells a table that is not the same. If there is none, the copy stands for that part of each
//! office for which the file stands. [`compare_join`] does so with a file that is made of two
//! others. [`copy_jobs`] fills such a file; [`first_unknown`] and [`first_shared`] say who has
//! jobs.
#![tactic(auto)]

mod archives;
mod bags;
mod comparing;
mod customers;
mod filling;
mod joins;
mod laws;
mod lines;
mod listing;
mod names;
mod own_schema;
mod owners;
mod pages;
mod punched;
mod record_texts;
mod records;
mod rerun;
mod restoring;
mod rows;

pub use archives::{Archive, BagFile, files_of};
pub use bags::{Bag, bag_of};
pub use comparing::{Compared, compare_files};
pub use customers::Customers;
pub use filling::copy_jobs;
pub use joins::compare_join;
pub use laws::{archives_are_read, archives_are_whole, joins_keep_customers, parts_keep_customers};
pub use listing::list_jobs;
pub use own_schema::own_connection;
pub use owners::{first_shared, first_unknown};
pub use pages::page_of;
pub use record_texts::RecordPart;
pub use rerun::{Unrun, run_archived};
pub use restoring::{flag_script, parts_of, stretch_script};
