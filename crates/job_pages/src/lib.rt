//! The page of a job: what an archive files beside a deck.
//!
//! The page is one HTML file that needs no other one: what was run and how it ended, with the
//! digests of all decks and of the listing; the source with its code and its names; the listing on
//! its forms; and the punched cards. Its contract for the layer above: [`page_showing`] returns
//! exactly the page of `specs/Pages.antt` of a job that was run, as it stands. [`job_page`]
//! assembles a source, loads it and runs it as the program `bureau` does, and returns the page of
//! that, or says why there is none. [`heading_of`] returns what a source gives as its heading.
#![tactic(auto)]

mod facts;
mod headings;
mod jobs;
mod pages;
mod parts;
mod styles;

pub use headings::heading_of;
pub use pages::{JobPageError, JobShown, Subject, job_page, page_showing};
