//! Which tables represent an office (`specs/Standing.antt`), for `ledger`, which keeps them so, and for
//! `job_checks`, which looks whether they do.
#![tactic(auto)]
