//! Worked examples of the assembler that no file shows: what single cards say, listings with code,
//! and one program from its source to its deck. All others are in `cases/assemblies`, which the
//! program assembles.
//!
//! The crate is above the crates that it shows, so that these are proved without their tests. Cards
//! are written as on a coding sheet, a line for each, and helpers return plain texts and numbers.
#![tactic(auto)]

#[cfg(test)]
mod code_listings;
#[cfg(test)]
mod coding_sheets;
#[cfg(test)]
mod loading_cards;
#[cfg(test)]
mod statement_cards;
