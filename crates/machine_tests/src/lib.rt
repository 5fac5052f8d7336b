//! Worked cases of the machine and of the crates below it.
//!
//! A group of cases is a sheet: a text of rows, each with an input, an arrow, and an output. A
//! `Case` maps an input to its output with each kind of storage, and a test fails at the first row
//! of its sheet that has another output. The outputs were worked out by hand from the profile; those
//! of the characters come from another program. What the program itself shows is in `cases/`.
//!
//! Each of these functions is proved safe before it runs, so a value that owns memory is made in
//! one function and used in another.
#![tactic(auto)]

#[cfg(test)]
mod addressing;
#[cfg(test)]
mod arithmetic;
#[cfg(test)]
mod characters;
#[cfg(test)]
mod cores;
#[cfg(test)]
mod decks;
#[cfg(test)]
mod draws;
#[cfg(test)]
mod effective;
#[cfg(test)]
mod listings;
#[cfg(test)]
mod machines;
#[cfg(test)]
mod moving;
#[cfg(test)]
mod runs;
#[cfg(test)]
mod sheets;
#[cfg(test)]
mod steps;
#[cfg(test)]
mod storage;
