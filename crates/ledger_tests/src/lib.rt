//! Tests of the bureau over disks in memory of which one fails from some call on, each call in
//! turn: commands, shifts, and older tables that are raised; what no program asks of it; and what a
//! machine is as rows. What the built program shows is in `cases/`.
#![tactic(auto)]

#[cfg(test)]
mod migrations;
#[cfg(test)]
mod old_tables;
#[cfg(test)]
mod rows;
#[cfg(test)]
mod stops;
#[cfg(test)]
mod trials;
#[cfg(test)]
mod unasked;
