//! Cards, lines and pictures of machines as rows: machines that go on from their rows, and rows that
//! no bureau's file can have or show. All other rows, those in range and those that are not, are in
//! `cases/rows`, which are put into a bureau's file.
//!
//! Nearly all is over any kind of storage: the proof of a function that names a kind takes many
//! times as long.

mod decks;
mod machines;
mod media;
mod storages;
