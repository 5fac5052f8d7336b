//! The report of an Autocoder source for its author: its listing with code, or each of its faults
//! in words, with the card and a caret under the fault's place.
//!
//! The contract for the layer above: [`Report::of`] returns exactly the text of
//! `specs/Reports.antt`. Of a source without faults that is the listing with code in the width that
//! is asked for; else it has a block for each fault that `autocoder::assemble` returns, in the same
//! order, and a line with their sum ([`reports_follow_the_assembler`]). A block has the fault's
//! number and words (`specs/Words.antt`), what is known besides and the way out
//! (`specs/Hints.antt`), the card, and a caret under the place of the fault (`specs/Places.antt`).
//! Where most cards are not in their columns, that comes first. Fails only if there is no memory.
//!
//! Laws: a caret stands in the field that its fault is about
//! ([`carets_stand_in_the_field_at_fault`]); of text after a blank it stands under a character
//! behind one ([`carets_stand_behind_a_blank`]), of a wrong operand no farther than behind what can
//! be read ([`carets_stand_at_what_is_not_read`]). A name that is told as not defined is not, and
//! begins at the caret ([`names_told_are_not_defined`]). A name that is told as nearly the same is
//! defined, differs in one character, and is the only one ([`near_names_are_the_only_ones`]); so it
//! is with an operation ([`near_operations_are_the_only_ones`]). What is told as the operands of an
//! instruction are the forms in the table ([`operands_told_are_those_of_the_table`]), and where a
//! field has none of them, what is wrong is told ([`wrong_operands_are_told`]).
#![tactic(auto)]

mod blocks;
mod expected_operands;
mod field_hints;
mod hints;
mod labels;
mod laws;
mod left_out;
mod names;
mod operand_causes;
mod operand_hints;
mod operand_stops;
mod operation_hints;
mod operation_names;
mod outside_addresses;
mod overlaps;
mod pieces;
mod places;
mod reports;
mod source_columns;
mod unknown_names;
mod words;
mod wrong_labels;

pub use laws::{
    carets_stand_at_what_is_not_read, carets_stand_behind_a_blank,
    carets_stand_in_the_field_at_fault, names_told_are_not_defined, near_names_are_the_only_ones,
    near_operations_are_the_only_ones, operands_told_are_those_of_the_table,
    reports_follow_the_assembler, wrong_operands_are_told,
};
pub use names::push_name;
pub use operation_names::push_operation_name;
pub use reports::Report;
pub use words::words_of;
