//! Whether most cards of a source are not in their columns, and what is told of the whole source.

ghost use Rattle.std.specs.Prelude.{◌≡◌, ◌<◌, ◌≤◌, ◌-◌, ◌++◌, nat_lt, count_by, OnOk};
ghost use Rattle.autocoder_statements.specs.Statements.{is_comment};
ghost use Rattle.source_reports.specs.SourceColumns.{is_filled, is_early, is_late, begins_early, begins_late, is_off, statements, are_most, are_columns_off, way_out, notice_of};

use crate::pieces::push_text;
use autocoder_statements::{is_blank, is_comment};
use cards::{Card, LINE_FEED};
use std::alloc::AllocError;

/// Whether a column of a card is filled.
fn is_filled(column: usize, card: &Card) -> bool
    requires some { 0 < column }
    requires within { column ≤ 80 }
    ensures { result ≡ is_filled column card.now }
{
    !is_blank(card.0[column - 1])
}

/// Whether the operation of a card begins in column 15.
fn is_early(card: &Card) -> bool
    ensures { result ≡ is_early card.now }
{
    is_filled(15, card) && !is_filled(14, card)
}

/// Whether the operation of a card begins in column 17.
fn is_late(card: &Card) -> bool
    ensures { result ≡ is_late card.now }
{
    !is_filled(16, card) && is_filled(17, card)
}

/// Whether a card that is no comment has an operation that begins too early.
fn begins_early(card: &Card) -> bool
    ensures { result ≡ begins_early card.now }
{
    !is_comment(card) && is_early(card)
}

/// Whether a card that is no comment has an operation that begins too late.
fn begins_late(card: &Card) -> bool
    ensures { result ≡ begins_late card.now }
{
    !is_comment(card) && is_late(card)
}

/// Whether a card that is no comment has its operation in no column, or one off.
fn is_off(card: &Card) -> bool
    ensures { result ≡ is_off card.now }
{
    !is_comment(card) && (!is_filled(16, card) || is_early(card))
}

/// How many cards are no comments.
fn statements(source: &[Card]) -> usize
    ensures { result ≡ statements source.now }
{
    source.iter().filter(|card| !is_comment(card)).count()
}

/// How many cards have their operation in no column, or one off.
fn count_off(source: &[Card]) -> usize
    ensures { result ≡ count_by is_off source.now }
{
    source.iter().filter(|card| is_off(card)).count()
}

/// How many cards have an operation that begins too early.
fn count_early(source: &[Card]) -> usize
    ensures { result ≡ count_by begins_early source.now }
{
    source.iter().filter(|card| begins_early(card)).count()
}

/// How many cards have an operation that begins too late.
fn count_late(source: &[Card]) -> usize
    ensures { result ≡ count_by begins_late source.now }
{
    source.iter().filter(|card| begins_late(card)).count()
}

/// Whether so many of all are more than the others.
fn are_more(count: usize, all: usize) -> bool
    ensures { result ≡ nat_lt (all - count) count }
{
    all.saturating_sub(count) < count
}

/// Whether most cards of a source have no operation in its column.
#[tactic(auto, unfolding(crate::specs::SourceColumns::are_columns_off))]
pub(crate) fn are_columns_off(source: &[Card]) -> bool
    ensures { result ≡ are_columns_off source.now }
{
    are_more(count_off(source), statements(source))
}

/// Whether most operations begin too early.
fn are_early(source: &[Card]) -> bool
    ensures { result ≡ are_most begins_early source.now }
{
    are_more(count_early(source), statements(source))
}

/// Whether most operations begin too late.
fn are_late(source: &[Card]) -> bool
    ensures { result ≡ are_most begins_late source.now }
{
    are_more(count_late(source), statements(source))
}

/// The way out for a source whose cards are not in their columns.
fn way_out(source: &[Card]) -> &'static str
    ensures { result.now ≡ way_out source.now }
{
    if are_early(source) {
        return "the operations begin in column 15: move all cards one column to the right";
    }
    if are_late(source) {
        return "the operations begin in column 17: move all cards one column to the left";
    }
    "a card has its label from column 6 on, its operation from 16, its operands from 21"
}

/// Adds that the cards of a source are not in their columns, if most are not.
#[tactic(auto, unfolding(crate::specs::SourceColumns::notice_of))]
pub(crate) fn push_notice(text: &mut Vec<u8>, source: &[Card]) -> Result<(), AllocError>
    ensures { OnOk result (text.new.items ≡ text.old.items ++ notice_of source.now) }
{
    if !are_columns_off(source) {
        return Ok(());
    }
    push_text(text, way_out(source))?;
    text.push(LINE_FEED)?;
    Ok(())
}
