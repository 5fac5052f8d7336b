//! The rows of a table of how customers' jobs stand.

ghost use Rattle.std.specs.Prelude.{◌≡◌, ◌++◌, [], codes, decimal, replicate, if◌then◌else◌, IfOk, OnOk};
ghost use Rattle.queue_rounds.specs.{
  Standings.{stands},
  Tables.{count_cells, counts_of, left_in, number_cell, page_row_of, right_in, row_of, standing_words, text_cell},
};

use crate::standings::Standing;
use std::alloc::{AllocError, Global};
use texts::{push_decimal, push_number_between};

/// A row of the table: a job, and how it stands.
#[derive(Clone, Copy)]
pub struct JobRow<'a> {
    /// The job's customer.
    pub customer: &'a str,
    /// The job's number.
    pub number: u32,
    /// How it stands.
    pub standing: &'a Standing,
}

/// Adds so many blanks.
fn push_blanks(text: &mut Vec<u8>, count: usize) -> Result<(), AllocError>
    ensures { OnOk result (text.new.items ≡ text.old.items ++ replicate count 32) }
{
    for _blank in 0..count {
        text.push(b' ')?;
    }
    Ok(())
}

/// Adds a text and behind it blanks up to a width.
fn push_left(text: &mut Vec<u8>, width: usize, words: &[u8]) -> Result<(), AllocError>
    ensures { OnOk result (text.new.items ≡ text.old.items ++ left_in width words.now) }
{
    text.extend_from_slice(words)?;
    push_blanks(text, width.saturating_sub(words.len()))
}

/// The digits of a number.
fn digits_of(alloc: Global, number: u32) -> Result<Vec<u8>, AllocError>
    ensures { IfOk result (λ digits. digits.items ≡ decimal number) }
{
    let mut digits = Vec::new(alloc);
    push_decimal(&mut digits, number as usize)?;
    Ok(digits)
}

/// Adds a number, before it blanks up to a width.
#[tactic(auto, unfolding(crate::specs::Tables::right_in))]
fn push_right(
    alloc: Global,
    text: &mut Vec<u8>,
    width: usize,
    number: u32,
) -> Result<(), AllocError>
    ensures { OnOk result (text.new.items ≡ text.old.items ++ right_in width number) }
{
    let digits = digits_of(alloc, number)?;
    push_blanks(text, width.saturating_sub(digits.len()))?;
    text.extend_from_slice(&digits)
}

/// Adds words if a flag is set.
fn push_if(text: &mut Vec<u8>, flag: bool, words: &str) -> Result<(), AllocError>
    ensures { OnOk result
        (text.new.items ≡ text.old.items ++ (if flag then words.now else [])) }
{
    if flag {
        return text.extend_from_slice(words.as_bytes());
    }
    Ok(())
}

/// Adds how a job stands, in words.
#[tactic(auto, unfolding(crate::specs::Tables::standing_words))]
fn push_standing(text: &mut Vec<u8>, standing: &Standing) -> Result<(), AllocError>
    ensures { OnOk result
        (text.new.items ≡ text.old.items ++ standing_words (stands standing.now)) }
{
    text.extend_from_slice(standing.standing.as_bytes())?;
    push_if(text, standing.held, " held")?;
    push_if(text, standing.collected, " collected")
}

/// Adds the counts of a job, one below the other.
#[tactic(auto, unfolding(crate::specs::Tables::counts_of))]
fn push_counts(alloc: Global, text: &mut Vec<u8>, standing: &Standing) -> Result<(), AllocError>
    ensures { OnOk result
        (text.new.items ≡ text.old.items ++ counts_of (stands standing.now)) }
{
    push_right(alloc, text, 13, standing.granted)?;
    push_right(alloc, text, 8, standing.cards)?;
    push_right(alloc, text, 8, standing.lines)
}

/// Adds the end of a row: how its job stands.
fn push_row_end(text: &mut Vec<u8>, standing: &Standing) -> Result<(), AllocError>
    ensures { OnOk result (text.new.items ≡ text.old.items
        ++ codes "  " ++ standing_words (stands standing.now) ++ codes "\n") }
{
    text.extend_from_slice(b"  ")?;
    push_standing(text, standing)?;
    text.extend_from_slice(b"\n")
}

/// Adds the row of a job in the table on a terminal. Fails only if there is no memory.
pub fn push_row(alloc: Global, text: &mut Vec<u8>, row: JobRow<'_>) -> Result<(), AllocError>
    ensures { OnOk result (text.new.items ≡ text.old.items
        ++ row_of row.entry.customer.now row.entry.number (stands row.entry.standing.now)) }
{
    push_left(text, 12, row.customer.as_bytes())?;
    push_right(alloc, text, 8, row.number)?;
    push_counts(alloc, text, row.standing)?;
    push_row_end(text, row.standing)
}

/// Adds a cell of a page's table that holds a number.
#[tactic(auto, unfolding(crate::specs::Tables::number_cell))]
fn push_number_cell(text: &mut Vec<u8>, number: u32) -> Result<(), AllocError>
    ensures { OnOk result (text.new.items ≡ text.old.items ++ number_cell number) }
{
    push_number_between(text, b"<td class=\"n\">", number as usize, b"</td>")
}

/// Adds a cell of a page's table that holds a text.
#[tactic(auto, unfolding(crate::specs::Tables::text_cell))]
fn push_text_cell(text: &mut Vec<u8>, words: &[u8]) -> Result<(), AllocError>
    ensures { OnOk result (text.new.items ≡ text.old.items ++ text_cell words.now) }
{
    text.extend_from_slice(b"<td>")?;
    text.extend_from_slice(words)?;
    text.extend_from_slice(b"</td>")
}

/// Adds the cells of a job's counts.
#[tactic(auto, unfolding(crate::specs::Tables::count_cells))]
fn push_count_cells(text: &mut Vec<u8>, standing: &Standing) -> Result<(), AllocError>
    ensures { OnOk result
        (text.new.items ≡ text.old.items ++ count_cells (stands standing.now)) }
{
    push_number_cell(text, standing.granted)?;
    push_number_cell(text, standing.cards)?;
    push_number_cell(text, standing.lines)
}

/// How a job stands, in words.
fn standing_text(alloc: Global, standing: &Standing) -> Result<Vec<u8>, AllocError>
    ensures { IfOk result (λ words. words.items ≡ standing_words (stands standing.now)) }
{
    let mut words = Vec::new(alloc);
    push_standing(&mut words, standing)?;
    Ok(words)
}

/// Adds the beginning of a row of a page's table: the job's name.
fn push_name_cells(text: &mut Vec<u8>, customer: &str, number: u32) -> Result<(), AllocError>
    ensures { OnOk result (text.new.items
        ≡ text.old.items ++ codes "<tr>" ++ text_cell customer.now ++ number_cell number) }
{
    text.extend_from_slice(b"<tr>")?;
    push_text_cell(text, customer.as_bytes())?;
    push_number_cell(text, number)
}

/// Adds the row of a job in the table of a page. Fails only if there is no memory.
pub fn push_page_row(alloc: Global, text: &mut Vec<u8>, row: JobRow<'_>) -> Result<(), AllocError>
    ensures { OnOk result (text.new.items ≡ text.old.items
        ++ page_row_of row.entry.customer.now row.entry.number (stands row.entry.standing.now)) }
{
    let words = standing_text(alloc, row.standing)?;
    push_name_cells(text, row.customer, row.number)?;
    push_text_cell(text, &words)?;
    push_count_cells(text, row.standing)?;
    text.extend_from_slice(b"</tr>\n")
}
