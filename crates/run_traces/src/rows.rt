//! How storage is shown, in rows of fifty positions.

ghost use Rattle.std.specs.{
  Prelude.{◌≡◌, ◌+◌, ◌-◌, ◌*◌, ◌<◌, ◌≤◌, ◌++◌, ◌==◌, length, map, IfOk, OnOk},
  List.{list_all},
};
ghost use Rattle.core_store.specs.Storage.{codes_from, largest_size, marks_from};
ghost use Rattle.run_traces.specs.Rows.{blank_shown, has_mark, is_blank_at, is_blank_row, mark_shown, marks_shown, row_length, row_lines, row_shown, rows_shown};

use autocoder::{push_glyphs, push_line, push_number};
use bcd::Code;
use core_store::Core;
use std::alloc::{AllocError, Global};

/// The number of positions of a row.
pub(crate) const ROW_LENGTH: u16 = 50;

/// The characters and word marks of a row.
#[derive(Drop)]
struct Row {
    codes: Vec<Code>,
    marks: Vec<bool>,
}

/// Whether some of these are marked.
fn has_mark(marks: &[bool]) -> bool
    ensures { result ≡ has_mark marks.now }
{
    marks.iter().any(|marked| *marked)
}

/// Whether all characters are blank.
fn are_blank(codes: &[Code]) -> bool
    ensures { result ≡ list_all (λ code. code == 0) codes.now }
{
    codes.iter().all(|code| code.number() == 0)
}

/// What stands under a character.
fn mark_shown(marked: bool) -> u8
    ensures { result ≡ mark_shown marked }
{
    if marked { b'\'' } else { b' ' }
}

impl Row {
    /// The row of storage that begins at a position.
    #[tactic(auto, using(crate::proofs::RowLemmas::codes_begin, crate::proofs::RowLemmas::codes_on, crate::proofs::RowLemmas::marks_begin, crate::proofs::RowLemmas::marks_on))]
    fn at<C: Core>(alloc: Global, core: &C, first: u16) -> Result<Row, AllocError>
        requires within { first + row_length ≤ length (C.cells core.now) }
        requires below { first + row_length ≤ largest_size }
        ensures codes { IfOk result (λ row.
            row.codes.items ≡ codes_from (C.cells core.now) first row_length) }
        ensures marks { IfOk result (λ row.
            row.marks.items ≡ marks_from (C.cells core.now) first row_length) }
    {
        let mut codes = Vec::new(alloc);
        let mut marks = Vec::new(alloc);
        for place in 0..ROW_LENGTH {
            codes.push(core.get_after(first, place))?;
            marks.push(core.is_marked(first + place))?;
        }
        Ok(Row { codes, marks })
    }

    /// Whether the row is blank and without a mark.
    fn is_blank(&self) -> bool
        ensures { result ≡ is_blank_row self.now.codes.items self.now.marks.items }
    {
        are_blank(&self.codes) && !has_mark(&self.marks)
    }
}

/// Adds what stands under the characters of a row.
fn push_marks(line: &mut Vec<u8>, marks: &[bool]) -> Result<(), AllocError>
    ensures { OnOk result (line.new.items ≡ line.old.items ++ map mark_shown marks.now) }
{
    for marked in marks {
        line.push(mark_shown(*marked))?;
    }
    Ok(())
}

/// Adds the line under a row, if it has a mark.
fn push_marks_line(alloc: Global, text: &mut Vec<u8>, marks: &[bool]) -> Result<(), AllocError>
    ensures { OnOk result (text.new.items ≡ text.old.items ++ marks_shown marks.now) }
{
    if !has_mark(marks) {
        return Ok(());
    }
    let mut line = Vec::new(alloc);
    line.extend_from_slice(b"      ")?;
    push_marks(&mut line, marks)?;
    push_line(text, &line)
}

impl Row {
    /// Adds the lines of the row, which begins at a position.
    fn push_lines(&self, alloc: Global, text: &mut Vec<u8>, position: u16) -> Result<(), AllocError>
        ensures { OnOk result (text.new.items ≡ text.old.items
            ++ row_lines position self.now.codes.items self.now.marks.items) }
    {
        let mut line = Vec::new(alloc);
        push_number(&mut line, b'0', 5, u64::from(position))?;
        line.push(b' ')?;
        push_glyphs(&mut line, &self.codes)?;
        push_line(text, &line)?;
        push_marks_line(alloc, text, &self.marks)
    }
}

/// Adds what is shown of a row that is blank and without a mark.
fn push_blank(text: &mut Vec<u8>, follows: bool) -> Result<(), AllocError>
    ensures { OnOk result (text.new.items ≡ text.old.items ++ blank_shown follows) }
{
    if follows {
        return Ok(());
    }
    text.extend_from_slice(b"(blank)\n")
}

/// Adds what is shown of a row of storage. Returns whether it is blank and without a mark.
#[tactic(auto, unfolding(crate::specs::Rows::row_shown))]
fn push_row<C: Core>(
    alloc: Global,
    text: &mut Vec<u8>,
    core: &C,
    follows: bool,
    row: u16,
) -> Result<bool, AllocError>
    requires within { row_length * row + row_length ≤ length (C.cells core.now) }
    requires below { row_length * row + row_length ≤ largest_size }
    ensures text { OnOk result (text.new.items
        ≡ text.old.items ++ row_shown (C.cells core.now) follows row) }
    ensures blank { IfOk result (λ is_blank. is_blank ≡ is_blank_at (C.cells core.now) row) }
{
    let position = ROW_LENGTH * row;
    let shown = Row::at(alloc, core, position)?;
    if shown.is_blank() {
        push_blank(text, follows)?;
        return Ok(true);
    }
    shown.push_lines(alloc, text, position)?;
    Ok(false)
}

/// Adds what is shown of the rows of storage from `first` up to but not including `end`.
pub(crate) fn push_rows<C: Core>(
    alloc: Global,
    text: &mut Vec<u8>,
    core: &C,
    first: u16,
    end: u16,
) -> Result<(), AllocError>
    requires { row_length * end ≤ length (C.cells core.now) }
    ensures { OnOk result (text.new.items
        ≡ text.old.items ++ rows_shown (C.cells core.now) first (end - first)) }
{
    let _size = core.size();
    if first >= end {
        return Ok(());
    }
    let mut follows = false;
    for row in first..end {
        follows = push_row(alloc, text, core, follows, row)?;
    }
    Ok(())
}
