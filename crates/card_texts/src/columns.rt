//! The columns of a card that a line fills.

ghost use Rattle.std.specs.Prelude.{◌≡◌, ◌<◌, ◌≤◌, ◌+◌, max, ◌++◌, ◌∷◌, [], length, vec_len, OnOk};
ghost use Rattle.card_texts.specs.{
  Faults.{is_bare},
  Columns.{behind, behind_tab, columns_from, columns_of, filled_up, is_spread, kept_of},
};

use crate::rules::Rules;
use std::alloc::AllocError;

const BLANK: u8 = b' ';

const TAB: u8 = b'\t';
/// The number of columns of a card.
pub(crate) const COLUMNS: usize = 80;

impl Rules {
    /// Whether a byte is a tab that goes on at a column.
    pub(crate) fn is_spread(&self, byte: u8) -> bool
        ensures { result ≡ is_spread self.now byte }
    {
        byte == TAB && !self.tabs.is_empty()
    }

    /// Whether a byte leaves its columns blank.
    pub(crate) fn is_bare(&self, byte: u8) -> bool
        ensures { result ≡ is_bare self.now byte }
    {
        self.is_spread(byte) || byte == BLANK
    }

    /// How many columns are filled behind a tab after so many.
    #[tactic(auto, unfolding(crate::specs::Columns::behind_tab))]
    pub(crate) fn behind_tab(&self, filled: usize) -> usize
        requires { filled < usize.MAX }
        ensures behind { result ≡ behind_tab self.now.tabs.items filled }
        ensures more { filled < result }
        ensures bound { result ≤ max (filled + 1) 255 }
    {
        for &stop in self.tabs.iter() {
            if filled + 1 < stop as usize {
                return stop as usize - 1;
            }
        }
        filled + 1
    }

    /// How many columns are filled behind a byte after so many.
    pub(crate) fn behind(&self, filled: usize, byte: u8) -> usize
        requires { filled < usize.MAX }
        ensures behind { result ≡ behind self.now filled byte }
        ensures bound { result ≤ max (filled + 1) 255 }
    {
        if self.is_spread(byte) {
            self.behind_tab(filled)
        } else {
            filled + 1
        }
    }
}

/// Adds the columns that a byte fills.
fn push_columns(columns: &mut Vec<u8>, rules: &Rules, byte: u8) -> Result<(), AllocError>
    ensures { OnOk result (columns.new.items
        ≡ columns.old.items ++ columns_of rules.now (length columns.old.items) byte) }
{
    if rules.is_spread(byte) {
        let behind = rules.behind_tab(columns.len());
        columns.resize(behind, BLANK)?;
        return Ok(());
    }
    columns.push(rules.glyph(byte))?;
    Ok(())
}

/// Fills an emptied list with the columns of a line.
pub(crate) fn spread(columns: &mut Vec<u8>, rules: &Rules, line: &[u8]) -> Result<(), AllocError>
    ensures { OnOk result (columns.new.items ≡ columns_from rules.now 0 line.now) }
{
    columns.clear();
    for &byte in line {
        push_columns(columns, rules, byte)?;
    }
    Ok(())
}

/// Cuts columns behind the last one that is looked at.
fn cut(columns: &mut Vec<u8>, keeps: Option<u8>)
    ensures { columns.new.items ≡ kept_of keeps columns.old.items }
{
    if let Some(last) = keeps {
        columns.truncate(last as usize);
    }
}

/// Fills an emptied list with the 80 columns of a line's card.
#[tactic(auto, using(crate::proofs::ColumnLemmas::filled_to_80))]
pub(crate) fn fill_up(columns: &mut Vec<u8>, rules: &Rules, line: &[u8]) -> Result<(), AllocError>
    ensures { OnOk result (columns.new.items ≡ filled_up rules.now line.now) }
{
    spread(columns, rules, line)?;
    cut(columns, rules.keeps);
    columns.resize(COLUMNS, BLANK)?;
    Ok(())
}
