//! The block of a fault, and the line of their sum.

ghost use Rattle.std.specs.Prelude.{◌≡◌, ◌++◌, slice_index_or, option_copied, OnOk};
ghost use Rattle.autocoder_layout.specs.Source.{AreInRange, IsInRange, silent};
ghost use Rattle.source_reports.specs.Blocks.{told_of, card_shown, caret_line, shown_on, block, is_fault_of_card, cards_at_fault, plural, counted, sum_line};

use crate::hints::{card_at, push_hint};
use crate::pieces::push_text;
use crate::places::place_of;
use crate::words::words_of;
use autocoder::{push_fillers, push_glyphs, push_line};
use autocoder_layout::{CardFault, Layout, Line, SourceFault};
use autocoder_statements::Statement;
use cards::{Card, LINE_FEED};
use std::alloc::{AllocError, Global};
use texts::{push_decimal, push_number_between};

/// What stands before a card that is shown.
const MARGIN: &[u8] = b"     |";

/// Adds a fault with its card, its number and its words.
#[tactic(auto, unfolding(crate::specs::Blocks::told_of))]
fn push_told(alloc: Global, text: &mut Vec<u8>, fault: CardFault) -> Result<(), AllocError>
    ensures { OnOk result (text.new.items ≡ text.old.items ++ told_of fault) }
{
    let card = fault.card;
    let number = fault.fault.number();
    let words = words_of(fault.fault);
    let told = format!(in alloc; "card {card} fault {number}: {words}")?;
    push_text(text, told.as_str())
}

/// Adds a card.
#[tactic(auto, unfolding(crate::specs::Blocks::card_shown))]
fn push_card(alloc: Global, text: &mut Vec<u8>, card: &Card) -> Result<(), AllocError>
    ensures { OnOk result (text.new.items ≡ text.old.items ++ card_shown card.now) }
{
    let mut line = Vec::from_slice(alloc, MARGIN)?;
    push_glyphs(&mut line, &card.0)?;
    push_line(text, &line)
}

/// Adds a caret under a column.
#[tactic(auto, unfolding(crate::specs::Blocks::caret_line))]
fn push_caret(text: &mut Vec<u8>, column: usize) -> Result<(), AllocError>
    ensures { OnOk result (text.new.items ≡ text.old.items ++ caret_line column) }
{
    text.extend_from_slice(MARGIN)?;
    push_fillers(text, b' ', column.saturating_sub(1))?;
    text.push(b'^')?;
    text.push(LINE_FEED)?;
    Ok(())
}

/// What a card says, or a comment for no card.
fn line_at(lines: &[Line], index: usize) -> Line
    requires { AreInRange lines.now }
    ensures line { result ≡ slice_index_or lines.now index silent }
    ensures range { IsInRange result }
{
    if index < lines.len() {
        lines[index]
    } else {
        Ok(Statement::Comment)
    }
}

/// Adds the card of a fault with its caret, if there is a card.
#[tactic(auto, unfolding(crate::specs::Blocks::picture))]
fn push_shown(
    alloc: Global,
    text: &mut Vec<u8>,
    layout: &Layout,
    line: &Line,
    fault: SourceFault,
    card: Option<&Card>,
) -> Result<(), AllocError>
    requires { IsInRange line.now }
    ensures { OnOk result (text.new.items ≡ text.old.items
        ++ shown_on layout.now line.now fault (option_copied card.entry)) }
{
    let Some(card) = card else {
        return Ok(());
    };
    let Some(column) = place_of(layout, card, line, fault) else {
        return Ok(());
    };
    push_card(alloc, text, card)?;
    push_caret(text, column)
}

/// Adds the block of a fault: what it is, its card, and a caret under its place.
#[tactic(auto, unfolding(crate::specs::Blocks::block))]
pub(crate) fn push_block(
    alloc: Global,
    text: &mut Vec<u8>,
    layout: &Layout,
    source: &[Card],
    fault: CardFault,
) -> Result<(), AllocError>
    ensures { OnOk result (text.new.items ≡ text.old.items ++ block layout.now source.now fault) }
{
    let index = (fault.card as usize).saturating_sub(1);
    let line = line_at(layout.source().lines(), index);
    push_told(alloc, text, fault)?;
    push_hint(alloc, text, layout, source, index, &line, fault.fault)?;
    text.push(LINE_FEED)?;
    push_shown(
        alloc,
        text,
        layout,
        &line,
        fault.fault,
        card_at(source, index),
    )?;
    Ok(())
}

/// Whether a fault is one of a card.
fn is_fault_of_card(fault: SourceFault) -> bool
    ensures { result ≡ is_fault_of_card fault }
{
    !matches!(fault, SourceFault::NoEnd)
}

/// How many faults are of cards.
fn cards_at_fault(faults: &[CardFault]) -> usize
    ensures { result ≡ cards_at_fault faults.now }
{
    faults
        .iter()
        .filter(|fault| is_fault_of_card(fault.fault))
        .count()
}

/// What follows a word for so many things.
fn plural(count: usize) -> &'static str
    ensures { result.now ≡ plural count }
{
    if count == 1 { "" } else { "s" }
}

/// Adds a number of things.
fn push_counted(text: &mut Vec<u8>, count: usize, word: &str) -> Result<(), AllocError>
    ensures { OnOk result (text.new.items ≡ text.old.items ++ counted count word.now) }
{
    push_decimal(text, count)?;
    push_text(text, " ")?;
    push_text(text, word)?;
    push_text(text, plural(count))
}

/// Adds the line of the sum: how many faults in how many of all cards of a source.
#[tactic(auto, unfolding(crate::specs::Blocks::sum_line))]
pub(crate) fn push_sum(
    text: &mut Vec<u8>,
    faults: &[CardFault],
    cards: usize,
) -> Result<(), AllocError>
    ensures { OnOk result (text.new.items ≡ text.old.items ++ sum_line faults.now cards) }
{
    push_counted(text, faults.len(), "fault")?;
    push_number_between(text, b" in ", cards_at_fault(faults), b" of ")?;
    push_counted(text, cards, "card")?;
    text.push(LINE_FEED)?;
    Ok(())
}
