//! A source, read: the size of its storage, and what each of its cards says.

ghost use Rattle.std.specs.Prelude.{◌≡◌, ◌≤◌, ◌||◌, IfOk, length, false, position};
ghost use Rattle.autocoder_layout.specs.Source.{is_end, is_control, end_of, has_end, source_of, size_in, size_of, line_on, lines_of, AreInRange, source_read};
ghost use Rattle.autocoder_statements.specs.Ranges.{IsStatementInRange};
ghost use Rattle.cards.specs.Decks.{largest_deck};

use autocoder_statements::{Operation, Statement, StatementFault, operation_of, read};
use cards::{Card, Deck};
use core_store::Size;
use std::alloc::{AllocError, Global};
use std::marker::Model;

/// What a card says, or its lowest fault.
pub type Line = Result<Statement, StatementFault>;

/// A source, each card of which was read once.
#[derive(Drop)]
pub struct Source {
    /// The size of storage that its first `CTL` card gives, or 4000 without one.
    size: Size,
    /// What each card says, or its lowest fault.
    lines: Vec<Line>,
    /// Whether its last card is an `END` card.
    is_ended: bool,
}

impl Model for Source {
    ghost use Rattle.std.specs.Prelude.{◌≤◌, length};
    ghost use Rattle.cards.specs.Decks.{largest_deck};
    ghost use Rattle.autocoder_layout.specs.Source.{Source, AreInRange};

    ghost Value = { Source };

    ghost view = { λ source. record {
      size = source.size;
      lines = source.lines.items;
      is_ended = source.is_ended;
    } };

    ghost invariant = { λ source. AreInRange source.lines.items
        × (length source.lines.items ≤ largest_deck) };
}

/// Whether a card ends the source, even if it has a fault.
#[tactic(auto, unfolding(crate::specs::Source::is_end))]
fn is_end(card: &Card) -> bool
    ensures { result ≡ is_end card.now }
{
    matches!(operation_of(card), Some(Operation::End))
}

/// Whether a card is a `CTL`, which gives the size of storage, even if it has a fault.
#[tactic(auto, unfolding(crate::specs::Source::is_control))]
fn is_control(card: &Card) -> bool
    ensures { result ≡ is_control card.now }
{
    matches!(operation_of(card), Some(Operation::Control))
}

/// The index of the card that ends the source.
fn end_of(cards: &[Card]) -> Option<usize>
    ensures { result ≡ end_of cards.now }
{
    cards.iter().position(|card| is_end(card))
}

/// Whether a card ends the source.
fn has_end(cards: &[Card]) -> bool
    ensures { result ≡ has_end cards.now }
{
    end_of(cards).is_some()
}

/// The source of a deck: its cards up to and with the first that ends it. The cards after it are
/// data.
#[tactic(auto, unfolding(crate::specs::Source::source_of))]
pub fn source_of(cards: &[Card]) -> &[Card]
    ensures source { result.now ≡ source_of cards.now }
    ensures limit { length result.now ≤ length cards.now }
{
    let Some(end) = end_of(cards) else {
        return cards;
    };
    &cards[..end + 1]
}

/// The size that a card gives, or 4000 if the card has a fault.
fn size_in(line: &Line) -> Size
    ensures { result ≡ size_in line.now }
{
    match line {
        Ok(Statement::Control(size)) => *size,
        _ => Size::Positions4000,
    }
}

/// The index of the first `CTL` card.
fn first_control(cards: &[Card]) -> Option<usize>
    ensures { result ≡ position is_control cards.now }
{
    cards.iter().position(|card| is_control(card))
}

/// The size of storage, from the first `CTL` card, or 4000 without one.
fn size_of(cards: &[Card], lines: &[Line]) -> Size
    requires lines { lines.now ≡ lines_of false cards.now }
    requires limit { length lines.now ≤ largest_deck }
    ensures { result ≡ size_of cards.now }
{
    match first_control(cards) {
        Some(index) => size_in(&lines[index]),
        None => Size::Positions4000,
    }
}

/// What a card says, if an earlier card gave the size (`has_size`) or none did.
#[tactic(auto, unfolding(crate::specs::Source::line_on))]
fn line_on(has_size: bool, card: &Card) -> Line
    ensures line { result ≡ line_on has_size card.now }
    ensures range { IfOk result IsStatementInRange }
{
    let line = read(card);
    if !has_size {
        return line;
    }
    if !is_control(card) {
        return line;
    }
    match line {
        Err(StatementFault::BrokenField) => Err(StatementFault::BrokenField),
        _ => Err(StatementFault::Operand),
    }
}

/// Writes what each card says into its line.
fn read_lines(lines: &mut [Line], cards: &[Card])
    requires { length lines.old ≡ length cards.now }
    ensures lines { lines.new ≡ lines_of false cards.now }
    ensures range { AreInRange lines.new }
{
    let mut has_size = false;
    for index in 0..cards.len() {
        let card = &cards[index];
        lines[index] = line_on(has_size, card);
        has_size = either(has_size, is_control(card));
    }
}

/// Whether at least one of two is true.
fn either(one: bool, other: bool) -> bool
    ensures { result ≡ (one || other) }
{
    one || other
}

impl Source {
    /// Reads the source at the beginning of a deck. Fails only if there is no memory.
    pub fn read(alloc: Global, deck: &Deck) -> Result<Source, AllocError>
        ensures { IfOk result (λ source. source ≡ source_read (source_of deck.now)) }
    {
        let cards = source_of(deck.cards());
        let mut lines = vec![in alloc; Ok(Statement::Comment); cards.len()]?;
        read_lines(&mut lines, cards);
        Ok(Source {
            size: size_of(cards, &lines),
            lines,
            is_ended: has_end(cards),
        })
    }

    /// The size of storage.
    pub fn size(&self) -> Size
        ensures { result ≡ self.now.size }
    {
        self.size
    }

    /// What each card says, or its lowest fault.
    pub fn lines(&self) -> &[Line]
        ensures lines { result.now ≡ self.now.lines }
        ensures range { AreInRange result.now }
        ensures limit { length result.now ≤ largest_deck }
    {
        &self.lines
    }

    /// Whether the last card is an `END` card. A card with that operation ends the source even if
    /// it has a fault.
    pub fn is_ended(&self) -> bool
        ensures { result ≡ self.now.is_ended }
    {
        self.is_ended
    }
}
