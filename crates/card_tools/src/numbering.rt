//! Numbers in the columns 73 to 80 of a deck's cards.

ghost use Rattle.std.specs.{
  Prelude.{◌≡◌, ◌≤◌, ◌<◌, ◌⊎◌, ◌++◌, ◌∷◌, [], None, Some, length, take, IfOk, IfErr, OnOk},
  List.{list_all},
};
ghost use Rattle.cards.specs.Decks.{IsDeck};
ghost use Rattle.card_forms.specs.Signs.{are_blank};
ghost use Rattle.card_tools.specs.{
  Lines.{glyphs_of},
  Numbering.{IsInTheWay, IsNumbered, IsSequenceFault, MayBeNumbered, KeepsColumns, Spells, SpellsNone, columns_for, digit_character, digits_of, fault_from, fits, has_ident, is_digit, is_free, no_ident, number_columns, numbered, numbered_from, out_of_memory},
  declared.numbering.SequenceError.TheVariants.{NoMemory, TooGreat, Held},
};

use bcd::Code;
use cards::{Card, Deck};
use std::alloc::{AllocError, Global};
use thiserror::Error;

/// Why a deck is not numbered.
#[derive(Clone, Copy, Debug, PartialEq, Eq, Error)]
pub enum SequenceError {
    /// There is no memory for the deck.
    #[error("no memory")]
    NoMemory,
    /// The ident is not 0 to 5 glyphs.
    #[error("no ident")]
    Ident,
    /// The columns 73 to 80, whose glyphs these are, are neither blank nor numbered with the ident.
    #[error("the columns 73 to 80 are in use")]
    Held([u8; 8]),
    /// The number has more digits than there are columns for it.
    #[error("the number does not fit")]
    TooGreat,
}

/// Why a deck is not numbered, and the card at which that was found.
#[derive(Clone, Copy, Debug, PartialEq, Eq, Error)]
#[error("card {card}: {error}")]
pub struct SequenceFault {
    /// What is wrong.
    pub error: SequenceError,
    /// The card, from 1; 0 for `NoMemory` and `Ident`.
    pub card: u16,
}

/// The fault that there is no memory.
const OUT_OF_MEMORY: SequenceFault = SequenceFault {
    error: SequenceError::NoMemory,
    card: 0,
};

/// The fault that the word is no ident.
const NO_IDENT: SequenceFault = SequenceFault {
    error: SequenceError::Ident,
    card: 0,
};

/// The first of the columns with the number, counted from 0.
const NUMBER_COLUMN: usize = 72;

impl From<AllocError> for SequenceFault {
    ghost from_gives = { λ _ fault. fault ≡ record { error = NoMemory; card = 0 } };

    fn from(_error: AllocError) -> Self {
        OUT_OF_MEMORY
    }
}

/// Numbers the cards of a deck in their columns 73 to 80: the glyphs of the ident, of which there
/// are 0 to 5, and behind them the number with zeros in front, `first` on the first card and `step`
/// more on each further one.
///
/// The error is `Ident`; else that of the first card whose columns 73 to 80 are neither blank nor
/// the ident with digits behind it, or whose number does not fit; or `NoMemory`.
pub fn sequence(
    alloc: Global,
    deck: &Deck,
    ident: &str,
    first: u32,
    step: u32,
) -> Result<Deck, SequenceFault>
    ensures numbered { IfOk result (λ new. IsNumbered ident.now first step deck.now new) }
    ensures kept { IsDeck deck.now → IfOk result (λ new. KeepsColumns deck.now new) }
    ensures fault { IfErr result (λ fault. IsSequenceFault ident.now first step deck.now fault) }
{
    let codes = ident_of(alloc, ident.as_bytes())?;
    number_cards(alloc, deck.cards(), &codes, first, step)
}

/// The columns 73 to 80 of a card.
pub(crate) fn number_columns(card: &Card) -> &[Code]
    ensures columns { result.now ≡ number_columns card.now }
    ensures eight { length result.now ≡ 8 }
{
    let columns: &[Code] = &card.0;
    &columns[NUMBER_COLUMN..]
}

/// The characters of an ident.
fn ident_of(alloc: Global, word: &[u8]) -> Result<Vec<Code>, SequenceFault>
    ensures spelled { IfOk result (λ codes. Spells word.now codes.items) }
    ensures none { IfErr result (λ fault. (fault ≡ out_of_memory)
        ⊎ ((fault ≡ no_ident) × SpellsNone word.now)) }
{
    if word.len() > 5 {
        return Err(NO_IDENT);
    }
    let mut codes = Vec::new(alloc);
    for &glyph in word {
        let Some(code) = Code::from_glyph(glyph) else {
            return Err(NO_IDENT);
        };
        if codes.push(code).is_err() {
            return Err(OUT_OF_MEMORY);
        }
    }
    Ok(codes)
}

/// The number of a digit's character.
fn digit_character(digit: u64) -> Code
    requires { digit < 10 }
    ensures { result ≡ digit_character digit }
{
    let number = if digit == 0 { 10 } else { digit as u8 };
    match Code::from_number(number) {
        Some(code) => code,
        None => unreachable!(),
    }
}

/// Adds so many digits of a number, the highest first.
#[tactic(auto, using(crate::proofs::NumberLaw::digits_on), unfolding(crate::specs::Numbering::digits_of))]
fn push_digits(columns: &mut Vec<Code>, count: usize, number: u64) -> Result<(), AllocError>
    ensures { OnOk result (columns.new.items ≡ columns.old.items ++ digits_of count number) }
{
    if count == 0 {
        return Ok(());
    }
    push_digits(columns, count - 1, number / 10)?;
    columns.push(digit_character(number % 10))?;
    Ok(())
}

/// The columns 73 to 80 with an ident and a number.
fn columns_for(alloc: Global, ident: &[Code], number: u64) -> Result<Vec<Code>, AllocError>
    ensures { IfOk result (λ columns. columns.items ≡ columns_for ident.now number) }
{
    let mut columns = Vec::from_slice(alloc, ident)?;
    push_digits(&mut columns, 8usize.saturating_sub(ident.len()), number)?;
    Ok(columns)
}

/// Whether a number fits behind an ident.
fn fits(ident: &[Code], number: u64) -> bool
    ensures { result ≡ fits ident.now number }
{
    number < 10u64.pow(8usize.saturating_sub(ident.len()) as u32)
}

/// Whether all of these characters are digits.
fn are_digits(codes: &[Code]) -> bool
    ensures { result ≡ list_all is_digit codes.now }
{
    codes.iter().all(|code| (1..=10).contains(&code.number()))
}

/// Whether all of these characters are blank.
pub(crate) fn are_blank(codes: &[Code]) -> bool
    ensures { result ≡ are_blank codes.now }
{
    codes.iter().all(|code| code.number() == 0)
}

/// Whether columns are the ident and digits behind it.
fn has_ident(ident: &[Code], columns: &[Code]) -> bool
    ensures { result ≡ has_ident ident.now columns.now }
{
    columns.starts_with(ident) && are_digits(&columns[ident.len()..])
}

/// Whether columns may be numbered.
fn is_free(ident: &[Code], columns: &[Code]) -> bool
    ensures { result ≡ is_free ident.now columns.now }
{
    are_blank(columns) || has_ident(ident, columns)
}

/// The glyphs of eight columns.
fn glyphs(columns: &[Code]) -> [u8; 8]
    requires { length columns.now ≡ 8 }
    ensures { result ≡ glyphs_of columns.now }
{
    let mut glyphs = [b' '; 8];
    for place in 0..8 {
        glyphs[place] = columns[place].glyph();
    }
    glyphs
}

/// The card with these columns 73 to 80.
fn with_columns(card: &Card, columns: &[Code]) -> Card
    requires { length columns.now ≡ 8 }
    ensures { result.0 ≡ take 72 card.now.0 ++ columns.now }
{
    let mut codes = card.0;
    let all = &mut codes[..];
    let behind = &mut all[NUMBER_COLUMN..];
    behind.copy_from_slice(columns);
    Card(codes)
}

/// The card with an ident and a number; or else what stands in the way, of a card at this place.
fn numbered(
    alloc: Global,
    ident: &[Code],
    number: u64,
    place: u16,
    card: &Card,
) -> Result<Card, SequenceFault>
    requires { length ident.now ≤ 5 }
    ensures card { IfOk result (λ new. MayBeNumbered ident.now number card.now
        × (new ≡ numbered ident.now number card.now)) }
    ensures fault { IfErr result (λ fault. (fault ≡ out_of_memory)
        ⊎ IsInTheWay ident.now number place card.now fault) }
{
    let columns = number_columns(card);
    if !is_free(ident, columns) {
        return Err(SequenceFault {
            error: SequenceError::Held(glyphs(columns)),
            card: place,
        });
    }
    if !fits(ident, number) {
        return Err(SequenceFault {
            error: SequenceError::TooGreat,
            card: place,
        });
    }
    let columns = columns_for(alloc, ident, number)?;
    Ok(with_columns(card, &columns))
}

/// Adds a card to a deck that is not full.
fn push_card(deck: &mut Deck, card: Card) -> Result<(), SequenceFault>
    ensures ok { OnOk result (deck.new ≡ deck.old ++ card ∷ []) }
    ensures err { IfErr result (λ fault. fault ≡ out_of_memory) }
{
    match deck.push(card) {
        Ok(()) => Ok(()),
        Err(_) => Err(OUT_OF_MEMORY),
    }
}

/// Numbers cards behind an ident, from this number on.
fn number_cards(
    alloc: Global,
    cards: &[Card],
    ident: &[Code],
    first: u32,
    step: u32,
) -> Result<Deck, SequenceFault>
    requires ident { length ident.now ≤ 5 }
    requires cards { length cards.now ≤ 2000 }
    ensures numbered { IfOk result (λ new. (fault_from ident.now step 1 first cards.now ≡ None)
        × (new ≡ numbered_from ident.now step first cards.now)) }
    ensures fault { IfErr result (λ fault. (fault ≡ out_of_memory)
        ⊎ (fault_from ident.now step 1 first cards.now ≡ Some fault)) }
{
    let mut deck = Deck::empty(alloc);
    let mut number = u64::from(first);
    for (index, card) in cards.iter().enumerate() {
        let card = match numbered(alloc, ident, number, index as u16 + 1, card) {
            Ok(card) => card,
            Err(fault) => return Err(fault),
        };
        push_card(&mut deck, card)?;
        number += u64::from(step);
    }
    Ok(deck)
}
