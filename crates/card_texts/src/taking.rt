//! A file of which nothing is known, taken as a deck.

ghost use Rattle.std.specs.Prelude.{◌≡◌, ◌≢◌, true, false, [], IfErr, IfOk, OnOk, Option};
ghost use Rattle.card_texts.specs.{
  Punching.{IsUnpunched, faults_of},
  Taking.{AreUnfolded, IsFound, IsJoined, IsTextIf, IsTaken, IsTextWith, IsUnfolded, IsUntaken, folded, is_card_way, is_text_tried, is_text_way, is_tried, is_way, ruled, signed, told_signs},
  declared.rules.{Rules.{Rules}, Signs.{Signs}},
  declared.taking.Way.TheVariants.{Binary, Punch, Text},
  declared.taking.Untaken.TheVariants.{NoMemory},
};

use crate::faults::TextFault;
use crate::punching::{Unpunched, punch};
use crate::rules::{Rules, Signs};
use card_forms::{Form, FormError};
use cards::write_text;
use std::alloc::{AllocError, Global};

/// How a file is read as a deck.
#[derive(Clone, Copy)]
pub enum Way {
    /// As a punch file.
    Punch,
    /// As column binary.
    Binary,
    /// As a text in these signs.
    Text(Signs),
}

/// A deck that was read from a file.
#[derive(Drop)]
pub struct Reading {
    /// How the file was read.
    pub way: Way,
    /// The deck's text: 80 glyphs and a line feed a card.
    pub text: Vec<u8>,
}

/// Why a file is not taken as a deck.
#[derive(Drop)]
pub enum Untaken {
    /// There is no memory.
    NoMemory,
    /// It is read in both of these ways, and as two decks.
    Differ(Way, Way),
    /// The faults that it has as a text in these signs, in order.
    Faults(Signs, Vec<TextFault>),
}

impl From<AllocError> for Untaken {
    ghost from_gives = { λ _ untaken. untaken ≡ NoMemory };

    fn from(_error: AllocError) -> Self {
        Untaken::NoMemory
    }
}

impl Way {
    /// Whether a file is read in this way, where the signs of a text may be named.
    fn is_tried(self, named: Option<Signs>) -> bool
        ensures { result ≡ is_tried named self }
    {
        match (named, self) {
            (Some(Signs::Bureau), Way::Text(signs)) => matches!(signs, Signs::Bureau),
            (Some(Signs::Simh), Way::Text(signs)) => matches!(signs, Signs::Simh),
            _ => true,
        }
    }
}

/// The text of the deck of which bytes are a file in a form, if they are one.
fn text_in_form(alloc: Global, form: Form, bytes: &[u8]) -> Result<Option<Vec<u8>>, Untaken>
    ensures found { IfOk result (IsTextIf form bytes.now) }
    ensures memory { IfErr result (λ untaken. untaken ≡ NoMemory) }
{
    match card_forms::read(alloc, form, bytes) {
        Ok(deck) => Ok(Some(write_text(alloc, &deck)?)),
        Err(fault) => match fault.error {
            FormError::NoMemory => Err(Untaken::NoMemory),
            _ => Ok(None),
        },
    }
}

/// The deck of a punch file, if a file is one.
fn punch_reading(alloc: Global, bytes: &[u8]) -> Result<Option<Reading>, Untaken>
    ensures found { (rules : Rules) → IfOk result (IsFound rules bytes.now (is_way Punch)) }
    ensures memory { IfErr result (λ untaken. untaken ≡ NoMemory) }
{
    match text_in_form(alloc, Form::Punch, bytes)? {
        Some(text) => Ok(Some(Reading {
            way: Way::Punch,
            text,
        })),
        None => Ok(None),
    }
}

/// The deck of column binary, if a file is that.
fn binary_reading(alloc: Global, bytes: &[u8]) -> Result<Option<Reading>, Untaken>
    ensures found { (rules : Rules) → IfOk result (IsFound rules bytes.now (is_way Binary)) }
    ensures memory { IfErr result (λ untaken. untaken ≡ NoMemory) }
{
    match text_in_form(alloc, Form::Binary, bytes)? {
        Some(text) => Ok(Some(Reading {
            way: Way::Binary,
            text,
        })),
        None => Ok(None),
    }
}

/// Takes a text as a deck by the rules, but in these signs, and with small letters as capitals or
/// not. The rules stay as they are.
fn punch_as(
    alloc: Global,
    rules: &mut Rules,
    signs: Signs,
    folds: bool,
    bytes: &[u8],
) -> Result<Vec<u8>, Unpunched>
    ensures rules { rules.new ≡ rules.old }
    ensures deck { IfOk result (λ text.
        IsTextWith (ruled rules.old signs folds) bytes.now text.items) }
    ensures faults { IfErr result (IsUnpunched (ruled rules.old signs folds) bytes.now) }
{
    let before = (rules.signs, rules.folds);
    rules.signs = signs;
    rules.folds = folds;
    let punched = punch(alloc, rules, bytes);
    rules.signs = before.0;
    rules.folds = before.1;
    punched
}

/// Whether a text has no faults in these signs, if small letters are capitals.
fn fits_folded(
    alloc: Global,
    rules: &mut Rules,
    signs: Signs,
    bytes: &[u8],
) -> Result<bool, Untaken>
    ensures rules { rules.new ≡ rules.old }
    ensures fits { IfOk result (λ fits. fits ≡ true
        → faults_of (folded rules.old signs) bytes.now ≡ []) }
    ensures other { IfOk result (λ fits. fits ≡ false
        → faults_of (folded rules.old signs) bytes.now ≢ []) }
    ensures memory { IfErr result (λ untaken. untaken ≡ NoMemory) }
{
    match punch_as(alloc, rules, signs, true, bytes) {
        Ok(_) => Ok(true),
        Err(Unpunched::Faults(_)) => Ok(false),
        Err(Unpunched::NoMemory) => Err(Untaken::NoMemory),
    }
}

/// The deck of a text in these signs, if a file is one by the rules, and such texts are tried. A
/// text that is one only with small letters as capitals is refused.
fn text_reading(
    alloc: Global,
    rules: &mut Rules,
    named: Option<Signs>,
    signs: Signs,
    bytes: &[u8],
) -> Result<Option<Reading>, Untaken>
    ensures rules { rules.new ≡ rules.old }
    ensures found { IfOk result (IsFound rules.old bytes.now (is_text_tried named signs)) }
    ensures unfolded { OnOk result (is_tried named (Text signs) ≡ true
        → IsUnfolded rules.old bytes.now signs) }
    ensures untaken { IfErr result (IsUntaken rules.old named bytes.now) }
{
    let way = Way::Text(signs);
    if !way.is_tried(named) {
        return Ok(None);
    }
    let asked = rules.folds;
    match punch_as(alloc, rules, signs, asked, bytes) {
        Ok(text) => Ok(Some(Reading { way, text })),
        Err(Unpunched::NoMemory) => Err(Untaken::NoMemory),
        Err(Unpunched::Faults(faults)) => {
            if fits_folded(alloc, rules, signs, bytes)? {
                return Err(Untaken::Faults(signs, faults));
            }
            Ok(None)
        }
    }
}

/// Joins what two ways found. Two decks that differ are refused.
fn one_of(one: Option<Reading>, other: Option<Reading>) -> Result<Option<Reading>, Untaken>
    ensures { IsJoined one other result }
{
    let Some(one) = one else {
        return Ok(other);
    };
    let Some(other) = other else {
        return Ok(Some(one));
    };
    if one.text.as_slice() == other.text.as_slice() {
        Ok(Some(one))
    } else {
        Err(Untaken::Differ(one.way, other.way))
    }
}

/// The deck of a file that tells the holes of its cards, if a file is one.
fn card_reading(alloc: Global, bytes: &[u8]) -> Result<Option<Reading>, Untaken>
    ensures found { (rules : Rules) → IfOk result (IsFound rules bytes.now is_card_way) }
    ensures untaken { (rules : Rules) (named : Option Signs) →
        IfErr result (IsUntaken rules named bytes.now) }
{
    let punched = punch_reading(alloc, bytes)?;
    let binary = binary_reading(alloc, bytes)?;
    one_of(punched, binary)
}

/// The deck of a text in any of the signs that are tried, if a file is one.
fn any_text_reading(
    alloc: Global,
    rules: &mut Rules,
    named: Option<Signs>,
    bytes: &[u8],
) -> Result<Option<Reading>, Untaken>
    ensures rules { rules.new ≡ rules.old }
    ensures found { IfOk result (IsFound rules.old bytes.now (is_text_way named)) }
    ensures unfolded { OnOk result (AreUnfolded rules.old named bytes.now) }
    ensures untaken { IfErr result (IsUntaken rules.old named bytes.now) }
{
    let glyphs = text_reading(alloc, rules, named, Signs::Bureau, bytes)?;
    let simh = text_reading(alloc, rules, named, Signs::Simh, bytes)?;
    one_of(glyphs, simh)
}

/// The deck that a file is in the ways that are tried, if it is one in any of them.
fn find(
    alloc: Global,
    rules: &mut Rules,
    named: Option<Signs>,
    bytes: &[u8],
) -> Result<Option<Reading>, Untaken>
    ensures rules { rules.new ≡ rules.old }
    ensures found { IfOk result (IsFound rules.old bytes.now (is_tried named)) }
    ensures unfolded { OnOk result (AreUnfolded rules.old named bytes.now) }
    ensures untaken { IfErr result (IsUntaken rules.old named bytes.now) }
{
    let cards = card_reading(alloc, bytes)?;
    let text = any_text_reading(alloc, rules, named, bytes)?;
    one_of(cards, text)
}

/// The faults of a text in these signs by the rules.
fn faults_in(
    alloc: Global,
    rules: &mut Rules,
    signs: Signs,
    bytes: &[u8],
) -> Result<Vec<TextFault>, Untaken>
    ensures rules { rules.new ≡ rules.old }
    ensures faults { IfOk result (λ faults.
        faults.items ≡ faults_of (signed rules.old signs) bytes.now) }
    ensures memory { IfErr result (λ untaken. untaken ≡ NoMemory) }
{
    let folds = rules.folds;
    match punch_as(alloc, rules, signs, folds, bytes) {
        Ok(_) => Ok(Vec::new(alloc)),
        Err(Unpunched::Faults(faults)) => Ok(faults),
        Err(Unpunched::NoMemory) => Err(Untaken::NoMemory),
    }
}

/// The signs of which the faults of a file are told: those that are named, or else the bureau's.
fn told_signs(named: Option<Signs>) -> Signs
    ensures { result ≡ told_signs named }
{
    match named {
        Some(signs) => signs,
        None => Signs::Bureau,
    }
}

/// Takes a file as a deck: as a punch file, as column binary, or as a text by the rules, in the
/// glyphs of the bureau or in SimH's signs; where signs are named, as a text in no others. The signs
/// of the rules are not looked at. The rules are as before when it is done.
///
/// Nothing is guessed: a file that two of these ways read as two decks is refused, and so is a text
/// that would be one only with small letters as capitals, where the rules do not say so.
pub fn take(
    alloc: Global,
    rules: &mut Rules,
    named: Option<Signs>,
    bytes: &[u8],
) -> Result<Reading, Untaken>
    ensures rules { rules.new ≡ rules.old }
    ensures taken { IfOk result (IsTaken rules.old named bytes.now) }
    ensures untaken { IfErr result (IsUntaken rules.old named bytes.now) }
{
    match find(alloc, rules, named, bytes)? {
        Some(reading) => Ok(reading),
        None => {
            let signs = told_signs(named);
            let faults = faults_in(alloc, rules, signs, bytes)?;
            Err(Untaken::Faults(signs, faults))
        }
    }
}
