//! A text taken as a deck.

ghost use Rattle.std.specs.{
  Prelude.{◌≡◌, ◌≤◌, ◌<◌, ◌+◌, ◌++◌, ◌∷◌, [], ◌==◌, ◌&&◌, true, false, length, IfOk, IfErr, OnOk},
  List.{list_all},
};
ghost use Rattle.card_texts.specs.{
  Columns.{blank, filled_up},
  DeckTexts.{IsDeckText},
  Faults.{faults_within},
  Punching.{deck_text_of, drops, empty_fault, faults_of, refuses, HasPushed, HasTaken, is_empty_line, IsUnpunched},
  declared.punching.Unpunched.TheVariants.{NoMemory},
};

use crate::columns::fill_up;
use crate::faults::{TextError, TextFault};
use crate::finding::push_faults;
use crate::lines::{body, split_line};
use crate::rules::{EmptyLine, Rules};
use std::alloc::{AllocError, Global};

/// The greatest number of cards of a deck.
const LARGEST_DECK: usize = 2000;

/// Why a text is no deck.
#[derive(Drop)]
pub enum Unpunched {
    /// There is no memory.
    NoMemory,
    /// The faults of its lines, in order.
    Faults(Vec<TextFault>),
}

impl From<AllocError> for Unpunched {
    ghost from_gives = { λ _ unpunched. unpunched ≡ NoMemory };

    fn from(_error: AllocError) -> Self {
        Unpunched::NoMemory
    }
}

impl EmptyLine {
    /// Whether such lines are passed over.
    fn drops(self) -> bool
        ensures { result ≡ drops self }
    {
        matches!(self, EmptyLine::Dropped)
    }

    /// Whether such lines are faults.
    fn refuses(self) -> bool
        ensures { result ≡ refuses self }
    {
        matches!(self, EmptyLine::Fault)
    }
}

/// What was taken of a text.
#[derive(Drop)]
struct Taken {
    /// The cards, as a deck text has them.
    text: Vec<u8>,
    /// The faults.
    faults: Vec<TextFault>,
    /// How many cards there are, with those of lines at fault.
    cards: usize,
}

/// The columns of a line's card, and the faults within the line.
#[derive(Drop)]
pub(crate) struct Line {
    pub(crate) columns: Vec<u8>,
    faults: Vec<TextFault>,
}

/// Whether all of these are blanks.
pub(crate) fn are_blanks(columns: &[u8]) -> bool
    ensures { result ≡ list_all (λ column. column == blank) columns.now }
{
    columns.iter().all(|&column| column == b' ')
}

impl Line {
    /// No line was looked at.
    pub(crate) fn empty(alloc: Global) -> Self {
        Line {
            columns: Vec::new(alloc),
            faults: Vec::new(alloc),
        }
    }

    /// Looks at a line.
    pub(crate) fn look(
        &mut self,
        rules: &Rules,
        number: usize,
        line: &[u8],
    ) -> Result<(), AllocError>
        ensures columns { OnOk result (self.new.columns.items ≡ filled_up rules.now line.now) }
        ensures faults { OnOk result
            (self.new.faults.items ≡ faults_within rules.now number line.now) }
    {
        self.faults.clear();
        push_faults(&mut self.faults, rules, number, line)?;
        fill_up(&mut self.columns, rules, line)
    }

    /// Whether it has no character but blanks, and no fault.
    fn is_empty(&self) -> bool
        ensures { result ≡ is_empty_line self.now }
    {
        self.faults.is_empty() && are_blanks(&self.columns)
    }
}

impl Taken {
    /// Adds a line's card.
    fn push_card(&mut self, columns: &[u8]) -> Result<(), AllocError>
        ensures text { OnOk result (self.new.text.items
            ≡ self.old.text.items ++ (columns.now ++ 10 ∷ [])) }
        ensures faults { self.new.faults.items ≡ self.old.faults.items }
        ensures cards { self.new.cards ≡ self.old.cards }
    {
        self.text.extend_from_slice(columns)?;
        self.text.push(b'\n')?;
        Ok(())
    }

    /// Adds a fault that is no character's.
    fn push_fault(&mut self, line: usize, error: TextError) -> Result<(), AllocError>
        ensures faults { OnOk result (self.new.faults.items
            ≡ self.old.faults.items ++ record { line = line; column = 1; error = error } ∷ []) }
        ensures text { self.new.text.items ≡ self.old.text.items }
        ensures cards { self.new.cards ≡ self.old.cards }
    {
        let column = 1;
        self.faults.push(TextFault {
            line,
            column,
            error,
        })?;
        Ok(())
    }

    /// Adds the faults of a line.
    fn push_faults(&mut self, rules: &Rules, number: usize, line: &Line) -> Result<(), AllocError>
        ensures faults { OnOk result (self.new.faults.items ≡ self.old.faults.items
            ++ (line.now.faults.items ++ empty_fault rules.now.empty number (is_empty_line line.now))) }
        ensures text { self.new.text.items ≡ self.old.text.items }
        ensures cards { self.new.cards ≡ self.old.cards }
    {
        self.faults.extend_from_slice(&line.faults)?;
        if rules.empty.refuses() && line.is_empty() {
            return self.push_fault(number, TextError::EmptyLine);
        }
        Ok(())
    }

    /// Adds a line that was looked at, as a card or as one more than a deck has. Returns whether the
    /// lines behind it are to be looked at.
    fn push_line(&mut self, rules: &Rules, number: usize, line: &Line) -> Result<bool, AllocError>
        requires { self.old.cards ≤ 2000 }
        ensures pushed { IfOk result (HasPushed rules.now number line.now self.old self.new) }
    {
        if self.cards == LARGEST_DECK {
            self.push_fault(number, TextError::TooManyCards)?;
            return Ok(false);
        }
        self.push_faults(rules, number, line)?;
        self.push_card(&line.columns)?;
        self.cards += 1;
        Ok(true)
    }
}

/// Whether a line that was looked at is no card.
pub(crate) fn is_passed_over(rules: &Rules, line: &Line) -> bool
    ensures { result ≡ (drops rules.now.empty && is_empty_line line.now) }
{
    rules.empty.drops() && line.is_empty()
}

/// Takes a line that was looked at. Returns whether the lines behind it are to be looked at.
fn take_line(
    taken: &mut Taken,
    rules: &Rules,
    number: usize,
    line: &Line,
) -> Result<bool, AllocError>
    requires { taken.old.cards ≤ 2000 }
    ensures { IfOk result (HasTaken rules.now number line.now taken.old taken.new) }
{
    if is_passed_over(rules, line) {
        return Ok(true);
    }
    taken.push_line(rules, number, line)
}

/// Takes the lines of a text, as far as they are looked at.
fn take_lines(
    alloc: Global,
    taken: &mut Taken,
    rules: &Rules,
    text: &[u8],
) -> Result<(), AllocError>
    requires text { taken.old.text.items ≡ [] }
    requires faults { taken.old.faults.items ≡ [] }
    requires cards { taken.old.cards ≡ 0 }
    ensures faults { OnOk result (taken.new.faults.items ≡ faults_of rules.now text.now) }
    ensures text { OnOk result (faults_of rules.now text.now ≡ []
        → taken.new.text.items ≡ deck_text_of rules.now text.now) }
{
    let mut line = Line::empty(alloc);
    let mut number = 1;
    let mut rest = body(text);
    while !rest.is_empty() {
        let (first, behind) = split_line(rest);
        line.look(rules, number, first)?;
        if !take_line(taken, rules, number, &line)? {
            return Ok(());
        }
        rest = behind;
        number += 1;
    }
    Ok(())
}

/// Takes a text as a deck by the rules, and returns the deck's text: 80 glyphs and a line feed a
/// card. Else it returns the faults of the text, in the order of its lines; of each line a tab and
/// a small letter are told once. A line of a punch file is a fault by any rules.
pub fn punch(alloc: Global, rules: &Rules, text: &[u8]) -> Result<Vec<u8>, Unpunched>
    ensures faultless { OnOk result (faults_of rules.now text.now ≡ []) }
    ensures deck { IfOk result (λ deck. deck.items ≡ deck_text_of rules.now text.now) }
    ensures cards { IfOk result (λ deck. IsDeckText deck.items) }
    ensures faults { IfErr result (IsUnpunched rules.now text.now) }
{
    let mut taken = Taken {
        text: Vec::new(alloc),
        faults: Vec::new(alloc),
        cards: 0,
    };
    take_lines(alloc, &mut taken, rules, text)?;
    if taken.faults.is_empty() {
        Ok(taken.text)
    } else {
        Err(Unpunched::Faults(taken.faults))
    }
}
