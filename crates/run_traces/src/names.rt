//! The names of a source, and the name of an address.

ghost use Rattle.std.specs.Prelude.{◌≡◌, ◌++◌, option_copied, MatchOption, IfOk, OnOk};
ghost use Rattle.autocoder_layout.specs.Source.{source_of};
ghost use Rattle.autocoder.specs.Programs.{IsFaultless};
ghost use Rattle.run_traces.specs.Names.{distance_words, name_field, name_words, named_by, nearer, nearest};

use crate::shown::push_padding;
use autocoder::{Faults, Program, assemble};
use autocoder_layout::{Definition, Slot, source_of};
use cards::{Card, Deck};
use source_reports::push_name;
use std::alloc::{AllocError, Global};
use std::marker::Model;

/// The names of a source without faults, and its cards.
#[derive(Drop)]
pub struct Names {
    deck: Deck,
    program: Program,
}

impl Model for Names {
    ghost use Rattle.autocoder_layout.specs.Source.{source_of};
    ghost use Rattle.run_traces.specs.Names.{Named};

    ghost Value = { Named };

    ghost view = { λ names. record {
      cards = source_of names.deck;
      slots = names.program.slots;
    } };
}

impl Names {
    /// Returns the names of the source that a deck begins with; none if it has faults. Fails only
    /// if there is no memory.
    pub fn of(alloc: Global, deck: Deck) -> Result<Option<Names>, AllocError>
        ensures { IfOk result (λ found. MatchOption found (¬ IsFaultless (source_of deck))
            (λ names. IsFaultless (source_of deck) × (names ≡ named_by (source_of deck)))) }
    {
        match assemble(alloc, &deck) {
            Ok(program) => Ok(Some(Names { deck, program })),
            Err(Faults::Source(_)) => Ok(None),
            Err(Faults::NoMemory) => Err(AllocError),
        }
    }

    /// Returns the cards of the source, up to END.
    pub fn cards(&self) -> &[Card]
        ensures { result.now ≡ self.now.cards }
    {
        source_of(self.deck.cards())
    }

    /// Returns what each card of the source defines, and where it stands.
    pub fn slots(&self) -> &[Slot]
        ensures { result.now ≡ self.now.slots }
    {
        self.program.slots()
    }
}

/// The definition of two that is nearer to an address.
fn nearer(address: u16, best: Option<Definition>, found: Option<Definition>) -> Option<Definition>
    ensures { result ≡ nearer address best found }
{
    let address = u32::from(address);
    match (best, found) {
        (best, None) => best,
        (None, Some(new)) => {
            if new.address <= address {
                Some(new)
            } else {
                None
            }
        }
        (Some(old), Some(new)) => {
            if new.address <= address && old.address < new.address {
                Some(new)
            } else {
                Some(old)
            }
        }
    }
}

/// The definition at the greatest address that is not above this one.
#[tactic(auto, unfolding(crate::specs::Names::nearest))]
fn nearest(slots: &[Slot], address: u16) -> Option<Definition>
    ensures { result ≡ nearest address slots.now }
{
    let mut best = None;
    for slot in slots {
        best = nearer(address, best, slot.defines);
    }
    best
}

/// Adds how far behind a name an address is.
fn push_distance(alloc: Global, line: &mut Vec<u8>, distance: u32) -> Result<(), AllocError>
    ensures { OnOk result (line.new.items ≡ line.old.items ++ distance_words distance) }
{
    if distance == 0 {
        return Ok(());
    }
    let words = format!(in alloc; "&{distance}")?;
    line.extend_from_slice(words.as_bytes())
}

/// Adds an address by a name.
fn push_by_name(
    alloc: Global,
    line: &mut Vec<u8>,
    address: u16,
    nearest: Option<Definition>,
) -> Result<(), AllocError>
    ensures { OnOk result (line.new.items ≡ line.old.items ++ name_words address nearest) }
{
    let Some(definition) = nearest else {
        return Ok(());
    };
    push_name(line, &definition.name)?;
    let distance = u32::from(address).saturating_sub(definition.address);
    push_distance(alloc, line, distance)
}

/// Adds the name of an address at the left of ten places, where there are names.
pub(crate) fn push_name_field(
    alloc: Global,
    line: &mut Vec<u8>,
    names: Option<&Names>,
    address: u16,
) -> Result<(), AllocError>
    ensures { OnOk result (line.new.items
        ≡ line.old.items ++ name_field (option_copied names.entry) address) }
{
    let Some(names) = names else {
        return Ok(());
    };
    let start = line.len();
    push_by_name(alloc, line, address, nearest(names.slots(), address))?;
    push_padding(line, 10, line.len() - start)
}
