//! A program, assembled.

ghost use Rattle.std.specs.Prelude.{◌≡◌, ◌-◌, length, slice_index_or, IfOk, IfErr, OnOk};
ghost use Rattle.core_store.specs.Storage.{positions_of};
ghost use Rattle.autocoder_layout.specs.Source.{IsInRange, silent, source_of};
ghost use Rattle.autocoder.specs.{
  Loadable.{CanBeLoaded, IsRising},
  Programs.{start_by, IsProgramOf, IsFaultless, AreFaults},
};

use crate::faults::{Faults, Faulty, has_some};
use autocoder_layout::{Cell, Judgement, Layout, Line, Slot, Source, Value, first_instruction};
use autocoder_statements::{Statement, Text};
use cards::Deck;
use core_store::Size;
use std::alloc::Global;
use std::marker::Model;

/// The program of a source without faults. Only `assemble` makes one, so cards can load it.
#[derive(Drop)]
pub struct Program {
    /// The layout of its source.
    layout: Layout,
    /// The filled positions, in rising order.
    image: Vec<Cell>,
    /// The position at which it starts.
    start: u32,
}

impl Model for Program {
    ghost use Rattle.std.specs.Prelude.{length};
    ghost use Rattle.core_store.specs.Storage.{positions_of};
    ghost use Rattle.autocoder.specs.Assembly.{Assembly};
    ghost use Rattle.autocoder.specs.Loadable.{IsLoadable, IsRising};

    ghost Value = { Assembly };

    ghost view = { λ p. record {
      size = p.layout.source.size;
      image = p.image.items;
      start = p.start;
      last = length p.layout.source.lines;
      lines = p.layout.source.lines;
      slots = p.layout.slots;
      literals = p.layout.literals;
    } };

    ghost invariant = { λ p. IsLoadable (positions_of p.layout.source.size) p.image.items p.start
        × IsRising p.image.items };
}

impl Program {
    /// The size of storage that it requires.
    pub fn size(&self) -> Size
        ensures { result ≡ self.now.size }
    {
        self.layout.source().size()
    }

    /// The filled positions in rising order, each at least 081 and below the size.
    pub fn image(&self) -> &[Cell]
        ensures image { result.now ≡ self.now.image }
        ensures loadable { CanBeLoaded self.now }
        ensures rising { IsRising self.now.image }
    {
        &self.image
    }

    /// The position at which the program starts.
    pub fn start(&self) -> u32
        ensures { result ≡ self.now.start }
    {
        self.start
    }

    /// The number of the card that ends the source.
    pub fn last(&self) -> u32
        ensures { result ≡ self.now.last }
    {
        self.layout.source().lines().len() as u32
    }

    /// The layout of the source.
    pub fn layout(&self) -> &Layout
        ensures size { result.now.source.size ≡ self.now.size }
        ensures lines { result.now.source.lines ≡ self.now.lines }
        ensures slots { result.now.slots ≡ self.now.slots }
        ensures literals { result.now.literals ≡ self.now.literals }
    {
        &self.layout
    }

    /// The slot of each card of the source.
    pub fn slots(&self) -> &[Slot]
        ensures { result.now ≡ self.now.slots }
    {
        self.layout.slots()
    }

    /// The literals, in the order of their places.
    pub fn literals(&self) -> &[Text]
        ensures { result.now ≡ self.now.literals }
    {
        self.layout.literals()
    }
}

/// The start of a program whose source ends with this line.
fn start_by(layout: &Layout, line: &Line) -> u32
    requires { IsInRange line.now }
    ensures { result ≡ start_by (positions_of layout.now.source.size) layout.now.slots line.now }
{
    match line {
        Ok(
            Statement::End {
                start: Some(expression),
                ..
            },
        ) => match layout.value_of(*expression) {
            Value::At(position) => position as u32,
            _ => 0,
        },
        Ok(Statement::End { start: None, .. }) => match first_instruction(layout.slots()) {
            Some(slot) => slot.before,
            None => 0,
        },
        _ => 0,
    }
}

/// The position at which a program starts.
fn start_of(layout: &Layout) -> u32
    ensures { result ≡ start_by (positions_of layout.now.source.size) layout.now.slots
        (slice_index_or layout.now.source.lines (length layout.now.source.lines - 1) silent) }
{
    match layout.source().lines() {
        [] => 0,
        [.., last] => start_by(layout, last),
    }
}

/// Assembles the source at the beginning of a deck: its cards up to the first END card. Returns the
/// program, or else the lowest fault of each card that has one, with the source as it was laid out.
/// The cards after the source are data and are not read. Memory is taken for the program and during
/// the work.
pub fn assemble(alloc: Global, deck: &Deck) -> Result<Program, Faults>
    ensures program { IfOk result (IsProgramOf (source_of deck.now)) }
    ensures loadable { IfOk result CanBeLoaded }
    ensures rising { IfOk result (λ program. IsRising program.image) }
    ensures faultless { OnOk result (IsFaultless (source_of deck.now)) }
    ensures faults { IfErr result (AreFaults (source_of deck.now)) }
{
    let Ok(source) = Source::read(alloc, deck) else {
        return Err(Faults::NoMemory);
    };
    let Ok(layout) = Layout::of(alloc, source) else {
        return Err(Faults::NoMemory);
    };
    let Ok(Judgement { image, faults }) = layout.judge(alloc) else {
        return Err(Faults::NoMemory);
    };
    if has_some(&faults) {
        return Err(Faults::Source(Faulty { layout, faults }));
    }
    let start = start_of(&layout);
    Ok(Program {
        layout,
        image,
        start,
    })
}
