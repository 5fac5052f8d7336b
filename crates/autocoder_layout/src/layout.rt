//! The layout of a source: the first pass.

ghost use Rattle.std.specs.Prelude.{◌≡◌, ◌≤◌, length, IfOk};
ghost use Rattle.core_store.specs.Storage.{positions_of, largest_size};
ghost use Rattle.autocoder_layout.specs.{
  Bounds.{IsLaidOut},
  Layout.{laid_out},
  Names.{value_in, IsValueWithin},
};
ghost use Rattle.autocoder_statements.specs.Ranges.{IsExpressionInRange};

use crate::literals::literals_of;
use crate::names::{Value, value_in};
use crate::slots::{Slot, lay_out};
use crate::source::Source;
use autocoder_statements::{Expression, Text};
use std::alloc::{AllocError, Global};
use std::marker::Model;

/// A source, the slot of each of its cards, and its literals.
#[derive(Drop)]
pub struct Layout {
    source: Source,
    /// The slot of each card.
    slots: Vec<Slot>,
    /// The literals, in the order of their places.
    literals: Vec<Text>,
}

impl Model for Layout {
    ghost use Rattle.autocoder_layout.specs.Layout.{Layout};
    ghost use Rattle.autocoder_layout.specs.Bounds.{IsLaidOut};

    ghost Value = { Layout };

    ghost view = { λ layout. record {
      source = layout.source;
      slots = layout.slots.items;
      literals = layout.literals.items;
    } };

    ghost invariant = { λ layout. IsLaidOut (record {
      source = layout.source;
      slots = layout.slots.items;
      literals = layout.literals.items;
    }) };
}

impl Layout {
    /// Lays out a source. Fails only if there is no memory.
    pub fn of(alloc: Global, source: Source) -> Result<Layout, AllocError>
        ensures { IfOk result (λ layout. layout ≡ laid_out source) }
    {
        let slots = lay_out(alloc, &source)?;
        let literals = literals_of(alloc, &source, &slots)?;
        Ok(Layout {
            source,
            slots,
            literals,
        })
    }

    /// The source.
    pub fn source(&self) -> &Source
        ensures { result.now ≡ self.now.source }
    {
        &self.source
    }

    /// The number of positions of its storage.
    pub fn size(&self) -> u16
        ensures size { result ≡ positions_of self.now.source.size }
        ensures limit { result ≤ largest_size }
    {
        self.source.size().positions()
    }

    /// The slot of each card.
    pub fn slots(&self) -> &[Slot]
        ensures slots { result.now ≡ self.now.slots }
        ensures laid_out { IsLaidOut self.now }
    {
        &self.slots
    }

    /// The literals, in the order of their places.
    pub fn literals(&self) -> &[Text]
        ensures { result.now ≡ self.now.literals }
    {
        &self.literals
    }

    /// The value of an expression, whose names any card may define.
    pub fn value_of(&self, expression: Expression) -> Value
        requires { IsExpressionInRange expression }
        ensures value { result ≡ value_in (positions_of self.now.source.size) self.now.slots
            expression }
        ensures within { IsValueWithin (positions_of self.now.source.size) result }
    {
        value_in(self.size(), &self.slots, expression)
    }
}
