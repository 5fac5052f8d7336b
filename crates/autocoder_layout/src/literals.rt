//! The literals of a source: their order, and their places.

ghost use Rattle.std.specs.{
  Prelude.{◌≡◌, ◌+◌, ◌*◌, ◌≤◌, ◌++◌, [], length, bytes_eq, IfOk, OnOk},
  List.{list_any},
};
ghost use Rattle.autocoder_statements.specs.Limits.{longest_text};
ghost use Rattle.autocoder_layout.specs.{
  Bounds.{farthest, most_literals},
  Literals.{literal_in, uses_in, uses_of, firsts, literals_of, literal_end},
};

use crate::slots::Slot;
use crate::source::{Line, Source};
use autocoder_statements::{Operand, Statement, Text};
use bcd::Code;
use std::alloc::{AllocError, Global};

/// Adds the literal of an operand, if it is one.
fn push_literal(uses: &mut Vec<Text>, operand: &Option<Operand>) -> Result<(), AllocError>
    ensures uses { OnOk result (uses.new.items ≡ uses.old.items ++ literal_in operand.now) }
    ensures count { OnOk result (length uses.new.items ≤ length uses.old.items + 1) }
{
    let Some(Operand::Literal(text)) = operand else {
        return Ok(());
    };
    uses.push(*text)?;
    Ok(())
}

/// Adds the literals that a card uses, unless it counts as a comment.
#[tactic(auto, unfolding(crate::specs::Literals::uses_in))]
fn push_uses(uses: &mut Vec<Text>, line: &Line, slot: &Slot) -> Result<(), AllocError>
    ensures uses { OnOk result (uses.new.items ≡ uses.old.items ++ uses_in line.now slot.now) }
    ensures count { OnOk result (length uses.new.items ≤ length uses.old.items + 2) }
{
    let Ok(Statement::Instruction { instruction, .. }) = line else {
        return Ok(());
    };
    if slot.fault.is_some() {
        return Ok(());
    }
    push_literal(uses, &instruction.first)?;
    push_literal(uses, &instruction.second)
}

/// The literals that a source uses, in order of card and operand.
fn uses(alloc: Global, source: &Source, slots: &[Slot]) -> Result<Vec<Text>, AllocError>
    requires { length slots.now ≡ length source.now.lines }
    ensures uses { IfOk result (λ uses. uses.items ≡ uses_of source.now.lines slots.now) }
    ensures count { IfOk result (λ uses. length uses.items ≤ most_literals) }
{
    let mut uses = Vec::new(alloc);
    let lines = source.lines();
    for i in 0..lines.len() {
        push_uses(&mut uses, &lines[i], &slots[i])?;
    }
    Ok(uses)
}

/// Whether a literal has these characters.
fn is_same(literal: &Text, other: &[Code]) -> bool
    ensures { result ≡ bytes_eq literal.now other.now }
{
    literal.characters() == other
}

/// Whether a literal is among those that are used.
fn is_used(uses: &[Text], literal: &[Code]) -> bool
    ensures { result ≡ list_any (λ used. bytes_eq used literal.now) uses.now }
{
    uses.iter().any(|used| is_same(used, literal))
}

/// Returns the literals of a source in the order of their first use. Fails only if there is no
/// memory.
#[tactic(auto, unfolding(crate::specs::Literals::literals_of))]
pub(crate) fn literals_of(
    alloc: Global,
    source: &Source,
    slots: &[Slot],
) -> Result<Vec<Text>, AllocError>
    requires { length slots.now ≡ length source.now.lines }
    ensures literals { IfOk result (λ literals.
        literals.items ≡ literals_of source.now.lines slots.now) }
    ensures count { IfOk result (λ literals. length literals.items ≤ most_literals) }
{
    let uses = uses(alloc, source, slots)?;
    let literals = firsts(alloc, &uses)?;
    Ok(literals)
}

/// The uses without repetitions: each literal at its first use only.
fn firsts(alloc: Global, uses: &[Text]) -> Result<Vec<Text>, AllocError>
    requires { length uses.now ≤ most_literals }
    ensures firsts { IfOk result (λ literals. literals.items ≡ firsts [] uses.now) }
    ensures count { IfOk result (λ literals. length literals.items ≤ most_literals) }
{
    let mut literals = Vec::new(alloc);
    for i in 0..uses.len() {
        let literal = uses[i];
        if is_used(&literals, literal.characters()) {
            continue;
        }
        literals.push(literal)?;
    }
    Ok(literals)
}

/// The last position of a literal, if the literals are placed one after the other from a place on.
pub(crate) fn literal_end(place: u32, literals: &[Text], wanted: &[Code]) -> u32
    requires place { place ≤ farthest }
    requires count { length literals.now ≤ most_literals }
    requires limit { length wanted.now ≤ longest_text }
    ensures { result ≡ literal_end place literals.now wanted.now }
{
    let mut here = place;
    for literal in literals {
        let length = literal.characters().len() as u32;
        if is_same(literal, wanted) {
            return (here + length).saturating_sub(1);
        }
        here += length;
    }
    here
}
