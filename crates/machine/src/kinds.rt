//! The kinds of instructions: those that are executed at once, and all others.

ghost use Rattle.std.specs.Prelude.{◌≡◌, true, false, codes};
ghost use Rattle.machine.specs.{
  Glyphs.{is_glyph},
  Kinds.{is_of_kind, is_on_fields, is_usual},
};

use crate::characters::*;
use crate::shapes::Shape;

/// What an instruction is, as far as it matters for doing it at once.
#[derive(Clone, Copy)]
pub enum Kind {
    /// `A`.
    Add,
    /// `S`.
    Subtract,
    /// `C`.
    Compare,
    /// `?`.
    ZeroAdd,
    /// `!`.
    ZeroSubtract,
    /// `#`.
    ModifyAddress,
    /// `M`.
    Move,
    /// `L`.
    Load,
    /// `Z`.
    Suppress,
    /// `E`.
    Edit,
    /// `B` that tests nothing.
    Branch,
    /// `B` of five characters.
    BranchOnCondition,
    /// `B` of eight characters.
    BranchOnCharacter,
    /// `V`.
    BranchOnTest,
    /// `M`, if index locations or the registers tell its positions.
    IndexedMove,
    /// `B` of eight characters, if index locations tell its positions.
    IndexedBranch,
    /// All others, and those above that cannot be done at once.
    Other,
}

/// The kind of a branch.
fn branch_of(shape: &Shape) -> Kind
    requires { is_glyph shape.now.first (codes "B") ≡ true }
    ensures { is_of_kind result shape.now ≡ true }
{
    match shape.length {
        5 => Kind::BranchOnCondition,
        8 => Kind::BranchOnCharacter,
        _ => Kind::Branch,
    }
}

impl Kind {
    /// The kind of an instruction.
    #[inline(always)]
    pub fn of_shape(shape: &Shape) -> Kind
        ensures { is_of_kind result shape.now ≡ true }
    {
        match shape.first.number() {
            ADD => Kind::Add,
            SUBTRACT => Kind::Subtract,
            COMPARE => Kind::Compare,
            ZERO_ADD => Kind::ZeroAdd,
            ZERO_SUBTRACT => Kind::ZeroSubtract,
            MODIFY_ADDRESS => Kind::ModifyAddress,
            MOVE => Kind::Move,
            LOAD => Kind::Load,
            SUPPRESS => Kind::Suppress,
            EDIT => Kind::Edit,
            BRANCH => branch_of(shape),
            BRANCH_ON_MARK_OR_ZONE => Kind::BranchOnTest,
            _ => Kind::Other,
        }
    }

    /// The kind of an instruction that does not tell its positions by its characters alone.
    pub fn of_indexed(shape: &Shape) -> Kind
        ensures kind { is_of_kind result shape.now ≡ true }
        ensures usual { is_usual result ≡ false }
        ensures fields { is_on_fields result ≡ false }
    {
        match Kind::of_shape(shape) {
            Kind::Move => Kind::IndexedMove,
            Kind::BranchOnCharacter => Kind::IndexedBranch,
            _ => Kind::Other,
        }
    }

    /// Whether instructions of this kind work on fields whose positions are kept.
    pub fn is_on_fields(self) -> bool
        ensures { result ≡ is_on_fields self }
    {
        match self {
            Kind::Branch
            | Kind::BranchOnCondition
            | Kind::BranchOnCharacter
            | Kind::BranchOnTest
            | Kind::IndexedMove
            | Kind::IndexedBranch
            | Kind::Other => false,
            _ => true,
        }
    }
}
