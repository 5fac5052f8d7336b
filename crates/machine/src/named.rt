//! What the characters of an instruction name: the words in which the definitions of
//! `specs/Word.antt` and `specs/Effect.antt` speak.
//!
//! No value of these types is ever made when a machine runs. It carries out an `Instruction`, which
//! has its characters as they are; the contracts say which `Decoded` that is.

use crate::branches::{Condition, PositionTest};
use crate::operations::FieldOperation;
use bcd::Code;
use units::{CarriageOrder, Devices, Pocket};

/// An operation, named by its first character.
#[derive(Clone, Copy)]
pub enum Operation {
    /// An operation on the fields at the two addresses.
    OnFields(FieldOperation),
    /// `/`: clear storage, and branch.
    ClearStorage,
    /// `B`: branch, on a condition or on a character at a position.
    Branch,
    /// `V`: branch on word mark or zone.
    BranchOnMarkOrZone,
    /// `1` to `7`: read a card, print a line, punch a card, or several of these.
    Operate(Devices),
    /// `F`: control carriage.
    MoveCarriage,
    /// `K`: choose the pocket of the next card punched.
    ChoosePocket,
    /// `Q`: store the A register.
    StoreA,
    /// `H`: store the B register.
    StoreB,
    /// `.`: halt.
    Halt,
    /// `N`: no operation.
    NoOperation,
}

/// What the last character of an instruction means.
#[derive(Clone, Copy)]
pub enum Modifier {
    /// Nothing: it is the operation itself or part of an address.
    Plain,
    /// The condition of a branch of five characters.
    OnCondition(Condition),
    /// The character that a branch of eight compares with the one at its second address.
    OnCharacter(Code),
    /// The test that a branch on word mark or zone makes at its second address.
    OnTest(PositionTest),
    /// The order to the carriage.
    ByOrder(CarriageOrder),
    /// The pocket of the next card punched.
    ToPocket(Pocket),
}

/// A decoded instruction. Without an address in the instruction, the registers are used as they
/// are.
#[derive(Clone, Copy)]
pub struct Decoded {
    pub operation: Operation,
    /// The number of characters of the instruction.
    pub length: u16,
    pub a: u16,
    pub b: u16,
    pub modifier: Modifier,
}
