//! The causes of checks, in words.

ghost use Rattle.std.specs.Prelude.{◌≡◌, Some};
ghost use Rattle.check_causes.specs.Words.{cause_words, check_of};

use core_store::Check;
use std::fmt;
use std::fmt::{Display, Formatter};

/// Why a check stopped an instruction. Its `Display` is what is printed. What each says is
/// `IsSo` of `specs/Sentences.antt`.
#[derive(Clone, Copy, Debug, PartialEq, Eq)]
pub enum Cause {
    /// Register I is past the storage.
    RegisterPast,
    /// There is no word mark at register I.
    NoMark,
    /// No word mark ends the instruction.
    NoEnd,
    /// No operation has this character, or its instructions have another length or last character.
    NoInstruction(char),
    /// The instruction selects a pocket, which a machine of the plain profile cannot.
    NoSelection,
    /// These three characters are no address.
    NoAddress(char, char, char),
    /// An address names this position, which is past the storage.
    AddressPast(u16),
    /// The index location that ends at this position has no address.
    NoIndex(u16),
    /// A field would be at this position, which is past the storage.
    FieldPast(u16),
    /// The field that ends at this position has no word mark.
    NoFieldMark(u16),
    /// More characters would end at this position than there are positions at or to the left of it.
    TooFew(u16),
    /// The word mark at this position, which ends a field that is loaded, would be written over
    /// before it is read.
    MarkWrittenOver(u16),
    /// The character at this position is no digit.
    NoDigit(char, u16),
    /// The three characters that end at this position are no address.
    NoNumber(u16),
    /// The fields overlap.
    Overlap,
    /// The reader has no card left, after so many.
    NoCard(u16),
    /// The punch has made as many cards as it can.
    PunchFull,
    /// The printer has made as many lines or forms as it can.
    PrinterFull,
}

impl Cause {
    /// The check that this is a cause of.
    pub fn check(self) -> Check
        ensures { result ≡ check_of self }
    {
        match self {
            Cause::NoMark | Cause::NoEnd | Cause::NoInstruction(_) | Cause::NoSelection => {
                Check::Instruction
            }
            Cause::NoDigit(..) | Cause::NoNumber(_) => Check::Data,
            Cause::Overlap => Check::Overlap,
            Cause::NoCard(_) => Check::ReaderEmpty,
            Cause::PunchFull => Check::PunchFull,
            Cause::PrinterFull => Check::PrinterFull,
            _ => Check::Address,
        }
    }
}

impl Display for Cause {
    ghost output = { λ cause. Some (cause_words cause) };

    fn fmt<W: fmt::Write>(&self, formatter: &mut Formatter<W>) -> fmt::Result {
        match self {
            Cause::RegisterPast => formatter.write_str("register I is past the storage"),
            Cause::NoMark => formatter.write_str("no mark at its first character"),
            Cause::NoEnd => formatter.write_str("no mark ends the instruction"),
            Cause::NoInstruction(glyph) => {
                write!(formatter, "no such operation or form: {glyph}")
            }
            Cause::NoSelection => formatter.write_str("this machine has no stacker selection"),
            Cause::NoAddress(first, second, third) => {
                write!(formatter, "no address: {first}{second}{third}")
            }
            Cause::AddressPast(position) => write!(formatter, "past the storage: {position:05}"),
            Cause::NoIndex(position) => {
                write!(
                    formatter,
                    "no number in the index location at {position:05}"
                )
            }
            Cause::FieldPast(position) => {
                write!(formatter, "a field past the storage: {position:05}")
            }
            Cause::NoFieldMark(position) => write!(
                formatter,
                "the field at {position:05} has no mark at or to the left of it"
            ),
            Cause::TooFew(position) => write!(
                formatter,
                "too few positions at or to the left of {position:05}"
            ),
            Cause::MarkWrittenOver(position) => write!(
                formatter,
                "the mark at {position:05} would be written over before it is read"
            ),
            Cause::NoDigit(glyph, position) => {
                write!(formatter, "no digit: {glyph} at {position:05}")
            }
            Cause::NoNumber(position) => {
                write!(formatter, "no address in the field at {position:05}")
            }
            Cause::Overlap => formatter.write_str("the fields overlap"),
            Cause::NoCard(count) => {
                write!(formatter, "the reader has no card left: {count} were read")
            }
            Cause::PunchFull => formatter.write_str("no more cards can be punched"),
            Cause::PrinterFull => formatter.write_str("no more lines or forms can be printed"),
        }
    }
}
