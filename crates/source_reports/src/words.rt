//! The words for each fault of a source.

ghost use Rattle.std.specs.Prelude.{◌≡◌};
ghost use Rattle.source_reports.specs.Words.{words_of};

use autocoder_layout::SourceFault;
use autocoder_statements::StatementFault;

/// What a fault means, as the help of the program that assembles says it.
#[tactic(auto, unfolding(crate::specs::Words::words_of))]
pub fn words_of(fault: SourceFault) -> &'static str
    ensures { result.now ≡ words_of fault }
{
    match fault {
        SourceFault::NoMemory => "there is not enough memory",
        SourceFault::Statement(StatementFault::BrokenField) => {
            "text after a blank in columns 6 to 15 or 16 to 20"
        }
        SourceFault::Statement(StatementFault::UnknownOperation) => "no such operation",
        SourceFault::Statement(StatementFault::Operand) => "the operand is wrong",
        SourceFault::Statement(StatementFault::Label) => "the label is wrong",
        SourceFault::TakenLabel => "the label is used twice",
        SourceFault::UnknownName => "no card has this label",
        SourceFault::Outside => "an address past the storage",
        SourceFault::Reserved => "a position below 081",
        SourceFault::Filled => "a position is filled twice",
        SourceFault::NoEnd => "the END card is missing",
    }
}
