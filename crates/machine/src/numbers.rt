//! A comparison, an order to the carriage and a standing as numbers, as files and films write them.

ghost use Rattle.std.specs.Prelude.{◌≡◌};
ghost use Rattle.machine.specs.Numbers.{check_number, compare_number, standing_number, waiting_number};

use crate::standings::Standing;
use core_store::{Check, Compared};
use units::Motion;

/// Returns the number of a comparison: 0 equal, 1 B low, 2 B high.
pub fn compare_number(compare: Compared) -> u32
    ensures { result ≡ compare_number compare }
{
    match compare {
        Compared::Equal => 0,
        Compared::Low => 1,
        Compared::High => 2,
    }
}

/// Returns the number of the order that waits for the next line: 0 none, 1 to 3 spaces, 4 skip.
pub fn waiting_number(waiting: Option<Motion>) -> u32
    ensures { result ≡ waiting_number waiting }
{
    match waiting {
        None => 0,
        Some(Motion::Space) => 1,
        Some(Motion::DoubleSpace) => 2,
        Some(Motion::TripleSpace) => 3,
        Some(Motion::SkipToChannel1) => 4,
    }
}

/// The number of a check, 2 to 8.
fn check_number(check: Check) -> u32
    ensures { result ≡ check_number check }
{
    match check {
        Check::Address => 2,
        Check::Instruction => 3,
        Check::Data => 4,
        Check::Overlap => 5,
        Check::ReaderEmpty => 6,
        Check::PunchFull => 7,
        Check::PrinterFull => 8,
    }
}

/// Returns the number of a standing: 0 running, 1 halted, 2 to 8 the checks.
pub fn standing_number(standing: Standing) -> u32
    ensures { result ≡ standing_number standing }
{
    match standing {
        Standing::Running => 0,
        Standing::Halted => 1,
        Standing::Checked(check) => check_number(check),
    }
}
