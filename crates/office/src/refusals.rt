//! Why a command is refused.

ghost use Rattle.std.specs.Prelude.{◌≡◌};
ghost use Rattle.office.specs.Numbers.{refusal_number};

use crate::lists::SourceFaults;

/// Why a command is refused. A refusal changes nothing.
#[derive(Drop)]
pub enum Refusal {
    /// The customer is not 1 to 12 capital letters and digits.
    Customer,
    /// The number is not 1 to 999999.
    Number,
    /// There is no machine of this size.
    Size,
    /// The deck has no card, or there would be over 2,000 cards to load.
    Deck,
    /// There is a job of this name with other contents.
    OtherContents,
    /// The customer has 200 jobs.
    TooManyJobs,
    /// The source has these faults.
    Assembly(SourceFaults),
    /// There is no job of this name.
    NoJob,
    /// The limit is not 1 to 2,000.
    Limit,
    /// The job is held.
    Held,
    /// The job's machine is not running.
    NotRunning,
    /// The job's machine is not at a halt; for a collection, it is still running.
    NotAtHalt,
    /// The job is held already.
    AlreadyHeld,
    /// The job is not held.
    NotHeld,
    /// The job was collected.
    Collected,
    /// With this grant the job would have been granted more than 1,000,000,000 instructions.
    TooMuch,
    /// The pocket is not 0, 4 or 8.
    NoSuchPocket,
}

impl Refusal {
    /// The number that is printed for the refusal.
    pub fn number(&self) -> u8
        ensures { result ≡ refusal_number self.now }
    {
        match self {
            Refusal::Customer => 10,
            Refusal::Number => 11,
            Refusal::Size => 12,
            Refusal::Deck => 13,
            Refusal::OtherContents => 14,
            Refusal::TooManyJobs => 15,
            Refusal::Assembly(_) => 16,
            Refusal::NoJob => 20,
            Refusal::Limit => 21,
            Refusal::Held => 22,
            Refusal::NotRunning => 23,
            Refusal::NotAtHalt => 24,
            Refusal::AlreadyHeld => 25,
            Refusal::NotHeld => 26,
            Refusal::Collected => 27,
            Refusal::TooMuch => 28,
            Refusal::NoSuchPocket => 29,
        }
    }
}
