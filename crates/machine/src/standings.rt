//! Whether a machine runs, and where it stopped.

ghost use Rattle.std.specs.Prelude.{◌≡◌, Some};
ghost use Rattle.machine.specs.{
  Run.{is_running, is_checked, event_of},
  Standings.{goes_on, is_at_halt, standing_at, standing_words},
};

use core_store::Check;
use std::fmt;
use std::fmt::{Display, Formatter};

/// Whether a machine is running, is at a halt, or is at a check.
#[derive(Clone, Copy, Debug, PartialEq, Eq)]
pub enum Standing {
    /// It continues with the instruction at register I.
    Running,
    /// It is at a halt, from which the operator may start it again.
    Halted,
    /// The instruction at register I stopped it for good.
    Checked(Check),
}

/// What a step returns: the standing after it.
#[derive(Clone, Copy, Debug, PartialEq, Eq)]
pub enum Event {
    /// It is running.
    Next,
    /// It is at a halt.
    Halt,
    /// It is at a check.
    Check(Check),
}

impl Standing {
    /// The event that a step returns for this standing.
    pub fn event(self) -> Event
        ensures { result ≡ event_of self }
    {
        match self {
            Standing::Running => Event::Next,
            Standing::Halted => Event::Halt,
            Standing::Checked(check) => Event::Check(check),
        }
    }

    /// Whether the machine is running.
    pub fn is_running(self) -> bool
        ensures { result ≡ is_running self }
    {
        matches!(self, Standing::Running)
    }

    /// Whether the machine was stopped by a check.
    pub fn is_checked(self) -> bool
        ensures { result ≡ is_checked self }
    {
        matches!(self, Standing::Checked(_))
    }
}

/// The standing of a machine with its address, as reports and replies have it. Its `Display` is
/// what is printed.
#[derive(Clone, Copy, Debug, PartialEq, Eq)]
pub enum StandingAt {
    /// Running.
    Running,
    /// At a halt. A start continues at this address.
    Halted { next: u16 },
    /// Stopped by the instruction at this address.
    Checked { check: Check, at: u16 },
}

impl StandingAt {
    /// The standing of a machine whose register I holds this address.
    pub fn new(standing: Standing, address: u16) -> StandingAt
        ensures { result ≡ standing_at standing address }
    {
        match standing {
            Standing::Running => StandingAt::Running,
            Standing::Halted => StandingAt::Halted { next: address },
            Standing::Checked(check) => StandingAt::Checked { check, at: address },
        }
    }

    /// Whether the machine is running.
    pub fn goes_on(self) -> bool
        ensures { result ≡ goes_on self }
    {
        matches!(self, StandingAt::Running)
    }

    /// Whether the machine is at a halt, and may be started.
    pub fn is_at_halt(self) -> bool
        ensures { result ≡ is_at_halt self }
    {
        matches!(self, StandingAt::Halted { .. })
    }
}

impl Display for StandingAt {
    ghost output = { λ standing. Some (standing_words standing) };

    fn fmt<W: fmt::Write>(&self, formatter: &mut Formatter<W>) -> fmt::Result {
        match self {
            StandingAt::Running => formatter.write_str("running"),
            StandingAt::Halted { next } => write!(formatter, "halted next {next}"),
            StandingAt::Checked { check, at } => {
                let name = check.name();
                write!(formatter, "check {name} at {at}")
            }
        }
    }
}
