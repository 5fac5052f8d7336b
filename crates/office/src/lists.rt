//! The lists in replies.

use autocoder_layout::CardFault;
use cards::Card;
use machine::StandingAt;
use std::marker::Model;
use units::Line;

/// Cards that a job has punched, in order.
#[derive(Drop)]
pub struct PunchedCards(pub Vec<Card>);

impl Model for PunchedCards {
    ghost use Rattle.std.specs.Prelude.{List};
    ghost use Rattle.cards.specs.declared.decks.Card.{Card};

    ghost Value = { List Card };

    ghost view = { λ list. list.0.items };
}

/// The lines that a job has printed, in order.
#[derive(Drop)]
pub struct Listing(pub Vec<Line>);

impl Model for Listing {
    ghost use Rattle.std.specs.Prelude.{List};
    ghost use Rattle.units.specs.declared.printer.Line.{Line};

    ghost Value = { List Line };

    ghost view = { λ list. list.0.items };
}

/// An entry of the list of a customer's jobs.
#[derive(Clone, Copy, Debug, PartialEq, Eq)]
pub struct JobLine {
    pub number: u32,
    pub held: bool,
    pub collected: bool,
    pub standing: StandingAt,
}

/// A customer's jobs, by number.
#[derive(Drop)]
pub struct JobList(pub Vec<JobLine>);

impl Model for JobList {
    ghost use Rattle.std.specs.Prelude.{List};
    ghost use Rattle.office.specs.declared.lists.JobLine.{JobLine};

    ghost Value = { List JobLine };

    ghost view = { λ list. list.0.items };
}

/// An entry of the queue: a job by its customer and number.
#[derive(Drop)]
pub struct QueueLine {
    pub customer: String,
    pub number: u32,
}

impl Model for QueueLine {
    ghost use Rattle.std.specs.Prelude.{string_bytes};
    ghost use Rattle.office.specs.Queued.{QueuedJob};

    ghost Value = { QueuedJob };

    ghost view = { λ line. record {
      customer = string_bytes line.customer;
      number = line.number;
    } };
}

/// The jobs that are running and not held, by customer and then by number.
#[derive(Drop)]
pub struct QueueList(pub Vec<QueueLine>);

impl Model for QueueList {
    ghost use Rattle.std.specs.Prelude.{List};
    ghost use Rattle.office.specs.Queued.{QueuedJob};

    ghost Value = { List QueuedJob };

    ghost view = { λ list. list.0.items };
}

/// The faults of a source in card order, at most one for each card.
#[derive(Drop)]
pub struct SourceFaults(pub Vec<CardFault>);

impl Model for SourceFaults {
    ghost use Rattle.std.specs.Prelude.{List};
    ghost use Rattle.autocoder_layout.specs.declared.card_faults.CardFault.{CardFault};

    ghost Value = { List CardFault };

    ghost view = { λ list. list.0.items };
}
