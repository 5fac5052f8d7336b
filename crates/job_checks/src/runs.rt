//! A job that was run again.

ghost use Rattle.std.specs.Prelude.{◌≡◌, pos, string_bytes, true, IfOk};
ghost use Rattle.machine.specs.Ranges.{IsInRange};
ghost use Rattle.office.specs.{Jobs.{loaded_deck, picture}, Kept.{kept_of, summary_of}};
ghost use Rattle.texts.specs.Names.{is_customer, is_number};
ghost use Rattle.office_tables.specs.Standing.{CanBeKept};
ghost use Rattle.job_checks.specs.{Jobs.{HasComeTo, entry_of}, Reports.{Tells}};

use crate::reports::{JobReport, Outcome};
use crate::submitted::Numbers;
use cards::Deck;
use core_store::{PlaneCore, Size};
use machine::{Machine, Parts, runs_only_add};
use office::{Kind, Stretch, Summary, granted_in};
use std::alloc::{AllocError, Global};
use std::marker::Model;
use texts::JobName;
use units::Profile;

/// A job that was run again: what its customer handed in, its stretches and flags, and its machine
/// where they lead.
#[derive(Drop)]
pub struct JobRun {
    customer: String,
    number: u32,
    numbers: Numbers,
    deck: Deck,
    profile: Profile,
    stretches: Vec<Stretch>,
    machine: Machine<PlaneCore>,
}

impl Model for JobRun {
    ghost use Rattle.std.specs.Prelude.{string_bytes};
    ghost use Rattle.office.specs.Office.{Entry};
    ghost use Rattle.job_checks.specs.Jobs.{HasComeTo, entry_of};

    ghost Value = { Entry };

    ghost view = { λ run. entry_of (string_bytes run.customer) run.number run.numbers run.deck
        run.profile run.stretches.items };

    ghost invariant = { λ run. HasComeTo (entry_of (string_bytes run.customer) run.number
        run.numbers run.deck run.profile run.stretches.items) run.machine };
}

impl JobRun {
    /// The job with this name, these contents and stretches, and the machine that they lead to.
    /// Fails only if there is no memory.
    pub(crate) fn of(
        alloc: Global,
        name: JobName<'_>,
        numbers: Numbers,
        deck: Deck,
        profile: Profile,
        stretches: Vec<Stretch>,
        machine: Machine<PlaneCore>,
    ) -> Result<JobRun, AllocError>
        requires { HasComeTo (entry_of name.customer.now name.number numbers deck profile
            stretches.items) machine }
        ensures { IfOk result (λ run. run ≡ entry_of name.entry.customer.now name.entry.number
            numbers deck profile stretches.items) }
    {
        Ok(JobRun {
            customer: String::from_str(alloc, name.customer)?,
            number: name.number,
            numbers,
            deck,
            profile,
            stretches,
            machine,
        })
    }

    /// Its customer.
    pub fn customer(&self) -> &str
        ensures its { result.now ≡ self.now.customer }
        ensures customer { is_customer result.now ≡ true }
    {
        self.customer.as_str()
    }

    /// Its number.
    pub fn number(&self) -> u32
        ensures its { result ≡ self.now.number }
        ensures number { is_number result ≡ true }
    {
        self.number
    }

    /// The kind of its deck.
    pub fn kind(&self) -> Kind
        ensures { result ≡ self.now.job.kind }
    {
        self.numbers.kind
    }

    /// The size of its machine's storage.
    pub fn size(&self) -> Size
        ensures { result ≡ self.now.job.size }
    {
        self.numbers.size
    }

    /// Whether it is held.
    pub fn is_held(&self) -> bool
        ensures { result ≡ self.now.job.held }
    {
        self.numbers.held
    }

    /// Whether it was collected.
    pub fn is_collected(&self) -> bool
        ensures { result ≡ self.now.job.collected }
    {
        self.numbers.collected
    }

    /// Its deck, as it was handed in.
    pub fn deck(&self) -> &Deck
        ensures { result.now ≡ self.now.job.deck }
    {
        &self.deck
    }

    /// The deck that its machine loads: an object deck itself, or for a source its loading cards
    /// and then its data.
    pub fn loaded_deck(&self) -> &Deck
        ensures { result.now ≡ loaded_deck self.now.job }
    {
        // A law, for the proof: it does nothing.
        runs_only_add();
        &self.machine().units.hopper.deck
    }

    /// The profile of its machine.
    pub fn profile(&self) -> Profile
        ensures { result ≡ self.now.job.profile }
    {
        self.profile
    }

    /// Its stretches.
    pub fn stretches(&self) -> &[Stretch]
        ensures { result.now ≡ self.now.job.stretches }
    {
        self.stretches.as_slice()
    }

    /// The picture of its machine.
    pub fn machine(&self) -> &Parts<PlaneCore>
        ensures picture { result.now ≡ picture self.now.job }
        ensures in_range { IsInRange result.now }
        ensures kept { CanBeKept self.now.job }
    {
        self.machine.parts()
    }

    /// Its summary.
    pub fn summary(&self) -> Summary
        ensures { result ≡ summary_of (kept_of self.now.job) }
    {
        let machine = self.machine();
        Summary {
            standing: machine.standing_at(),
            held: self.is_held(),
            collected: self.is_collected(),
            granted: granted_in(self.stretches()),
            cards: machine.units.cards_in_all() as u32,
            lines: machine.units.lines_in_all() as u32,
        }
    }

    /// What a check tells of it.
    pub(crate) fn report(&self, alloc: Global) -> Result<JobReport, AllocError>
        ensures { IfOk result (λ report. Tells report self.now) }
    {
        Ok(JobReport {
            customer: Vec::from_slice(alloc, self.customer().as_bytes())?,
            number: i64::from(self.number()),
            outcome: Outcome::AsItRan(self.summary()),
        })
    }
}
