//! Films.

ghost use Rattle.std.specs.Prelude.{◌≡◌, ◌-◌, ◌<◌, length, min, option_copied, IfErr, IfOk, OnOk};
ghost use Rattle.core_store.specs.Storage.{blank_storage, positions_of};
ghost use Rattle.units.specs.declared.profiles.Profile.TheVariants.{Selecting};
ghost use Rattle.machine.specs.{
  Reports.{report_of},
  Run.{State, after, attempts, loaded, most_instructions},
};
ghost use Rattle.films.specs.{
  Films.{IsFilm, IsHinderedAt, begun, end_cause, most_steps, passed_over, rest_of, text_before},
  Laws.{Shows},
  declared.films.FilmError.TheVariants.{NoMemory},
};

use crate::filming::push_changes;
use crate::readers::{push_deck, push_names, push_size};
use cards::Deck;
use check_causes::{Cause, cause_of};
use core_store::{Core, PlaneCore, Size};
use machine::{MOST_INSTRUCTIONS, Parts, Report, StandingAt};
use run_traces::{Names, advance, load};
use std::alloc::{AllocError, Global};
use units::Switches;

/// Which steps of a run a film has.
#[derive(Clone, Copy, Debug)]
pub struct FilmOptions {
    /// The number of the first instruction that is shown, from 1.
    pub from: u32,
    /// How many are shown.
    pub count: u32,
}

/// The film of a run.
#[derive(Drop)]
pub struct Film {
    /// Its text.
    pub text: Vec<u8>,
    /// How many instructions came before its first frame.
    pub made: u32,
    /// How many steps it has.
    pub steps: u32,
    /// The standing of the machine at its end.
    pub standing: StandingAt,
    /// The cause of the check with which it ends, if it ends so.
    pub cause: Option<Cause>,
    /// How many instructions the whole run has.
    pub instructions: u32,
    /// The report of the machine after the whole run.
    pub report: Report,
}

/// Why there is no film.
#[derive(Clone, Copy, Debug)]
pub enum FilmError {
    /// Its changes have over 4,000,000 bytes; those of so many steps have not.
    TooLong { steps: u32 },
    /// There is no memory.
    NoMemory,
}

impl From<AllocError> for FilmError {
    ghost from_gives = { λ _ error. error ≡ NoMemory };

    fn from(_error: AllocError) -> FilmError {
        FilmError::NoMemory
    }
}

impl FilmOptions {
    /// How many instructions are passed over before the film.
    fn passed_over(self) -> u32
        ensures { result ≡ passed_over self }
    {
        self.from.saturating_sub(1).min(MOST_INSTRUCTIONS)
    }

    /// How many steps the film has at most.
    fn most_steps(self) -> u32
        ensures { result ≡ most_steps self }
    {
        self.count
            .min(MOST_INSTRUCTIONS.saturating_sub(self.passed_over()))
    }

    /// How many steps come behind those of the film, to the end of a whole run.
    fn steps_behind(self) -> u32
        ensures { result ≡ rest_of self }
    {
        MOST_INSTRUCTIONS
            .saturating_sub(self.passed_over())
            .saturating_sub(self.most_steps())
    }
}

/// How many cards a machine has read.
fn cards_read<C: Core>(parts: &Parts<C>) -> u16
    ensures { result ≡ parts.now.works.units.hopper.taken }
{
    parts.units.hopper.taken
}

/// The cause of the check that a machine is at, if it is at one.
fn end_cause<C: Core>(parts: &Parts<C>) -> Option<Cause>
    ensures { result ≡ end_cause parts.now }
{
    if parts.standing.is_checked() {
        cause_of(parts)
    } else {
        None
    }
}

impl Film {
    /// Returns the film of a deck's run on a machine with stacker selection: the steps that the
    /// options ask for, up to the first halt or check, with the cards of a source where its names
    /// are given. What is read of its text are the frames of the machine after each step.
    ///
    /// Fails if the changes are too long, and if there is no memory.
    pub fn of(
        alloc: Global,
        deck: &Deck,
        size: Size,
        switches: Switches,
        names: Option<&Names>,
        options: FilmOptions,
    ) -> Result<Film, FilmError>
        requires { 0 < length deck.now }
        ensures film { IfOk result (IsFilm (option_copied names.entry) options
            (loaded deck.now size switches Selecting)) }
        ensures shown { IfOk result (λ film. Shows film.text.items
            (begun options (loaded deck.now size switches Selecting)) film.steps) }
        ensures hindered { IfErr result (IsHinderedAt (option_copied names.entry) options
            (loaded deck.now size switches Selecting)) }
    {
        // That the deck has at most 2,000 cards, for the proof.
        let _cards = deck.cards();
        let mut machine = load(alloc, deck, size, switches)?;
        let mut storage = PlaneCore::blank(alloc, size)?;
        let passed = options.passed_over();
        let made = advance(&mut machine, passed)?;
        let taken = cards_read(machine.parts());
        let mut changes = Vec::new(alloc);
        let limit = options.most_steps();
        let steps = push_changes(
            alloc,
            &mut changes,
            &mut machine,
            &mut storage,
            names,
            limit,
        )?;
        let parts = machine.parts();
        let standing = parts.standing_at();
        let cause = end_cause(parts);
        let mut text = text_before(alloc, parts, names, made, taken)?;
        text.extend_from_slice(&changes)?;
        let rest = options.steps_behind();
        let more = advance(&mut machine, rest)?;
        Ok(Film {
            text,
            made,
            steps,
            standing,
            cause,
            instructions: made + steps + more,
            report: Report::of(machine.parts()),
        })
    }
}

/// The lines of a film's text before its changes, of a machine at its end. When it began, so many
/// instructions had been made and so many cards read.
fn text_before<C: Core>(
    alloc: Global,
    parts: &Parts<C>,
    names: Option<&Names>,
    made: u32,
    taken: u16,
) -> Result<Vec<u8>, AllocError>
    ensures { IfOk result (λ text. text.items
        ≡ text_before (option_copied names.entry) made taken parts.now) }
{
    let hopper = &parts.units.hopper;
    let mut text = Vec::new(alloc);
    push_size(&mut text, parts.core.size(), made)?;
    push_names(&mut text, names)?;
    let count = (u32::from(hopper.taken) + 2).saturating_sub(u32::from(taken));
    push_deck(&mut text, hopper.deck.cards(), taken, count)?;
    Ok(text)
}

/// Returns how many instructions a deck's run has, on a machine with stacker selection. Fails only
/// if there is no memory.
pub fn instructions_of(
    alloc: Global,
    deck: &Deck,
    size: Size,
    switches: Switches,
) -> Result<u32, AllocError>
    requires { 0 < length deck.now }
    ensures { IfOk result (λ count. count
        ≡ attempts (loaded deck.now size switches Selecting) most_instructions) }
{
    let mut machine = load(alloc, deck, size, switches)?;
    advance(&mut machine, MOST_INSTRUCTIONS)
}
