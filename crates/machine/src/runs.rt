//! Machines, and whole runs of them.

ghost use Rattle.std.specs.Prelude.{◌≡◌, ◌+◌, ◌-◌, ◌<◌, ◌≤◌, ◌&&◌, ℕ, List, [], length, true, false, IfOk, IfSome, MatchOption, OnErr, OnOk, if◌then◌else◌, take};
ghost use Rattle.cards.specs.declared.decks.Card.{Card};
ghost use Rattle.core_store.specs.declared.sizes.Size.{Size};
ghost use Rattle.units.specs.{
  declared.profiles.Profile.{Profile},
  declared.switches.Switches.{Switches},
};
ghost use Rattle.core_store.specs.Storage.{blank_storage, put_codes, with_mark, positions_of};
ghost use Rattle.units.specs.{Listing.{IsRising}, Ranges.{AreUnits}, Stacked.{IsPlain}, Units.{Makes}};
ghost use Rattle.machine.specs.{
  Earlier.{without_outputs},
  Run.{first_card, first_units, State, step, after, attempts, executed, lines_of, risen, is_running, is_checked, is_halted, event_of, loaded, started, restored, IsGivenUp},
  Effect.{works_of},
  Ranges.{IsInRange},
};

use crate::meter::Meter;
use crate::parts::Parts;
use crate::standings::{Event, Standing};
use cards::Deck;
use core_store::{Compared, Core, Registers, Size};
use std::alloc::{AllocError, Global};
use std::marker::Model;
use units::{Carriage, Counts, Hopper, Pocket, Printer, Profile, Punch, Switches, Units, put_card};

/// How a run ended.
#[derive(Clone, Copy, Debug, PartialEq, Eq)]
pub struct Ran {
    /// The number of executed instructions. One that ended in a check is not counted.
    pub executed: u32,
    pub standing: Standing,
}

/// The state that a run returns to, beside the storage, if memory runs out during it.
#[derive(Clone, Copy)]
struct Checkpoint {
    registers: Registers,
    taken: u16,
    cards: usize,
    chosen: Pocket,
    lines: usize,
    carriage: Carriage,
    standing: Standing,
}

/// A machine, with the second storage that a run returns to if memory runs out.
#[derive(Drop)]
pub struct Machine<C: Core> {
    parts: Parts<C>,
    spare: C,
}

impl<C: Core> Model for Machine<C> {
    ghost use Rattle.std.specs.Prelude.{◌≡◌, length};
    ghost use Rattle.machine.specs.Run.{State};
    ghost use Rattle.machine.specs.Ranges.{IsInRange};

    ghost Value = { State };

    ghost view = { λ m. m.parts };

    ghost invariant = { λ m. IsInRange m.parts
        × (length m.parts.works.storage ≡ length (C.cells m.spare)) };
}

/// The registers after the load button: the first instruction is at 001.
fn first_registers() -> Registers
    ensures { result ≡ record { i = 1; a = 0; b = 0; compare = Compared.Equal; overflow = false } }
{
    Registers {
        i: 1,
        a: 0,
        b: 0,
        compare: Compared::Equal,
        overflow: false,
    }
}

/// A storage with the first card in its read area, marked at its left.
fn loaded_core<C: Core>(alloc: Global, deck: &Deck, size: Size) -> Result<C, AllocError>
    requires { 0 < length deck.now }
    ensures { IfOk result (λ core. C.cells core ≡ with_mark
        (put_codes (blank_storage (positions_of size)) 1 (first_card deck.now)) 1 true) }
{
    let mut core = C::blank(alloc, size)?;
    put_card(&mut core, &deck.cards()[0]);
    core.set_mark(1);
    Ok(core)
}

/// Units that have read the first card of a deck and made nothing.
fn first_units(alloc: Global, deck: Deck, switches: Switches, profile: Profile) -> Units
    requires { 0 < length deck }
    ensures { result ≡ first_units deck switches profile }
{
    Units {
        hopper: Hopper { deck, taken: 1 },
        before: Counts { cards: 0, lines: 0 },
        punch: Punch {
            cards: Vec::new(alloc),
            chosen: Pocket::Normal,
            profile,
        },
        printer: Printer {
            lines: Vec::new(alloc),
            carriage: Carriage::at_the_top(),
        },
        switches: switches.seven(),
    }
}

impl<C: Core> Machine<C> {
    /// Returns the machine of a profile after the load button is pressed, with a deck in its reader
    /// and the switches set. Memory is taken for its two storages; fails only if there is none.
    pub fn load(
        alloc: Global,
        deck: Deck,
        size: Size,
        switches: Switches,
        profile: Profile,
    ) -> Result<Machine<C>, AllocError>
        requires { 0 < length deck }
        ensures { IfOk result (λ machine. machine ≡ loaded deck size switches profile) }
    {
        let core = loaded_core(alloc, &deck, size)?;
        let spare = C::blank(alloc, size)?;
        let parts = Parts {
            core,
            registers: first_registers(),
            units: first_units(alloc, deck, switches, profile),
            standing: Standing::Running,
        };
        Ok(Machine { parts, spare })
    }

    /// Returns the machine with this picture, or `None` if the picture is not in range. The result
    /// of `parts` is in range, so the same machine can be made from it again. Memory is taken for
    /// the second storage alone, and only for a picture in range.
    pub fn from_parts(alloc: Global, parts: Parts<C>) -> Result<Option<Machine<C>>, AllocError>
        ensures machine { IfOk result (λ made. IfSome made (λ machine. machine ≡ parts)) }
        ensures in_range { IfOk result (λ made.
            MatchOption made (¬ IsInRange parts) (λ _. IsInRange parts)) }
        ensures memory { OnErr result (IsInRange parts) }
    {
        if !parts.is_in_range() {
            return Ok(None);
        }
        let Some(size) = Size::of_positions(u32::from(parts.core.size())) else {
            return Ok(None);
        };
        let spare = C::blank(alloc, size)?;
        Ok(Some(Machine { parts, spare }))
    }

    /// The machine's picture.
    pub fn parts(&self) -> &Parts<C>
        ensures picture { result.now ≡ self.now }
        ensures in_range { IsInRange self.now }
        ensures lines { IsRising (lines_of self.now) }
    {
        &self.parts
    }

    /// Takes memory for all cards and lines that the machine can make, so that its runs take none.
    /// Fails only if there is none.
    pub fn make_room(&mut self) -> Result<(), AllocError>
        ensures { self.new ≡ self.old }
    {
        self.parts.units.make_room()
    }

    /// Removes the cards and lines that were made; they only count from now on. Their memory stays
    /// for further ones.
    pub fn set_aside(&mut self)
        ensures { self.new ≡ without_outputs self.old }
    {
        self.parts.set_aside();
    }

    /// Starts a machine that is at a halt, with the switches set anew.
    pub fn start(&mut self, switches: Switches)
        requires { is_halted self.old.standing ≡ true }
        ensures { self.new ≡ started self.old switches }
    {
        self.parts.start(switches);
    }

    /// Does one instruction. Only one that punches or prints may fail, if there is no memory; then
    /// nothing is changed, the meter included.
    pub fn step(&mut self, meter: &mut Meter) -> Result<Event, AllocError>
        ensures machine { OnOk result (self.new ≡ step self.old) }
        ensures event { IfOk result (λ event. event ≡ event_of (step self.old).standing) }
        ensures meter { OnOk result (meter.new ≡ risen meter.old (attempts self.old 1)) }
        ensures unchanged { OnErr result (self.new ≡ self.old) }
        ensures memory { OnErr result (Makes self.old.works.units (step self.old).works.units) }
        ensures unticked { OnErr result (meter.new ≡ meter.old) }
    {
        let attempted = match self.parts.work_once() {
            Ok(attempted) => attempted,
            Err(_) => return Err(AllocError),
        };
        meter.advance(attempted);
        Ok(self.parts.event())
    }

    /// Runs until the limit, a halt or a check. Every attempted instruction ticks the meter. Only
    /// an instruction that punches or prints may fail, if there is no memory; then the machine is
    /// as before the call, and the instructions done until then have ticked.
    pub fn run(&mut self, limit: u32, meter: &mut Meter) -> Result<Ran, AllocError>
        ensures machine { OnOk result (self.new ≡ after self.old limit) }
        ensures meter { OnOk result (meter.new ≡ risen meter.old (attempts self.old limit)) }
        ensures executed { IfOk result (λ ran. ran.executed ≡ executed self.old limit) }
        ensures standing { IfOk result (λ ran. ran.standing ≡ (after self.old limit).standing) }
        ensures unchanged { OnErr result (self.new ≡ self.old) }
        ensures memory { OnErr result
            (Makes self.old.works.units (after self.old limit).works.units) }
        ensures given_up { OnErr result (IsGivenUp self.old limit meter.old meter.new) }
    {
        let checkpoint = self.parts.checkpoint(&mut self.spare);
        match self.parts.work(limit) {
            Ok(attempted) => {
                meter.advance(attempted);
                Ok(self.parts.report(checkpoint.standing, attempted))
            }
            Err(given_up) => {
                meter.advance(given_up.attempted);
                self.parts.restore(&self.spare, checkpoint);
                Err(AllocError)
            }
        }
    }
}

impl<C: Core> Parts<C> {
    /// Sets the standing to running, with the switches set anew.
    fn start(&mut self, switches: Switches)
        ensures { self.new ≡ started self.old switches }
    {
        self.units.switches = switches.seven();
        self.standing = Standing::Running;
    }

    /// Removes the cards and lines that were made; they only count from now on.
    fn set_aside(&mut self)
        requires { AreUnits self.old.works.units }
        ensures { self.new ≡ without_outputs self.old }
    {
        let Units {
            before,
            punch,
            printer,
            ..
        } = &mut self.units;
        before.cards += punch.cards.len() as u32;
        before.lines += printer.lines.len() as u32;
        punch.cards.clear();
        printer.lines.clear();
    }

    /// Copies the storage to `spare`, and returns the rest of the state.
    fn checkpoint(&self, spare: &mut C) -> Checkpoint
        requires { length self.now.works.storage ≡ length (C.cells spare.old) }
        ensures storage { C.cells spare.new ≡ self.now.works.storage }
        ensures registers { result.registers ≡ self.now.works.registers }
        ensures taken { result.taken ≡ self.now.works.units.hopper.taken }
        ensures cards { result.cards ≡ length self.now.works.units.punch.cards }
        ensures chosen { result.chosen ≡ self.now.works.units.punch.chosen }
        ensures lines { result.lines ≡ length (lines_of self.now) }
        ensures carriage { result.carriage ≡ self.now.works.units.printer.carriage }
        ensures standing { result.standing ≡ self.now.standing }
    {
        spare.copy_from(&self.core);
        Checkpoint {
            registers: self.registers,
            taken: self.units.hopper.taken,
            cards: self.units.punch.cards.len(),
            chosen: self.units.punch.chosen,
            lines: self.units.printer.lines.len(),
            carriage: self.units.printer.carriage,
            standing: self.standing,
        }
    }

    /// Restores a storage and a checkpoint. What was punched and printed since is removed.
    fn restore(&mut self, storage: &C, checkpoint: Checkpoint)
        requires { length self.old.works.storage ≡ length (C.cells storage.now) }
        ensures { self.new ≡ restored self.old (C.cells storage.now) checkpoint }
    {
        self.core.copy_from(storage);
        self.registers = checkpoint.registers;
        self.units.hopper.taken = checkpoint.taken;
        self.units.punch.cards.truncate(checkpoint.cards);
        self.units.punch.chosen = checkpoint.chosen;
        self.units.printer.lines.truncate(checkpoint.lines);
        self.units.printer.carriage = checkpoint.carriage;
        self.standing = checkpoint.standing;
    }

    /// The result of a run that began at a standing and made `attempted` attempts.
    fn report(&self, began: Standing, attempted: u32) -> Ran
        ensures executed { result.executed
            ≡ attempted - (if is_running began && is_checked self.now.standing then 1 else 0) }
        ensures standing { result.standing ≡ self.now.standing }
    {
        let ended_in_check = began.is_running() && self.standing.is_checked();
        Ran {
            executed: if ended_in_check {
                attempted.saturating_sub(1)
            } else {
                attempted
            },
            standing: self.standing,
        }
    }
}

/// The law of the ranges: the picture of a loaded deck is in range, and it stays in range after
/// every run and every start.
pub fn stays_in_range()
    ensures loaded { (deck : List Card) (size : Size) (switches : Switches) (profile : Profile) →
        0 < length deck → IsInRange (loaded deck size switches profile) }
    ensures after { (m : State) (count : ℕ) → IsInRange m → IsInRange (after m count) }
    ensures started { (m : State) (switches : Switches) → IsInRange m →
        IsInRange (started m switches) }
{}

/// The law of what was made: a run keeps the deck, the switches, the profile and the counts of what
/// was made before, and the cards and lines from before it are the first of those after it. In the
/// plain profile, where no pocket was chosen before, none is, and all cards are in the normal one.
pub fn runs_only_add()
    ensures size { (m : State) (count : ℕ) →
        length (after m count).works.storage ≡ length m.works.storage }
    ensures deck { (m : State) (count : ℕ) →
        (after m count).works.units.hopper.deck ≡ m.works.units.hopper.deck }
    ensures before { (m : State) (count : ℕ) →
        (after m count).works.units.before ≡ m.works.units.before }
    ensures switches { (m : State) (count : ℕ) →
        (after m count).works.units.switches ≡ m.works.units.switches }
    ensures cards { (m : State) (count : ℕ) →
        take (length m.works.units.punch.cards) (after m count).works.units.punch.cards
        ≡ m.works.units.punch.cards }
    ensures profile { (m : State) (count : ℕ) →
        (after m count).works.units.punch.profile ≡ m.works.units.punch.profile }
    ensures plain { (m : State) (count : ℕ) → IsPlain m.works.units.punch →
        IsPlain (after m count).works.units.punch }
    ensures lines { (m : State) (count : ℕ) →
        take (length (lines_of m)) (lines_of (after m count)) ≡ lines_of m }
{}

/// The laws of runs: a run of m steps and then one of n is the run of m + n steps, and the same
/// holds for the attempts and for the ticks of the meter.
pub fn runs_add()
    ensures machine { (m : State) (first second : ℕ) →
        after (after m first) second ≡ after m (first + second) }
    ensures attempts { (m : State) (first second : ℕ) →
        attempts m (first + second) ≡ attempts m first + attempts (after m first) second }
    ensures meter { (ticks first second : ℕ) →
        risen (risen ticks first) second ≡ risen ticks (first + second) }
{}
