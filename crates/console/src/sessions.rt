//! Sessions.

ghost use Rattle.std.specs.Prelude.{◌≡◌, ◌+◌, ◌-◌, ◌<◌, ◌≤◌, ◌++◌, List, ℕ, None, Some, length, option_copied, IfOk, OnOk};
ghost use Rattle.machine.specs.Run.{attempts, lines_of, loaded};
ghost use Rattle.units.specs.declared.profiles.Profile.TheVariants.{Selecting};
ghost use Rattle.console.specs.{
  Answers.{advanced, back_shown, backed, cleared, end_shown, going, gone, if_inside, is_inside, limit_of, restarted, set_back, start_shown, started_with, stepped, steps_shown, stopped_at, unwatching, watching, with_stop, without_stop},
  Goes.{watched_cell, went},
};
ghost use Rattle.machine.specs.Ranges.{IsInRange};
ghost use Rattle.units.specs.Listing.{IsRising};
ghost use Rattle.console.specs.{
  Shown.{attempts_shown, field_line, last_shown, stops_line, watched_line, why_line},
  SessionStates.{HasCome, SessionState, begun, machine_of, most_made},
};

use crate::going::{cell_of, go, press, push_attempts, rerun};
use crate::showing::{
    Ends, push_fault, push_field_line, push_if_stopped, push_made, push_past, push_place,
    push_stops, push_watched, push_why,
};
use crate::starts::Start;
use crate::stops::{starts_until, with_stop, without_stop};
use cards::Deck;
use core_store::{Core, PlaneCore, Size};
use machine::{Machine, Parts, Standing};
use run_traces::{Names, load, push_attempt};
use std::alloc::{AllocError, Global};
use std::marker::Model;
use units::Switches;

/// The greatest number of instructions of a session.
const MOST_MADE: u32 = 1_000_000_000;

/// A session: a machine that was loaded with a deck, what was done with it, and the stops and the
/// watched position.
#[derive(Drop)]
pub struct Session {
    deck: Deck,
    size: Size,
    switches: Switches,
    names: Option<Names>,
    machine: Machine<PlaneCore>,
    made: u32,
    starts: Vec<Start>,
    stops: Vec<u16>,
    watched: Option<u16>,
}

impl Model for Session {
    ghost use Rattle.std.specs.Prelude.{◌<◌, length};
    ghost use Rattle.machine.specs.Run.{loaded};
    ghost use Rattle.units.specs.declared.profiles.Profile.TheVariants.{Selecting};
    ghost use Rattle.console.specs.SessionStates.{SessionState};

    ghost Value = { SessionState };

    ghost view = { λ s. record {
      base = loaded s.deck s.size s.switches Selecting;
      names = s.names;
      machine = s.machine;
      made = s.made;
      starts = s.starts.items;
      stops = s.stops.items;
      watched = s.watched;
    } };

    ghost invariant = { λ s. 0 < length s.deck };
}

impl Session {
    /// Returns the session that begins with a deck in the reader of a machine with stacker
    /// selection and the load button pressed. The names are those of its source, if they are known.
    /// Fails only if there is no memory.
    pub fn begin(
        alloc: Global,
        deck: Deck,
        size: Size,
        switches: Switches,
        names: Option<Names>,
    ) -> Result<Session, AllocError>
        requires { 0 < length deck }
        ensures begun { IfOk result (λ session.
            session ≡ begun (loaded deck size switches Selecting) names) }
        ensures come { IfOk result HasCome }
    {
        let machine = load(alloc, &deck, size, switches)?;
        Ok(Session {
            deck,
            size,
            switches,
            names,
            machine,
            made: 0,
            starts: Vec::new(alloc),
            stops: Vec::new(alloc),
            watched: None,
        })
    }

    /// The machine as it stands.
    pub(crate) fn parts(&self) -> &Parts<PlaneCore>
        ensures picture { result.now ≡ self.now.machine }
        ensures in_range { IsInRange self.now.machine }
        ensures lines { IsRising (lines_of self.now.machine) }
    {
        self.machine.parts()
    }

    /// The names of the source.
    pub(crate) fn names(&self) -> Option<&Names>
        ensures { option_copied result ≡ self.now.names }
    {
        self.names.as_ref()
    }

    /// The stops.
    pub(crate) fn stops(&self) -> &[u16]
        ensures { result.now ≡ self.now.stops }
    {
        &self.stops
    }

    /// How many instructions are attempted where so many are asked for.
    fn limit(&self, count: u32) -> u32
        ensures limit { result ≡ limit_of self.now count }
        ensures most { self.now.made ≤ most_made → self.now.made + result ≤ most_made }
    {
        count.min(MOST_MADE.saturating_sub(self.made))
    }

    /// Runs the deck anew, for so many instructions.
    fn rerun(&self, alloc: Global, made: u32) -> Result<Machine<PlaneCore>, AllocError>
        ensures { IfOk result (λ machine.
            machine ≡ machine_of self.now.base self.now.starts made) }
    {
        rerun(
            alloc,
            &self.deck,
            self.size,
            self.switches,
            &self.starts,
            made,
        )
    }

    /// Attempts so many instructions at most, and adds a line for each.
    fn attempt(&mut self, alloc: Global, text: &mut Vec<u8>, limit: u32) -> Result<(), AllocError>
        requires { self.old.made + limit ≤ most_made }
        ensures session { OnOk result (self.new
            ≡ advanced self.old (attempts self.old.machine limit)) }
        ensures text { OnOk result (text.new.items ≡ text.old.items
            ++ attempts_shown self.old.names self.old.made self.old.machine limit) }
    {
        let names = self.names.as_ref();
        let count = push_attempts(alloc, text, &mut self.machine, names, self.made, limit)?;
        self.made += count;
        Ok(())
    }

    /// Does a line `step`.
    pub(crate) fn step(
        &mut self,
        alloc: Global,
        text: &mut Vec<u8>,
        count: u32,
    ) -> Result<(), AllocError>
        requires { HasCome self.old }
        ensures session { OnOk result (self.new ≡ stepped self.old count) }
        ensures text { OnOk result (text.new.items
            ≡ text.old.items ++ steps_shown self.old count) }
    {
        let limit = self.limit(count);
        self.attempt(alloc, text, limit)?;
        push_if_stopped(alloc, text, self.made, self.machine.parts())
    }

    /// Goes on for so many instructions at most. Returns how many were attempted.
    fn go_on(&mut self, limit: u32) -> Result<u32, AllocError>
        requires { self.old.made + limit ≤ most_made }
        ensures session { OnOk result (self.new ≡ advanced self.old
            (went self.old.stops self.old.watched self.old.machine limit)) }
        ensures count { IfOk result (λ count.
            count ≡ went self.old.stops self.old.watched self.old.machine limit) }
        ensures within { IfOk result (λ count. count ≤ limit) }
    {
        let count = go(&mut self.machine, &self.stops, self.watched, limit)?;
        self.made += count;
        Ok(count)
    }

    /// Adds the line of the last of so many attempts, which this machine makes.
    fn push_last(
        &self,
        alloc: Global,
        text: &mut Vec<u8>,
        before: &mut Machine<PlaneCore>,
        count: u32,
    ) -> Result<(), AllocError>
        ensures { (made : ℕ) → self.now.made ≡ made + count →
            OnOk result (text.new.items
            ≡ text.old.items ++ last_shown self.now.names made before.old count) }
    {
        if count == 0 {
            return Ok(());
        }
        push_attempt(alloc, text, before, self.names.as_ref(), self.made)
    }

    /// What the watched position holds in another machine.
    fn cell_in(&self, machine: &Machine<PlaneCore>) -> (u8, bool)
        ensures { result ≡ watched_cell self.now.watched machine.now.works.storage }
    {
        cell_of(machine, self.watched)
    }

    /// Adds the line that says why the machine stands, by what the watched position held before.
    fn push_why(
        &self,
        alloc: Global,
        text: &mut Vec<u8>,
        seen: (u8, bool),
    ) -> Result<(), AllocError>
        ensures { OnOk result (text.new.items ≡ text.old.items ++ why_line self.now.stops
            self.now.watched self.now.made seen self.now.machine) }
    {
        let ends = Ends {
            stops: &self.stops,
            watched: self.watched,
            before: seen,
        };
        push_why(alloc, text, ends, self.made, self.machine.parts())
    }

    /// How many instructions were attempted before the last of so many.
    fn count_before(&self, count: u32) -> u32
        requires { count ≤ self.now.made }
        ensures { result ≡ self.now.made - count + (count - 1) }
    {
        if count == 0 { self.made } else { self.made - 1 }
    }

    /// Adds the line of the last of so many attempts, and why the machine stands.
    fn push_end(&self, alloc: Global, text: &mut Vec<u8>, count: u32) -> Result<(), AllocError>
        requires { count ≤ self.now.made }
        ensures { (s : SessionState) → HasCome s → self.now ≡ advanced s count →
            OnOk result (text.new.items ≡ text.old.items ++ end_shown s count) }
    {
        let mut before = self.rerun(alloc, self.count_before(count))?;
        let seen = self.cell_in(&before);
        self.push_last(alloc, text, &mut before, count)?;
        self.push_why(alloc, text, seen)
    }

    /// Does a line `go`.
    pub(crate) fn go(
        &mut self,
        alloc: Global,
        text: &mut Vec<u8>,
        count: u32,
    ) -> Result<(), AllocError>
        requires { HasCome self.old }
        ensures session { OnOk result (self.new ≡ gone self.old count) }
        ensures text { OnOk result (text.new.items
            ≡ text.old.items ++ end_shown self.old (going self.old count)) }
    {
        let limit = self.limit(count);
        let count = self.go_on(limit)?;
        self.push_end(alloc, text, count)
    }

    /// Goes back to so many instructions.
    fn set_back(&mut self, alloc: Global, made: u32) -> Result<(), AllocError>
        ensures { OnOk result (self.new ≡ set_back self.old made) }
    {
        let starts = starts_until(alloc, made, &self.starts)?;
        self.starts = starts;
        self.machine = self.rerun(alloc, made)?;
        self.made = made;
        Ok(())
    }

    /// Does a line `back`.
    pub(crate) fn back(
        &mut self,
        alloc: Global,
        text: &mut Vec<u8>,
        line: &[u8],
        count: u32,
    ) -> Result<(), AllocError>
        ensures session { OnOk result (self.new ≡ backed self.old count) }
        ensures text { OnOk result (text.new.items
            ≡ text.old.items ++ back_shown self.old line.now count) }
    {
        if count > self.made {
            return push_made(alloc, text, line, self.made);
        }
        self.set_back(alloc, self.made - count)?;
        push_place(alloc, text, self.made, self.machine.parts())
    }

    /// Presses the start button of a machine at a halt.
    fn restart(&mut self, switches: Switches) -> Result<(), AllocError>
        ensures { OnOk result (self.new ≡ restarted self.old switches) }
    {
        self.starts.push(Start {
            made: self.made,
            switches,
        })?;
        press(&mut self.machine, switches);
        Ok(())
    }

    /// Does a line `start`.
    pub(crate) fn start(
        &mut self,
        alloc: Global,
        text: &mut Vec<u8>,
        line: &[u8],
        switches: Switches,
    ) -> Result<(), AllocError>
        ensures session { OnOk result (self.new ≡ started_with self.old switches) }
        ensures text { OnOk result (text.new.items
            ≡ text.old.items ++ start_shown self.old line.now switches) }
    {
        let Standing::Halted = self.machine.parts().standing else {
            return push_fault(text, line, b"not at a halt; go runs up to one");
        };
        self.restart(switches)?;
        push_place(alloc, text, self.made, self.machine.parts())
    }

    /// Whether a position is in the storage.
    fn is_inside(&self, position: u16) -> bool
        ensures { result ≡ is_inside self.now position }
    {
        position < self.machine.parts().core.size()
    }

    /// Does a line `stop`.
    pub(crate) fn stop(
        &mut self,
        alloc: Global,
        text: &mut Vec<u8>,
        line: &[u8],
        stop: u16,
    ) -> Result<(), AllocError>
        ensures session { OnOk result (self.new ≡ stopped_at self.old stop) }
        ensures text { OnOk result (text.new.items ≡ text.old.items
            ++ if_inside self.old line.now stop (stops_line (with_stop stop self.old.stops))) }
    {
        if !self.is_inside(stop) {
            return push_past(alloc, text, line, &self.machine.parts().core);
        }
        self.stops = with_stop(alloc, stop, &self.stops)?;
        push_stops(text, &self.stops)
    }

    /// Does a line `clear`.
    pub(crate) fn clear(
        &mut self,
        alloc: Global,
        text: &mut Vec<u8>,
        stop: u16,
    ) -> Result<(), AllocError>
        ensures session { OnOk result (self.new ≡ cleared self.old stop) }
        ensures text { OnOk result (text.new.items ≡ text.old.items
            ++ stops_line (without_stop stop self.old.stops)) }
    {
        self.stops = without_stop(alloc, stop, &self.stops)?;
        push_stops(text, &self.stops)
    }

    /// Does a line `watch` with a position.
    pub(crate) fn watch(
        &mut self,
        alloc: Global,
        text: &mut Vec<u8>,
        line: &[u8],
        position: u16,
    ) -> Result<(), AllocError>
        ensures session { OnOk result (self.new ≡ watching self.old position) }
        ensures text { OnOk result (text.new.items ≡ text.old.items
            ++ if_inside self.old line.now position (watched_line (Some position))) }
    {
        if !self.is_inside(position) {
            return push_past(alloc, text, line, &self.machine.parts().core);
        }
        self.watched = Some(position);
        push_watched(text, self.watched)
    }

    /// Does a line `watch` without a position.
    pub(crate) fn unwatch(&mut self, text: &mut Vec<u8>) -> Result<(), AllocError>
        ensures session { self.new ≡ unwatching self.old }
        ensures text { OnOk result (text.new.items ≡ text.old.items ++ watched_line None) }
    {
        self.watched = None;
        push_watched(text, None)
    }

    /// Does a line `field`.
    pub(crate) fn push_field(
        &self,
        alloc: Global,
        text: &mut Vec<u8>,
        line: &[u8],
        position: u16,
    ) -> Result<(), AllocError>
        ensures { OnOk result (text.new.items ≡ text.old.items ++ if_inside self.now line.now
            position (field_line self.now.machine.works.storage position)) }
    {
        let core = &self.machine.parts().core;
        if !self.is_inside(position) {
            return push_past(alloc, text, line, core);
        }
        push_field_line(text, core, position)
    }
}
