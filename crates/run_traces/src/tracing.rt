//! The trace of a run.

ghost use Rattle.std.specs.Prelude.{◌≡◌, ◌+◌, ◌-◌, ◌<◌, ◌≤◌, ◌++◌, ◌&&◌, ◌||◌, ℕ, List, [], nat_le, nat_lt, false, length, None, if◌then◌else◌, option_copied, IfOk, OnOk};
ghost use Rattle.machine.specs.{
  Run.{after, is_checked, loaded, step, most_instructions},
  Standings.{standing_of},
};
ghost use Rattle.units.specs.declared.profiles.Profile.TheVariants.{Selecting};
ghost use Rattle.run_traces.specs.{
  Fields.{attempt_shown},
  Ends.{ended},
  Reports.{report_line},
  Traces.{is_shown, lines_shown, traced},
};

use crate::accounts::Account;
use crate::ends::{advance, load, run_to_end};
use crate::fields::push_shown;
use crate::names::Names;
use crate::reports::push_report;
use cards::Deck;
use core_store::{Core, Size};
use machine::{MOST_INSTRUCTIONS, Machine, Meter, Parts};
use std::alloc::{AllocError, Global};
use units::Switches;

/// What is shown of a run, and how far it goes.
#[derive(Clone, Copy, Debug)]
pub struct TraceOptions {
    /// The number of the first attempt that is shown, from 1.
    pub from: u32,
    /// How many attempts are shown.
    pub count: u32,
    /// The address at which the run ends, before an instruction there.
    pub stop: Option<u16>,
    /// Whether the fields are shown that an attempt works at.
    pub fields: bool,
}

/// How a run ended.
#[derive(Clone, Copy)]
struct Ending {
    /// How many attempts were made.
    attempts: u32,
    /// Whether the last one ended in a check.
    is_checked: bool,
}

impl TraceOptions {
    /// Whether the attempt with this number is asked for.
    fn asks_for(self, number: u32) -> bool
        ensures { result
            ≡ (nat_le self.from number && nat_lt number (self.from + self.count)) }
    {
        self.from <= number && u64::from(number) < u64::from(self.from) + u64::from(self.count)
    }

    /// Whether the attempt with this number is shown.
    fn shows(self, ending: Ending, number: u32) -> bool
        requires { number ≤ most_instructions }
        ensures { result ≡ is_shown self ending number }
    {
        self.asks_for(number) || ending.is_last(number)
    }

    /// The first attempt that may be shown.
    fn first(self, ending: Ending) -> u32
        requires { ending.attempts ≤ most_instructions }
        ensures some { 1 ≤ result }
        ensures before { (number : ℕ) → 1 ≤ number → number < result →
            is_shown self ending number ≡ false }
    {
        let last = ending.first_of_last();
        if self.count == 0 {
            last
        } else {
            last.min(self.from.max(1))
        }
    }

    /// The first attempt after those that may be shown.
    fn end(self, ending: Ending) -> u32
        requires { ending.attempts ≤ most_instructions }
        ensures within { result ≤ ending.attempts + 1 }
        ensures behind { (number : ℕ) → result ≤ number → number ≤ ending.attempts →
            is_shown self ending number ≡ false }
    {
        let whole = ending.attempts + 1;
        if ending.is_checked {
            whole
        } else {
            whole.min(self.from.saturating_add(self.count))
        }
    }
}

impl Ending {
    /// Whether the attempt with this number is among the last before a check.
    fn is_last(self, number: u32) -> bool
        requires { number ≤ most_instructions }
        ensures { result ≡ (self.is_checked && nat_lt self.attempts (number + 20)) }
    {
        self.is_checked && self.attempts < number + 20
    }

    /// The first of the last attempts before a check; without one the attempt after the last.
    fn first_of_last(self) -> u32
        requires { self.attempts ≤ most_instructions }
        ensures some { 1 ≤ result }
        ensures before { (number : ℕ) → 1 ≤ number → number < result →
            (self.is_checked && nat_lt self.attempts (number + 20)) ≡ false }
    {
        if self.is_checked {
            self.attempts.saturating_sub(19).max(1)
        } else {
            self.attempts + 1
        }
    }
}

/// How the lines of a trace are written.
#[derive(Clone, Copy)]
struct Sheet {
    options: TraceOptions,
    ending: Ending,
}

/// Makes the attempt with this number of a machine, and adds its line if it is shown.
fn push_if_shown<C: Core>(
    alloc: Global,
    text: &mut Vec<u8>,
    machine: &mut Machine<C>,
    names: Option<&Names>,
    sheet: Sheet,
    number: u32,
) -> Result<(), AllocError>
    requires { number ≤ most_instructions }
    ensures machine { OnOk result (machine.new ≡ step machine.old) }
    ensures line { OnOk result (text.new.items ≡ text.old.items
        ++ (if is_shown sheet.options sheet.ending number
        then attempt_shown (option_copied names.entry) sheet.options.fields number machine.old else [])) }
{
    if sheet.options.shows(sheet.ending, number) {
        return push_shown(alloc, text, machine, names, sheet.options.fields, number);
    }
    machine.step(&mut Meter::new())?;
    Ok(())
}

/// Adds the lines of the attempts from `first` up to but not including `end` that are shown, of a
/// machine that has made none.
fn push_lines<C: Core>(
    alloc: Global,
    text: &mut Vec<u8>,
    machine: &mut Machine<C>,
    names: Option<&Names>,
    sheet: Sheet,
    first: u32,
    end: u32,
) -> Result<(), AllocError>
    requires some { 1 ≤ first }
    requires rises { first ≤ end }
    requires most { end ≤ most_instructions + 1 }
    requires before { (number : ℕ) → 1 ≤ number → number < first →
        is_shown sheet.options sheet.ending number ≡ false }
    ensures { OnOk result (text.new.items ≡ text.old.items
        ++ lines_shown (is_shown sheet.options sheet.ending)
        (attempt_shown (option_copied names.entry) sheet.options.fields) machine.old (end - 1)) }
{
    advance(machine, first - 1)?;
    for number in first..end {
        push_if_shown(alloc, text, machine, names, sheet, number)?;
    }
    Ok(())
}

/// The lines of the attempts of a deck's run that are shown.
fn lines_shown(
    alloc: Global,
    deck: &Deck,
    size: Size,
    switches: Switches,
    names: Option<&Names>,
    sheet: Sheet,
) -> Result<Vec<u8>, AllocError>
    requires some { 0 < length deck.now }
    requires most { sheet.ending.attempts ≤ most_instructions }
    ensures { IfOk result (λ text. text.items
        ≡ lines_shown (is_shown sheet.options sheet.ending)
        (attempt_shown (option_copied names.entry) sheet.options.fields)
        (loaded deck.now size switches Selecting) sheet.ending.attempts) }
{
    let mut text = Vec::new(alloc);
    let first = sheet.options.first(sheet.ending);
    let end = sheet.options.end(sheet.ending);
    if first >= end {
        return Ok(text);
    }
    let mut machine = load(alloc, deck, size, switches)?;
    push_lines(alloc, &mut text, &mut machine, names, sheet, first, end)?;
    Ok(text)
}

/// How the run of a machine ended that has made so many attempts.
fn ending_of<C: Core>(parts: &Parts<C>, attempts: u32) -> Ending
    ensures { result ≡ record {
      attempts = attempts;
      is_checked = is_checked parts.now.standing;
    } }
{
    Ending {
        attempts,
        is_checked: parts.standing.is_checked(),
    }
}

/// Returns the trace of a deck's run, on a machine with stacker selection: a line for each attempt
/// that is shown, and then the report of the machine at the end of the run.
///
/// Shown are the attempts that the options ask for, and of a run that ends in a check the last
/// twenty. A line has the attempt's number, the address at which it begins, also by the nearest
/// name where names are given, the characters of its instruction, and the statement of Autocoder
/// that has them, if there is one; then the registers A and B and the indicators after it and what
/// the units did, or the check with its cause. Below it are, if the options ask for them, the fields
/// at which it works, before it and after it. Without a stop the report is that of a whole run.
/// Fails only if there is no memory.
#[tactic(auto, unfolding(crate::specs::Traces::traced))]
pub fn trace(
    alloc: Global,
    deck: &Deck,
    size: Size,
    switches: Switches,
    names: Option<&Names>,
    options: TraceOptions,
) -> Result<Account, AllocError>
    requires { 0 < length deck.now }
    ensures trace { IfOk result (λ account. account.text.items
        ≡ traced options (option_copied names.entry)
        (loaded deck.now size switches Selecting)) }
    ensures standing { IfOk result (λ account. account.standing
        ≡ standing_of (ended (loaded deck.now size switches Selecting) options.stop)) }
    ensures report { options.stop ≡ None → IfOk result (λ account. (lines : List ℕ)
        × (account.text.items ≡ lines
        ++ report_line (after (loaded deck.now size switches Selecting) most_instructions))) }
{
    let mut machine = load(alloc, deck, size, switches)?;
    let attempts = run_to_end(&mut machine, MOST_INSTRUCTIONS, options.stop)?;
    let sheet = Sheet {
        options,
        ending: ending_of(machine.parts(), attempts),
    };
    let mut text = lines_shown(alloc, deck, size, switches, names, sheet)?;
    push_report(alloc, &mut text, machine.parts())?;
    let standing = machine.parts().standing_at();
    Ok(Account { text, standing })
}
