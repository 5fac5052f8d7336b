//! The dump of a machine.

ghost use Rattle.std.specs.Prelude.{◌≡◌, ◌-◌, ◌<◌, ◌≤◌, ◌++◌, min, length, unwrap_or, IfOk, OnOk};
ghost use Rattle.core_store.specs.Storage.{largest_size};
ghost use Rattle.machine.specs.{Run.{loaded, most_instructions}, Ranges.{HasSize}};
ghost use Rattle.units.specs.declared.profiles.Profile.TheVariants.{Selecting};
ghost use Rattle.run_traces.specs.Dumps.{addresses_shown, arithmetic_shown, carriage_shown, channel_words, compared_words, dumped_machine, end_row, first_row, machine_shown, made_shown, on_or_off, read_shown, registers_line, storage_shown, units_line, unread_shown, waiting_words};

use crate::ends::{load, run_to_end};
use crate::rows::{ROW_LENGTH, push_rows};
use autocoder::push_number;
use cards::{Deck, LINE_FEED};
use core_store::{Compared, Core, Registers, Size};
use machine::{MOST_INSTRUCTIONS, Parts};
use std::alloc::{AllocError, Global};
use units::{Carriage, Hopper, Motion, Switches, Units};

/// When a machine is shown, and how much of its storage.
#[derive(Clone, Copy, Debug)]
pub struct DumpOptions {
    /// How many attempts it makes; without a number a whole run.
    pub after: Option<u32>,
    /// The address at which the run ends, before an instruction there.
    pub stop: Option<u16>,
    /// A position of the first row that is shown; without one the first of the storage.
    pub first: Option<u16>,
    /// A position of the last row that is shown; without one the last of the storage.
    pub last: Option<u16>,
}

impl DumpOptions {
    /// How many attempts are made at most.
    fn limit(self) -> u32
        ensures { result ≡ min (unwrap_or self.after most_instructions) most_instructions }
    {
        self.after
            .unwrap_or(MOST_INSTRUCTIONS)
            .min(MOST_INSTRUCTIONS)
    }

    /// The first row that is shown.
    fn first_row(self) -> u16
        ensures { result ≡ first_row self }
    {
        self.first.unwrap_or(0) / ROW_LENGTH
    }

    /// The row behind the last that is shown.
    fn end_row(self, size: u16) -> u16
        requires { size ≤ largest_size }
        ensures { result ≡ end_row self size }
    {
        let last = size.saturating_sub(1);
        self.last.unwrap_or(last).min(last) / ROW_LENGTH + 1
    }
}

/// How the second operand compared with the first.
fn compared_words(compared: Compared) -> &'static str
    ensures { result.now ≡ compared_words compared }
{
    match compared {
        Compared::Equal => "equal",
        Compared::Low => "B low",
        Compared::High => "B high",
    }
}

/// Whether an indicator is on.
fn on_or_off(on: bool) -> &'static str
    ensures { result.now ≡ on_or_off on }
{
    if on { "on" } else { "off" }
}

/// Adds the address registers.
fn push_addresses(text: &mut Vec<u8>, registers: &Registers) -> Result<(), AllocError>
    ensures { OnOk result (text.new.items ≡ text.old.items ++ addresses_shown registers.now) }
{
    text.extend_from_slice(b"I ")?;
    push_number(text, b'0', 5, u64::from(registers.i))?;
    text.extend_from_slice(b" A ")?;
    push_number(text, b'0', 5, u64::from(registers.a))?;
    text.extend_from_slice(b" B ")?;
    push_number(text, b'0', 5, u64::from(registers.b))
}

/// Adds the indicators of arithmetic.
fn push_arithmetic(text: &mut Vec<u8>, registers: &Registers) -> Result<(), AllocError>
    ensures { OnOk result (text.new.items ≡ text.old.items ++ arithmetic_shown registers.now) }
{
    text.extend_from_slice(b" ")?;
    text.extend_from_slice(compared_words(registers.compare).as_bytes())?;
    text.extend_from_slice(b", overflow ")?;
    text.extend_from_slice(on_or_off(registers.overflow).as_bytes())
}

/// The indicator of channel 12.
fn channel_words(channel_12: bool) -> &'static str
    ensures { result.now ≡ channel_words channel_12 }
{
    if channel_12 {
        ", channel 12 on"
    } else {
        ", channel 12 off"
    }
}

/// Adds the line of the registers and the indicators, as a dump has it. Fails only if there is no
/// memory.
#[tactic(auto, unfolding(crate::specs::Dumps::registers_line))]
pub fn push_registers(
    text: &mut Vec<u8>,
    registers: &Registers,
    channel_12: bool,
) -> Result<(), AllocError>
    ensures { OnOk result (text.new.items
        ≡ text.old.items ++ registers_line registers.now channel_12) }
{
    push_addresses(text, registers)?;
    push_arithmetic(text, registers)?;
    text.extend_from_slice(channel_words(channel_12).as_bytes())?;
    text.push(LINE_FEED)?;
    Ok(())
}

/// The order that waits for the next line.
fn waiting_words(waiting: Option<Motion>) -> &'static str
    ensures { result.now ≡ waiting_words waiting }
{
    match waiting {
        None => "no order",
        Some(Motion::Space) => "a space",
        Some(Motion::DoubleSpace) => "a double space",
        Some(Motion::TripleSpace) => "a triple space",
        Some(Motion::SkipToChannel1) => "a skip to channel 1",
    }
}

/// How many cards the reader has not read.
fn unread(hopper: &Hopper) -> usize
    ensures { result ≡ length hopper.now.deck - hopper.now.taken }
{
    hopper
        .deck
        .cards()
        .len()
        .saturating_sub(hopper.taken as usize)
}

/// Adds how many cards were read.
fn push_read(alloc: Global, text: &mut Vec<u8>, cards: u16) -> Result<(), AllocError>
    ensures { OnOk result (text.new.items ≡ text.old.items ++ read_shown cards) }
{
    let words = format!(in alloc; "reader {cards} read, ")?;
    text.extend_from_slice(words.as_bytes())
}

/// Adds how many cards were not read.
fn push_unread(alloc: Global, text: &mut Vec<u8>, cards: usize) -> Result<(), AllocError>
    ensures { OnOk result (text.new.items ≡ text.old.items ++ unread_shown cards) }
{
    let words = format!(in alloc; "{cards} unread; ")?;
    text.extend_from_slice(words.as_bytes())
}

/// Adds how many cards were punched in all, and how many lines printed.
fn push_made(alloc: Global, text: &mut Vec<u8>, units: &Units) -> Result<(), AllocError>
    ensures { OnOk result (text.new.items ≡ text.old.items ++ made_shown units.now) }
{
    let cards = units.cards_in_all();
    let lines = units.lines_in_all();
    let words = format!(in alloc; "punched {cards}; printed {lines}; ")?;
    text.extend_from_slice(words.as_bytes())
}

/// Adds the carriage.
fn push_carriage(alloc: Global, text: &mut Vec<u8>, carriage: Carriage) -> Result<(), AllocError>
    ensures { OnOk result (text.new.items ≡ text.old.items ++ carriage_shown carriage) }
{
    let form = carriage.form;
    let line = carriage.line;
    let order = waiting_words(carriage.waiting);
    let words = format!(in alloc; "form {form} line {line}, {order} waits")?;
    text.extend_from_slice(words.as_bytes())
}

/// Adds the line of the units, as a dump has it. Fails only if there is no memory.
#[tactic(auto, unfolding(crate::specs::Dumps::units_line))]
pub fn push_units(alloc: Global, text: &mut Vec<u8>, units: &Units) -> Result<(), AllocError>
    ensures { OnOk result (text.new.items ≡ text.old.items ++ units_line units.now) }
{
    push_read(alloc, text, units.hopper.taken)?;
    push_unread(alloc, text, unread(&units.hopper))?;
    push_made(alloc, text, units)?;
    push_carriage(alloc, text, units.printer.carriage)?;
    text.push(LINE_FEED)?;
    Ok(())
}

/// Adds what a dump shows of a storage: the rows that the options name. Fails only if there is no
/// memory.
#[tactic(auto, unfolding(crate::specs::Dumps::storage_shown))]
pub fn push_storage<C: Core>(
    alloc: Global,
    text: &mut Vec<u8>,
    options: DumpOptions,
    core: &C,
) -> Result<(), AllocError>
    requires { HasSize (C.cells core.now) }
    ensures { OnOk result (text.new.items
        ≡ text.old.items ++ storage_shown options (C.cells core.now)) }
{
    let end = options.end_row(core.size());
    push_rows(alloc, text, core, options.first_row(), end)
}

/// Adds the dump of a machine: the rows of its storage that the options name, its registers and
/// indicators, and its units. Fails only if there is no memory.
#[tactic(auto, unfolding(crate::specs::Dumps::machine_shown))]
pub fn push_machine<C: Core>(
    alloc: Global,
    text: &mut Vec<u8>,
    options: DumpOptions,
    parts: &Parts<C>,
) -> Result<(), AllocError>
    requires { HasSize parts.now.works.storage }
    ensures { OnOk result (text.new.items
        ≡ text.old.items ++ machine_shown options parts.now) }
{
    push_storage(alloc, text, options, &parts.core)?;
    let channel_12 = parts.units.printer.carriage.channel_12;
    push_registers(text, &parts.registers, channel_12)?;
    push_units(alloc, text, &parts.units)
}

/// Returns the dump of a machine with stacker selection that has run a deck: its storage, its
/// registers and indicators, and its units.
///
/// Storage is shown in rows of fifty positions. A row has the address of its first position and its
/// characters, and below it an apostrophe under each that has a word mark. For a stretch of rows
/// that are blank and have no mark stands `(blank)`. Fails only if there is no memory.
pub fn dump(
    alloc: Global,
    deck: &Deck,
    size: Size,
    switches: Switches,
    options: DumpOptions,
) -> Result<Vec<u8>, AllocError>
    requires { 0 < length deck.now }
    ensures { IfOk result (λ text. text.items
        ≡ machine_shown options
        (dumped_machine options (loaded deck.now size switches Selecting))) }
{
    let mut machine = load(alloc, deck, size, switches)?;
    run_to_end(&mut machine, options.limit(), options.stop)?;
    let mut text = Vec::new(alloc);
    push_machine(alloc, &mut text, options, machine.parts())?;
    Ok(text)
}
