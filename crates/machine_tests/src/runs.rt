//! Runs of small decks in pieces, and pictures that are out of range.
//!
//! What decks make is shown by those of `cases/`, which the program runs.

use crate::machines::{deck_of, new_units};
use crate::sheets::{Case, check, cut, number};
use crate::storage::size_of;
use bcd::Code;
use bitflags::Flags;
use core_store::{Compared, Core, Registers};
use machine::{Machine, Meter, Parts, Standing};
use std::alloc::{AllocError, Global};
use std::test::Fail;
use units::{Counts, LINE_LENGTH, Line, Profile, Switches, Units};

/// A machine after the load button.
fn load<C: Core>(
    alloc: Global,
    positions: u16,
    switches: Switches,
    cards: &str,
) -> Result<Machine<C>, Fail> {
    let size = size_of(positions)?;
    let deck = deck_of(alloc, cards)?;
    if deck.cards().len() == 0 {
        return Err("no card".into());
    }
    Ok(Machine::<C>::load(alloc, deck, size, switches, Profile::Selecting)?)
}

/// The result of each run, and the machine after them.
fn ran<C: Core>(
    alloc: Global,
    machine: &mut Machine<C>,
    limits: &str,
) -> Result<String, AllocError> {
    let mut meter = Meter::new();
    let mut text = String::new(alloc);
    for limit in limits.split_whitespace() {
        let ran = machine.run(u32::from(number(limit)), &mut meter)?;
        let (executed, standing) = (ran.executed, ran.standing);
        write!(&mut text, "{executed} {standing:?} ")?;
    }
    let ticks = meter.ticks();
    let next = machine.parts().registers.i;
    let line = machine.parts().units.printer.carriage.line;
    write!(&mut text, "ticks {ticks} next {next} line {line}")?;
    Ok(text)
}

/// Runs. Input: the size, the switch that is on, the cards, and the limit of each run. Output: for
/// each run, the number of executed instructions and the standing; then the ticks of the meter, the
/// next address, and the carriage's line.
struct Runs;

impl Case for Runs {
    fn outcome<C: Core>(alloc: Global, given: &str) -> Result<String, Fail> {
        let (size, given) = cut(given, "|");
        let (switch, given) = cut(given, "|");
        let (cards, limits) = cut(given, "|");
        let switches = if switch == "A" {
            Switches::A
        } else {
            Switches::empty()
        };
        let mut machine = load::<C>(alloc, number(size), switches, cards)?;
        Ok(ran(alloc, &mut machine, limits)?)
    }
}

/// Runs that halt or not, and that a check ends; orders to the carriage; cards that are punched;
/// and larger storages, in which a field is loaded to the last positions of 16000.
const RUNS: &str = "\
4000|A|list;HELLO;WORLD|34 -> 34 Running ticks 34 next 360 line 3
4000|A|list;HELLO;WORLD|34 2000 -> 34 Running 1 Halted ticks 35 next 361 line 3
1400|A|list;HELLO|2000 -> 30 Halted ticks 30 next 361 line 2
4000|A|list|2000 -> 25 Checked(ReaderEmpty) ticks 26 next 342 line 1
4000|A|,008012B008|2000 -> 2000 Running ticks 2000 next 8 line 1
4000|A|,008015L000200|2000 -> 1 Checked(Address) ticks 2 next 8 line 1
1400||,008015,022029,030032,0330342FK2.|2000 -> 8 Halted ticks 8 next 34 line 5
1400||,008015,022029,030032,0330342F12.|2000 -> 8 Halted ticks 8 next 34 line 2
1400||,008015,022029,030032,0330342FS2.|2000 -> 8 Halted ticks 8 next 34 line 4
1400||,008015,022029,030031,032033444.|2000 -> 8 Halted ticks 8 next 33 line 1
1400|A|,008015,022029,030031M0361057.-PUNCH;NEXT                         .|2000 \
    -> 6 Halted ticks 6 next 31 line 2
1400||,008015,022029,030031M0361054.-PUNCH|2000 -> 6 Halted ticks 6 next 31 line 1
16000||,008015,022029,036043,044045L046I9IMI9I2042.HI|5 2000 \
    -> 5 Running 3 Halted ticks 8 next 45 line 2
12000||,008015,022029,036043,044045L046I9IMI9I2042.HI|2000 \
    -> 4 Checked(Address) ticks 5 next 29 line 1
";

#[test]
fn runs_of_decks(rt: HostRuntime) -> Result<(), Fail> {
    check::<Runs>(rt.alloc(), RUNS)
}

/// The eight numbers of a row.
fn numbers_of(row: &str) -> [u16; 8] {
    let mut numbers = [0; 8];
    for (place, word) in numbers.iter_mut().zip(row.split(' ')) {
        *place = number(word);
    }
    numbers
}

/// A number below 256, or the greatest one.
fn small(number: u16) -> u8 {
    u8::try_from(number).ok().unwrap_or(u8::MAX)
}

/// Blank lines of the first form, at these lines of it.
fn lines_at(alloc: Global, places: [u16; 2]) -> Result<Vec<Line>, AllocError> {
    let code = Code::from_glyph(b' ').unwrap_or(Code::blank());
    let mut lines = Vec::new(alloc);
    for place in places {
        lines.push(Line {
            form: 1,
            line: small(place),
            codes: [code; LINE_LENGTH],
        })?;
    }
    Ok(lines)
}

/// The units of a machine that has printed two lines from the cards of a deck.
fn units_with(alloc: Global, numbers: [u16; 8]) -> Result<Units, Fail> {
    let [_, line, taken, switches, cards, lines, first, second] = numbers;
    let deck = deck_of(alloc, "list;HELLO;WORLD")?;
    let switches = Switches::from_bits_retain(small(switches));
    let printed = lines_at(alloc, [first, second])?;
    let mut units = new_units(alloc, deck, taken, switches);
    units.before = Counts {
        cards: u32::from(cards),
        lines: u32::from(lines),
    };
    units.printer.carriage.line = small(line);
    units.printer.lines = printed;
    Ok(units)
}

/// A picture. Input: register B, the line of the carriage, the number of cards taken of six, the
/// bits of the switches, the numbers of cards and lines that were made before, and the lines of the
/// two lines that it has. Output: whether its units are in range, and whether it has a machine.
struct Picture;

impl Case for Picture {
    fn outcome<C: Core>(alloc: Global, given: &str) -> Result<String, Fail> {
        let numbers = numbers_of(given);
        let registers = Registers {
            i: 361,
            a: 0,
            b: numbers[0],
            compare: Compared::Equal,
            overflow: false,
        };
        let parts = Parts {
            core: C::blank(alloc, size_of(1400)?)?,
            registers,
            units: units_with(alloc, numbers)?,
            standing: Standing::Halted,
        };
        let are_units = parts.units.is_in_range();
        let is_made = Machine::from_parts(alloc, parts)?.is_some();
        Ok(format!(in alloc; "{are_units} {is_made}")?)
    }
}

/// A picture in range; then a register, a line, the card that is always read, a card past the deck,
/// an eighth switch, lines backwards, and 10,001 cards out of range; and two lines that come after
/// 19,998 others, and after one more.
const PICTURES: &str = "\
0 3 6 1 0 0 1 2 -> true true
16000 3 6 1 0 0 1 2 -> true false
0 67 6 1 0 0 1 2 -> false false
0 3 0 1 0 0 1 2 -> false false
0 3 7 1 0 0 1 2 -> false false
0 3 6 128 0 0 1 2 -> false false
0 3 6 1 0 0 2 1 -> false false
0 3 6 1 10001 0 1 2 -> false false
0 3 6 1 0 19998 1 2 -> true true
0 3 6 1 0 19999 1 2 -> false false
";

#[test]
fn no_machine_has_a_picture_out_of_range(rt: HostRuntime) -> Result<(), Fail> {
    check::<Picture>(rt.alloc(), PICTURES)
}
