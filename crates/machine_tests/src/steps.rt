//! Single steps of machines that are put together by hand.

use crate::machines::{deck_of, new_units};
use crate::sheets::{Case, agreed, check, cut, number};
use crate::storage::{lay, lay_places, push_places, push_registers, size_of};
use crate::{addressing, arithmetic, moving};
use bitflags::Flags;
use core_store::{Compared, Core, Registers};
use machine::{Event, Machine, Meter, Parts, Standing};
use std::alloc::{AllocError, Global};
use std::test::Fail;
use units::Switches;

/// The position of the first instruction of these cases.
const START: u16 = 400;

/// A running machine with this storage that has read its only card, with these registers A and B
/// and the switches A, B and D on.
fn running<C: Core>(alloc: Global, core: C, registers: &str) -> Result<Machine<C>, Fail> {
    if core.size() < 1400 {
        return Err("a smaller storage".into());
    }
    let (a, b) = cut(registers, " B ");
    let registers = Registers {
        i: START,
        a: number(a),
        b: number(b),
        compare: Compared::Low,
        overflow: false,
    };
    let switches = Switches::A | Switches::B | Switches::D;
    let parts = Parts {
        core,
        registers,
        units: new_units(alloc, deck_of(alloc, "")?, 1, switches),
        standing: Standing::Running,
    };
    Ok(Machine::from_parts(alloc, parts)?.ok_or("a picture in range")?)
}

/// The event of the last of `steps` steps: each done by itself, so that its instruction is read from
/// storage; or as one run, in which what the characters of an instruction say is kept.
fn last_event<C: Core>(
    machine: &mut Machine<C>,
    as_run: bool,
    steps: u16,
) -> Result<Event, AllocError> {
    let mut meter = Meter::new();
    if as_run {
        return Ok(machine.run(u32::from(steps), &mut meter)?.standing.event());
    }
    let mut event = Event::Next;
    for _ in 0..steps {
        event = machine.step(&mut meter)?;
    }
    Ok(event)
}

/// The event, if it is not the next instruction, and a blank.
fn event_text(alloc: Global, event: Event) -> Result<String, AllocError> {
    match event {
        Event::Next => Ok(String::new(alloc)),
        Event::Halt => String::from_str(alloc, "Halt "),
        Event::Check(check) => format!(in alloc; "Check({check:?}) "),
    }
}

/// The number before a word, and the rest of the text; without the word, this number and the whole
/// text.
fn before<'a>(text: &'a str, word: &str, otherwise: u16) -> (u16, &'a str) {
    match text.split_once(word) {
        Some((digits, rest)) => (number(digits), rest),
        None => (otherwise, text),
    }
}

/// A machine of this size before a program, with these registers and texts at some places.
fn machine<C: Core>(
    alloc: Global,
    positions: u16,
    registers: &str,
    program: &str,
    places: &str,
) -> Result<Machine<C>, Fail> {
    let mut core = C::blank(alloc, size_of(positions)?)?;
    lay(&mut core, START, program);
    lay_places(&mut core, places);
    running(alloc, core, registers)
}

/// Does the steps, and returns the last event, the registers, and the texts at some places.
fn stepped<C: Core>(
    alloc: Global,
    machine: &mut Machine<C>,
    as_run: bool,
    steps: u16,
    places: &str,
) -> Result<String, Fail> {
    let event = last_event(machine, as_run, steps)?;
    let mut text = event_text(alloc, event)?;
    let parts = machine.parts();
    push_registers(&mut text, &parts.registers)?;
    push_places(&mut text, &parts.core, places)?;
    Ok(text)
}

/// The outcome of a case of `Steps`, done in one way.
fn done<C: Core>(alloc: Global, given: &str, as_run: bool) -> Result<String, Fail> {
    let (positions, given) = before(given, " positions, ", 1400);
    let (order, given) = cut(given, "|");
    let (program, places) = cut(given, "|");
    let (steps, registers) = before(order, " steps, A ", 1);
    let registers = registers.strip_prefix("A ").unwrap_or(registers);
    let mut machine = machine::<C>(alloc, positions, registers, program, places)?;
    stepped(alloc, &mut machine, as_run, steps, places)
}

/// Steps, of a machine whose comparison is low and whose overflow is off. Input: the size of the
/// storage, if it is not 1400, how many steps, if more than one, the registers A and B, the program,
/// and the texts at some places. Output: the last event, if it is not the next instruction, the
/// registers I, A and B, the indicators that are not as at the beginning, and the texts after them.
pub(crate) struct Steps;

impl Case for Steps {
    fn outcome<C: Core>(alloc: Global, given: &str) -> Result<String, Fail> {
        let steps = done::<C>(alloc, given, false)?;
        let run = done::<C>(alloc, given, true)?;
        agreed(alloc, steps, run)
    }
}

/// Arithmetic, moves, comparison, registers that are stored, storage that is cleared, an index
/// location, the test of overflow, which turns it off, and selections of a pocket.
const OPERATIONS: &str = "\
A 10 B 20|~A010020~|8 ~005|18 ~123| -> I 407 A 7 B 17 |~005|~128|
A 10 B 20|~S010020~|8 ~005|18 ~003| -> I 407 A 7 B 17 |~005|~00K|
A 10 B 20|~?010020~|8 ~005|18 ~999| -> I 407 A 7 B 17 |~005|~00E|
A 10 B 20|~!010020~|8 ~005|18 ~9#9| -> I 407 A 7 B 17 |~005|~00N|
A 10 B 20|~A~|8 ~005|18 ~123| -> I 401 A 7 B 17 |~005|~128|
A 10 B 20|~A010~|8 ~005|18 ~123| -> I 404 A 7 B 7 |~010|~123|
A 10 B 20|~M010020~|8 ~ABC|18 ~XYZ| -> I 407 A 7 B 17 |~ABC|~ABC|
A 10 B 20|~L010020~|8 A~BC|18 ~XYZ| -> I 407 A 8 B 18 |A~BC|~X~BC|
A 10 B 20|~D010020~|8 ~ABJ|18 ~XYC| -> I 407 A 9 B 19 |~ABJ|~XYA|
A 10 B 20|~Y010020~|8 ~ABJ|18 ~XY3| -> I 407 A 9 B 19 |~ABJ|~XYL|
A 10 B 20|~Z010020~|8 ~0,5|18 ~XYZ| -> I 407 A 7 B 17 |~0,5|  5|
A 10 B 20|~E010020~|8 ~005|18 ~ 0-| -> I 407 A 8 B 17 |~005| 5 |
A 10 B 20|~A010020~B407Z~|8 ~001|18 ~999| -> I 407 A 7 B 17 overflow |~001|~000|
2 steps, A 10 B 20|~A010020~B407Z~|8 ~001|18 ~999| -> I 407 A 407 B 412 |~001|~000|
3 steps, A 10 B 20|~A010020~B407Z~|8 ~001|18 ~999| -> I 412 A 407 B 412 |~001|~000|
2 steps, A 10 B 20|~M010020~H500~|8 ~ABC|18 ~XYZ|498    | -> I 411 A 497 B 17 |~ABC|~ABC|017|
2 steps, A 10 B 20|~M010020~Q500~|8 ~ABC|18 ~XYZ|498    | -> I 411 A 7 B 497 |~ABC|~ABC|007|
2 steps, A 10 B 20|~M080280~H500~|1 ~HELLO|78 END|201      |278    |498    | \
    -> I 411 A 497 B 200 |~HELLO|END|HELLO|END|200|
2 steps, A 10 B 20|~M080280~Q500~|1 ~HELLO|78 END|201      |278    |498    | \
    -> I 411 A 0 B 497 |~HELLO|END|HELLO|END|000|
A 10 B 20|~/360099~|8 ~ABC|18 ~XYZ|400 ~/360099| -> I 360 A 360 B 407 |   |   |~/360099|
A 10 B 20|~/360299~|199 ~A~B~C|298 ~X~Y~Z| -> I 360 A 360 B 407 |~A  |  ~Z|
A 10 B 20|~C010020~#010020~|8 ~005|18 ~3J5| -> I 407 A 7 B 17 high |~005|~3J5|
2 steps, A 10 B 20|~C010020~#010020~|8 ~005|18 ~3J5| -> I 414 A 7 B 17 high |~005|~3K0|
A 10 B 20|~)3J5~|92 005|320 ~ | -> I 404 A 319 B 319 |005| |
A 10 B 20|~K4~|8 ~005|18 ~123| -> I 402 A 10 B 20 |~005|~123|
A 10 B 20|~K1~|8 ~005|18 ~123| -> I 402 A 10 B 20 |~005|~123|
";

/// Instructions that are changed after they were read, and read again: one that writes over itself,
/// and over the next one; by a mark within it, and by the mark behind it; two programs at positions
/// 512 apart; an address whose index location is changed; and programs that begin at the last
/// position that is looked at for a kept shape, and one after it.
const KEPT: &str = "\
3 steps, A 10 B 20|~D010403~B400~|10 5    7|400 ~D010403| \
    -> I 407 A 14 B 402 |5    7|~D017403|
6 steps, A 10 B 20|~D010410~D011030~D012010~B400~|10 1638|30 0|407 ~D011030| \
    -> I 414 A 12 B 29 |3638|8|~D013030|
4 steps, A 10 B 20|~N000000~,404~B400~|8 AB| -> I 404 A 400 B 415 |AB|
5 steps, A 10 B 20|~N000000~,404~B400~|8 AB| -> Check(Instruction) I 404 A 400 B 415 |AB|
3 steps, A 10 B 20|~B500009X~)408~B400~|9 A| -> I 400 A 400 B 416 |A|
4 steps, A 10 B 20|~B500009X~)408~B400~|9 A| -> Check(Instruction) I 400 A 400 B 416 |A|
3 steps, A 10 B 20|~A010020~B912~|8 ~001|18 ~005|912 ~S010020~B400~| \
    -> I 919 A 7 B 17 |~001|~00E|~S010020~B400|
5 steps, A 10 B 20|~A010020~B912~|8 ~001|18 ~005|912 ~S010020~B400~| \
    -> I 407 A 7 B 17 |~001|~00F|~S010020~B400|
4 steps, A 10 B 20|~D0/0320~D093089~B400~|10 4 7|87 000|93 2|320 0| \
    -> I 407 A 11 B 319 |4 7|002|2|7|
5 steps, A 10 B 20|~BT84~|8 ~001|18 ~005|1384 ~A010020~B400~| \
    -> I 1391 A 7 B 17 |~001|~007|~A010020~B400|
5 steps, A 10 B 20|~BT85~|8 ~001|18 ~005|1385 ~A010020~B400~| \
    -> I 1392 A 7 B 17 |~001|~007|~A010020~B400|
";

/// Fields, marks and instructions at the end of larger storages, and past it.
const LARGE_STORAGES: &str = "\
16000 positions, A 10 B 20|~A010I9I~|8 ~005|15997 ~123| -> I 407 A 7 B 15996 |~005|~128|
16000 positions, A 10 B 20|~MI9I020~|15997 ~ABC|18 ~XYZ| -> I 407 A 15996 B 17 |~ABC|~ABC|
16000 positions, A 10 B 20|~L01000!~|8 ~ABC|7998 ~XYZ| -> I 407 A 7 B 7997 |~ABC|~ABC|
16000 positions, A 10 B 20|~/I9I~|15899 ~A~B|15998 ~C~D| -> I 404 A 15999 B 15899 |~A |  |
16000 positions, A 10 B 20|~,I9I00!~|15998 AB|8000 C| -> I 407 A 15998 B 7999 |A~B|~C|
16000 positions, 2 steps, A 10 B 20|~BI9?~|8 ~005|15990 ~A010020~ |18 ~123| \
    -> I 15997 A 7 B 17 |~005|~A010020~ |~128|
8000 positions, A 10 B 20|~A010I9Z~|8 ~005|7997 ~123| -> I 407 A 7 B 7996 |~005|~128|
8000 positions, A 10 B 20|~A01000!~|8 ~005|7997 ~123| \
    -> Check(Address) I 400 A 10 B 20 |~005|~123|
12000 positions, A 10 B 20|~A010I9R~|8 ~005|11997 ~123| -> I 407 A 7 B 11996 |~005|~128|
12000 positions, A 10 B 20|~A01000?~|8 ~005|11997 ~123| \
    -> Check(Address) I 400 A 10 B 20 |~005|~123|
";

/// Branches on each condition, on a character, and on marks and zones.
const BRANCHES: &str = "\
A 10 B 20|~B100~|8 AB|18   ~K| -> I 100 A 100 B 404 |AB|  ~K|
A 10 B 20|~B100 ~|8 AB|18   ~K| -> I 100 A 100 B 405 |AB|  ~K|
A 10 B 20|~B100/~|8 AB|18   ~K| -> I 100 A 100 B 405 |AB|  ~K|
A 10 B 20|~B100S~|8 AB|18   ~K| -> I 405 A 100 B 20 |AB|  ~K|
A 10 B 20|~B100T~|8 AB|18   ~K| -> I 100 A 100 B 405 |AB|  ~K|
A 10 B 20|~B100U~|8 AB|18   ~K| -> I 405 A 100 B 20 |AB|  ~K|
A 10 B 20|~B100Z~|8 AB|18   ~K| -> I 405 A 100 B 20 |AB|  ~K|
A 10 B 20|~B100A~|8 AB|18   ~K| -> I 100 A 100 B 405 |AB|  ~K|
A 10 B 20|~B100B~|8 AB|18   ~K| -> I 100 A 100 B 405 |AB|  ~K|
A 10 B 20|~B100C~|8 AB|18   ~K| -> I 405 A 100 B 20 |AB|  ~K|
A 10 B 20|~B100D~|8 AB|18   ~K| -> I 100 A 100 B 405 |AB|  ~K|
A 10 B 20|~B100E~|8 AB|18   ~K| -> I 405 A 100 B 20 |AB|  ~K|
A 10 B 20|~B100F~|8 AB|18   ~K| -> I 405 A 100 B 20 |AB|  ~K|
A 10 B 20|~B100G~|8 AB|18   ~K| -> I 405 A 100 B 20 |AB|  ~K|
A 10 B 20|~B100@~|8 AB|18   ~K| -> I 405 A 100 B 20 |AB|  ~K|
A 10 B 20|~B100009B~|8 AB|18   ~K| -> I 100 A 100 B 408 |AB|  ~K|
A 10 B 20|~B100009A~|8 AB|18   ~K| -> I 408 A 100 B 8 |AB|  ~K|
A 10 B 20|~V1000201~|8 AB|18   ~K| -> I 100 A 100 B 408 |AB|  ~K|
A 10 B 20|~V1000091~|8 AB|18   ~K| -> I 408 A 100 B 8 |AB|  ~K|
A 10 B 20|~V100020K~|8 AB|18   ~K| -> I 100 A 100 B 408 |AB|  ~K|
A 10 B 20|~V100009B~|8 AB|18   ~K| -> I 100 A 100 B 408 |AB|  ~K|
A 10 B 20|~V1000092~|8 AB|18   ~K| -> I 408 A 100 B 8 |AB|  ~K|
A 10 B 20|~V100009K~|8 AB|18   ~K| -> I 408 A 100 B 8 |AB|  ~K|
A 10 B 20|~V1000203~|8 AB|18   ~K| -> I 100 A 100 B 408 |AB|  ~K|
A 10 B 20|~V100009T~|8 AB|18   ~K| -> I 408 A 100 B 8 |AB|  ~K|
A 10 B 20|~V100020K~|8 AB|18 ~ZZJ| -> I 100 A 100 B 408 |AB|~ZZJ|
A 10 B 20|~V1000202~|8 AB|18 ~ZZJ| -> I 408 A 100 B 19 |AB|~ZZJ|
A 10 B 20|~V1000203~|8 AB|18 ~ZZJ| -> I 408 A 100 B 19 |AB|~ZZJ|
A 10 B 20|~B100020J~|8 AB|18 ~ZZJ| -> I 100 A 100 B 408 |AB|~ZZJ|
A 10 B 20|~B100020K~|8 AB|18 ~ZZJ| -> I 408 A 100 B 19 |AB|~ZZJ|
";

/// Instructions to which a check applies. If several apply, the first one counts.
const CHECKS: &str = "\
A 10 B 20|~B100H~|8 AB|18 ~123| -> Check(Instruction) I 400 A 10 B 20 |AB|~123|
A 10 B 20|~B#00H~|8 AB|18 ~123| -> Check(Instruction) I 400 A 10 B 20 |AB|~123|
A 10 B 20|~B#00S~|8 AB|18 ~123| -> Check(Address) I 400 A 10 B 20 |AB|~123|
A 10 B 20|~V1000204~|8 AB|18 ~123| -> Check(Instruction) I 400 A 10 B 20 |AB|~123|
A 10 B 20|~A01002~|8 AB|18 ~123| -> Check(Instruction) I 400 A 10 B 20 |AB|~123|
A 10 B 20|~A010020~|8 ~0#5|18 ~123| -> Check(Data) I 400 A 10 B 20 |~0#5|~123|
A 10 B 20|~A020019~|8 AB|18 ~123| -> Check(Overlap) I 400 A 10 B 20 |AB|~123|
A 10 B 20|~#001020~|8 AB|18 ~123| -> Check(Address) I 400 A 10 B 20 |AB|~123|
A 10 B 20|~K3~|8 AB|18 ~123| -> Check(Instruction) I 400 A 10 B 20 |AB|~123|
A 10 B 20|~KD~|8 AB|18 ~123| -> Check(Instruction) I 400 A 10 B 20 |AB|~123|
A 10 B 20|~K~|8 AB|18 ~123| -> Check(Instruction) I 400 A 10 B 20 |AB|~123|
A 10 B 20|~K44~|8 AB|18 ~123| -> Check(Instruction) I 400 A 10 B 20 |AB|~123|
A 10 B 20|~K100~|8 AB|18 ~123| -> Check(Instruction) I 400 A 10 B 20 |AB|~123|
A 10 B 20|~K1004~|8 AB|18 ~123| -> Check(Instruction) I 400 A 10 B 20 |AB|~123|
A 10 B 20|~K100020~|8 AB|18 ~123| -> Check(Instruction) I 400 A 10 B 20 |AB|~123|
A 10 B 20|~K1000204~|8 AB|18 ~123| -> Check(Instruction) I 400 A 10 B 20 |AB|~123|
";

#[test]
fn single_steps(rt: HostRuntime) -> Result<(), Fail> {
    for sheet in [
        OPERATIONS,
        KEPT,
        LARGE_STORAGES,
        BRANCHES,
        CHECKS,
        addressing::READ,
        addressing::WRITTEN,
        addressing::INDEXED,
        addressing::OPERANDS,
        addressing::STORED,
        arithmetic::SUMS,
        arithmetic::DIFFERENCES,
        arithmetic::COPIES,
        arithmetic::COMPARISONS,
        arithmetic::CHECKS,
        moving::MOVES,
        moving::EDITS,
        moving::CONTROLS,
        moving::CHECKS,
    ] {
        check::<Steps>(rt.alloc(), sheet)?;
    }
    Ok(())
}
