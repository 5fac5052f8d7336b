//! What the lines tell that the program prints of how it ended.

use texts::number_or_zero;

/// What a line tells.
#[derive(Clone, Copy)]
pub(crate) enum Told {
    /// Nothing that is explained.
    Nothing,
    /// The bureau's file, or another thing, failed with the fault of this number.
    Fault(u32),
    /// Another file, a port or an output failed.
    Device,
    /// A card of a deck, or its column, is at fault.
    Card { card: u32, column: u32, fault: u32 },
    /// A card of a source is at fault.
    Source,
    /// A command was refused, for the reason of this number.
    Refused(u32),
    /// A line of a script is no part of a command.
    BadLine(u32),
    /// A run used all its instructions.
    Running,
    /// A run ended with a check at the first instruction, as that of a source does.
    FirstCheck,
    /// A run ended with another check.
    Check,
}

/// What the rest of a line tells behind `fault`.
fn of_fault(rest: &str) -> Told {
    match rest {
        "device" => Told::Device,
        number => Told::Fault(number_or_zero(number)),
    }
}

/// What the rest of a line tells behind `card`: it has also a column if the card is of a deck.
fn of_card(rest: &str) -> Told {
    let Some((card, rest)) = rest.split_once(" column ") else {
        return Told::Source;
    };
    let Some((column, fault)) = rest.split_once(" fault ") else {
        return Told::Nothing;
    };
    Told::Card {
        card: number_or_zero(card),
        column: number_or_zero(column),
        fault: number_or_zero(fault),
    }
}

/// What the rest of a line tells behind `cards`, which says how a run ended.
fn of_run(rest: &str) -> Told {
    if rest.ends_with(" running") {
        return Told::Running;
    }
    if rest.ends_with(" check INSTRUCTION at 1") {
        return Told::FirstCheck;
    }
    if rest.contains(" check ") {
        return Told::Check;
    }
    Told::Nothing
}

impl Told {
    /// What a line tells.
    pub(crate) fn of(line: &str) -> Told {
        match line.split_once(' ') {
            Some(("fault", rest)) => of_fault(rest),
            Some(("card", rest)) => of_card(rest),
            Some(("cards", rest)) => of_run(rest),
            Some(("refused", number)) => Told::Refused(number_or_zero(number)),
            Some(("bad", rest)) => match rest.strip_prefix("line ") {
                Some(number) => Told::BadLine(number_or_zero(number)),
                None => Told::Nothing,
            },
            _ => Told::Nothing,
        }
    }
}
