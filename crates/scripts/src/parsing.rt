//! Reading commands from the bytes of a script.

ghost use Rattle.std.specs.Prelude.{◌≡◌, ◌≢◌, ◌<◌, ◌≤◌, ◌+◌, ◌↔◌, [], IfOk, IfErr, IsErrOf, length};
ghost use Rattle.scripts.specs.Scripts.{Begins, EndsSubmission, HasFaultAfter, IsFaultHere, IsFaultOf, IsNear, IsScriptOf, later, most_bytes};

use crate::cuts::cut_at;
use crate::decks::deck_in;
use crate::faults::ScriptFault;
use crate::found::Found;
use crate::headings::Heading;
use crate::meaning::meant_in;
use crate::meanings::Meaning;
use cards::LINE_FEED;
use office::{Command, Contents};
use std::alloc::Global;

/// The greatest number of bytes of a script.
pub const MOST_BYTES: usize = 4_000_000;

/// The fault, with its line number raised by the number of lines before it.
fn later(lines: usize, fault: ScriptFault) -> ScriptFault
    requires early { lines ≤ most_bytes }
    requires near { IsNear fault }
    ensures { result ≡ later lines fault }
{
    match fault {
        ScriptFault::BadLine(number) => ScriptFault::BadLine(lines + number),
        other => other,
    }
}

/// Reads the submission of a heading and of the bytes after its line.
fn submission<'a>(
    alloc: Global,
    heading: Heading,
    bytes: &'a [u8],
) -> Result<Found<'a>, ScriptFault>
    requires { heading.cards ≤ 2000 }
    ensures found { IfOk result (λ found. EndsSubmission heading bytes.now found.command
        found.lines found.rest.now) }
    ensures fault { IfErr result (HasFaultAfter bytes.now heading.cards) }
    ensures near { IfErr result IsNear }
{
    let (deck, rest) = match deck_in(alloc, bytes, heading.cards) {
        Ok(found) => found,
        Err(fault) => return Err(later(1, fault)),
    };
    Ok(Found {
        command: Command::Submit {
            customer: heading.customer,
            number: heading.number,
            contents: Contents {
                kind: heading.kind,
                size: heading.size,
                switches: heading.switches,
                deck,
            },
        },
        lines: 1 + heading.cards,
        rest,
    })
}

/// Reads the first command of the bytes.
fn command_in(alloc: Global, bytes: &[u8]) -> Result<Found<'_>, ScriptFault>
    requires { bytes.now ≢ [] }
    ensures found { IfOk result (λ found. Begins bytes.now found.command found.lines
        found.rest.now) }
    ensures some { IfOk result (λ found. 0 < found.lines) }
    ensures shorter { IfOk result (λ found.
        found.lines + length found.rest.now ≤ length bytes.now) }
    ensures fault { IfErr result (IsFaultHere bytes.now) }
    ensures near { IfErr result IsNear }
{
    let Some((line, rest)) = cut_at(LINE_FEED, bytes) else {
        return Err(ScriptFault::BadLine(1));
    };
    match meant_in(alloc, line)? {
        Meaning::Nothing => Err(ScriptFault::BadLine(1)),
        Meaning::Command(command) => Ok(Found {
            command,
            lines: 1,
            rest,
        }),
        Meaning::Heading(heading) => submission(alloc, heading, rest),
    }
}

/// Reads the commands of a script. All lines are read before it returns. Fails with `TooLong` over
/// 4,000,000 bytes, with `BadLine` at the first line that is not part of a command, or if there is
/// no memory.
pub fn parse(alloc: Global, bytes: &[u8]) -> Result<Vec<Command>, ScriptFault>
    ensures script { IfOk result (λ commands. IsScriptOf bytes.now commands.items) }
    ensures long { IsErrOf result ScriptFault.TooLong ↔ (most_bytes < length bytes.now) }
    ensures fault { IfErr result (IsFaultOf bytes.now) }
{
    if bytes.len() > MOST_BYTES {
        return Err(ScriptFault::TooLong);
    }
    let mut commands = Vec::new(alloc);
    let mut lines = 0usize;
    let mut rest = bytes;
    while !rest.is_empty() {
        commands.try_reserve(1)?;
        let found = match command_in(alloc, rest) {
            Ok(found) => found,
            Err(fault) => return Err(later(lines, fault)),
        };
        commands.push_reserved(found.command);
        lines += found.lines;
        rest = found.rest;
    }
    Ok(commands)
}
