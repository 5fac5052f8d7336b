//! Lines of a record: a word, and its values.

ghost use Rattle.std.specs.Prelude.{◌≡◌, ◌++◌, codes, decimal, OnOk};
ghost use Rattle.job_archives.specs.Records.{apart_line, digest_line, line, pocket_line, stretch_line};

use itoa::Buffer;
use office::Stretch;
use std::alloc::{AllocError, Global};
use texts::{push_decimal, push_digest, push_switches};
use units::Pocket;

/// Adds a line with a word and its value.
pub(crate) fn push_line(out: &mut Vec<u8>, word: &str, value: &[u8]) -> Result<(), AllocError>
    ensures { OnOk result (out.new.items ≡ out.old.items ++ line word.now value.now) }
{
    out.extend_from_slice(word.as_bytes())?;
    out.extend_from_slice(b" ")?;
    out.extend_from_slice(value)?;
    out.extend_from_slice(b"\n")
}

/// Adds a line with a word and a number.
pub(crate) fn push_number(out: &mut Vec<u8>, word: &str, number: usize) -> Result<(), AllocError>
    ensures { OnOk result (out.new.items ≡ out.old.items ++ line word.now (decimal number)) }
{
    let mut buffer = Buffer::new();
    push_line(out, word, buffer.format(number).as_bytes())
}

/// Adds the line of a stretch: its switches, and how many instructions were granted.
pub(crate) fn push_stretch(out: &mut Vec<u8>, stretch: Stretch) -> Result<(), AllocError>
    ensures { OnOk result (out.new.items ≡ out.old.items ++ stretch_line stretch) }
{
    out.extend_from_slice(b"stretch ")?;
    push_switches(out, stretch.switches)?;
    out.extend_from_slice(b" ")?;
    push_decimal(out, stretch.granted as usize)?;
    out.extend_from_slice(b"\n")
}

/// Adds the line of a card at a place, which is in a pocket of this number.
fn push_apart(out: &mut Vec<u8>, place: usize, pocket: usize) -> Result<(), AllocError>
    ensures { OnOk result (out.new.items ≡ out.old.items ++ apart_line place pocket) }
{
    out.extend_from_slice(b"pocket ")?;
    push_decimal(out, place)?;
    out.extend_from_slice(b" ")?;
    push_decimal(out, pocket)?;
    out.extend_from_slice(b"\n")
}

/// Adds the line of a card at a place in a pocket, unless it is in the normal one.
pub(crate) fn push_pocket(out: &mut Vec<u8>, place: usize, pocket: Pocket) -> Result<(), AllocError>
    ensures { OnOk result (out.new.items ≡ out.old.items ++ pocket_line place pocket) }
{
    match pocket {
        Pocket::Normal => Ok(()),
        Pocket::Four => push_apart(out, place, 4),
        Pocket::Eight => push_apart(out, place, 8),
    }
}

/// Adds the line of a file: its name, and the digest of its bytes.
#[tactic(auto, unfolding(crate::specs::Records::digest_line))]
pub(crate) fn push_file(
    alloc: Global,
    out: &mut Vec<u8>,
    name: &str,
    bytes: &[u8],
) -> Result<(), AllocError>
    ensures { OnOk result (out.new.items ≡ out.old.items ++ digest_line name.now bytes.now) }
{
    out.extend_from_slice(b"SHA256 (")?;
    out.extend_from_slice(name.as_bytes())?;
    out.extend_from_slice(b") = ")?;
    push_digest(alloc, out, bytes)?;
    out.extend_from_slice(b"\n")
}
