//! Sense switches as texts.

ghost use Rattle.std.specs.Prelude.{◌≡◌, ◌++◌, IfSome, IfNone, OnOk};
ghost use Rattle.units.specs.declared.Switches.{Switches};
ghost use Rattle.texts.specs.Switches.{AreSwitchesOf, letter_bit, letter_of, letters_of, risen, text_of};

use bitflags::Flags;
use std::alloc::AllocError;
use units::Switches;

/// The bit of a letter from A to G.
fn bit_of(letter: u8) -> Option<u8>
    ensures { result ≡ letter_bit letter }
{
    match letter {
        b'A' => Some(1),
        b'B' => Some(2),
        b'C' => Some(4),
        b'D' => Some(8),
        b'E' => Some(16),
        b'F' => Some(32),
        b'G' => Some(64),
        _ => None,
    }
}

/// The bits of rising letters. A letter rises if all bits so far are below its bit.
#[tactic(auto, unfolding(crate::specs::Switches::risen))]
fn bits_of(letters: &[u8]) -> Option<u8>
    ensures { result ≡ risen 0 letters.now }
{
    let mut bits = 0;
    let mut rest = letters;
    while let Some((letter, more)) = rest.split_first() {
        let Some(bit) = bit_of(*letter) else {
            return None;
        };
        if bit <= bits {
            return None;
        }
        bits += bit;
        rest = more;
    }
    Some(bits)
}

/// The switches that a text names: rising letters of `ABCDEFG` without repeats, or `-` for none.
pub fn switches_of(text: &str) -> Option<Switches>
    ensures some { IfSome result (AreSwitchesOf text.now) }
    ensures none { IfNone result ((switches : Switches) → ¬ AreSwitchesOf text.now switches) }
{
    if text == "-" {
        return Some(Switches::empty());
    }
    let Some(bits) = bits_of(text.as_bytes()) else {
        return None;
    };
    if bits == 0 {
        return None;
    }
    Some(Switches::from_bits_retain(bits))
}

/// Adds the letter of the switch with this bit, if the bit is set.
fn push_letter(text: &mut Vec<u8>, bits: u8, bit: u8, letter: u8) -> Result<(), AllocError>
    ensures { OnOk result (text.new.items ≡ text.old.items ++ letter_of bits bit letter) }
{
    if bits & bit == bit {
        text.push(letter)?;
    }
    Ok(())
}

/// Adds the letters of the switches whose bits are set.
#[tactic(auto, unfolding(crate::specs::Switches::letters_of))]
fn push_letters(text: &mut Vec<u8>, bits: u8) -> Result<(), AllocError>
    ensures { OnOk result (text.new.items ≡ text.old.items ++ letters_of bits) }
{
    push_letter(text, bits, 1, b'A')?;
    push_letter(text, bits, 2, b'B')?;
    push_letter(text, bits, 4, b'C')?;
    push_letter(text, bits, 8, b'D')?;
    push_letter(text, bits, 16, b'E')?;
    push_letter(text, bits, 32, b'F')?;
    push_letter(text, bits, 64, b'G')
}

/// Adds the text of switches: the letters of those that are on, or `-` if none is. Fails only if
/// there is no memory.
pub fn push_switches(text: &mut Vec<u8>, switches: Switches) -> Result<(), AllocError>
    ensures { OnOk result (text.new.items ≡ text.old.items ++ text_of switches) }
{
    let bits = switches.bits();
    if bits == 0 {
        text.push(b'-')?;
        return Ok(());
    }
    push_letters(text, bits)
}
