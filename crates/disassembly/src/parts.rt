//! The parts of an instruction's characters.

ghost use Rattle.std.specs.Prelude.{◌≡◌, ◌<◌, ◌≤◌, bytes_eq, length, IfSome};
ghost use Rattle.core_store.specs.Storage.{largest_size};
ghost use Rattle.addresses.specs.Addresses.{written};
ghost use Rattle.disassembly.specs.Statements.{address, is_own_last, last};

use addresses::{Tagged, decode, encode_tagged};
use autocoder_statements::Modifiers;
use bcd::{Code, Zone};

/// Whether these are the characters of an address with this tag.
fn is_written(number: u16, tag: Zone, three: [Code; 3]) -> bool
    requires { number < largest_size }
    ensures { result ≡ bytes_eq (written tag number) three }
{
    encode_tagged(number, tag) == three
}

/// The address that a text begins with, if the assembler writes it so.
#[tactic(auto, using(crate::proofs::PartLemmas::address_found), unfolding(crate::specs::Statements::address))]
pub(crate) fn address(text: &[Code]) -> Option<Tagged>
    ensures address { result ≡ address text.now }
    ensures within { IfSome result (λ address. 3 ≤ length text.now) }
{
    let [first, second, third, ..] = text else {
        return None;
    };
    let three = [*first, *second, *third];
    let address = decode(three)?;
    if !is_written(address.base, second.zone(), three) {
        return None;
    }
    Some(address)
}

/// The one character that a text is, if an instruction that takes these may end in it.
#[tactic(auto, unfolding(crate::specs::Statements::last))]
pub(crate) fn last(modifiers: Modifiers, text: &[Code]) -> Option<Code>
    ensures { result ≡ last modifiers text.now }
{
    let [code] = text else {
        return None;
    };
    if !modifiers.has(*code) {
        return None;
    }
    Some(*code)
}

/// Whether a text is the last character that a mnemonic has of itself, or nothing if it has none.
#[tactic(auto, unfolding(crate::specs::Statements::is_own_last))]
pub(crate) fn is_own_last(own: Option<u8>, text: &[Code]) -> bool
    ensures { result ≡ is_own_last own text.now }
{
    match (own, text) {
        (None, []) => true,
        (Some(glyph), [code]) => code.glyph() == glyph,
        _ => false,
    }
}
