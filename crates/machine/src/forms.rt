//! The forms of instructions: the lengths and the last characters that each operation allows.

ghost use Rattle.std.specs.Prelude.{◌≡◌, ◌≤◌, ◌<◌, ◌==◌, ◌/◌, ◌%◌, ◌^◌, true};
ghost use Rattle.machine.specs.Instructions.{is_form, is_last, addresses_by};

use crate::characters::{BRANCH_ON_MARK_OR_ZONE, CHOOSE_POCKET, NO_OPERATION};
use bcd::Code;

/// The form of one character, as a bit of a set of forms.
const L1: u16 = 1 << 1;
/// The form of two characters.
const L2: u16 = 1 << 2;
/// The form of four.
const L4: u16 = 1 << 4;
/// The form of five.
const L5: u16 = 1 << 5;
/// The form of seven.
const L7: u16 = 1 << 7;
/// The form of eight.
const L8: u16 = 1 << 8;

/// The forms of the operation that each character names, by the character's number.
#[rattlefmt::skip]
const FORMS: [u16; 64] = [
    0,                           //  0
    L1 | L4,                     //  1 "1" read a card
    L1 | L4,                     //  2 "2" print a line
    L1 | L4,                     //  3 "3" print and read
    L1 | L4,                     //  4 "4" punch a card
    L1 | L4,                     //  5 "5" read and punch
    L1 | L4,                     //  6 "6" print and punch
    L1 | L4,                     //  7 "7" print, read and punch
    0, 0, 0,                     //  8 to 10
    L7,                          // 11 "#" modify address
    0, 0, 0, 0, 0,               // 12 to 16
    L1 | L4 | L7,                // 17 "/" clear storage
    L1 | L4 | L7,                // 18 "S" subtract
    0, 0,                        // 19, 20
    L8,                          // 21 "V" branch on word mark or zone
    0, 0,                        // 22, 23
    L1 | L7,                     // 24 "Y" move zone
    L1 | L7,                     // 25 "Z" move and suppress zeros
    0,                           // 26
    L4 | L7,                     // 27 "," set word mark
    0, 0, 0, 0, 0, 0,            // 28 to 33
    L2,                          // 34 "K" choose pocket
    L1 | L7,                     // 35 "L" load
    L1 | L7,                     // 36 "M" move
    L1 | L2 | L4 | L5 | L7 | L8, // 37 "N" no operation
    0, 0,                        // 38, 39
    L4,                          // 40 "Q" store A
    0,                           // 41
    L1 | L4 | L7,                // 42 "!" zero and subtract
    0, 0, 0, 0, 0, 0,            // 43 to 48
    L1 | L4 | L7,                // 49 "A" add
    L4 | L5 | L8,                // 50 "B" branch
    L1 | L7,                     // 51 "C" compare
    L1 | L7,                     // 52 "D" move numeric
    L1 | L7,                     // 53 "E" move and edit
    L2,                          // 54 "F" control carriage
    0,                           // 55
    L4,                          // 56 "H" store B
    0,                           // 57
    L1 | L4 | L7,                // 58 "?" zero and add
    L1 | L4,                     // 59 "." halt
    L4 | L7,                     // 60 ")" clear word mark
    0, 0, 0,                     // 61 to 63
];

/// The forms that allow every last character.
const FREE: u16 = L1 | L4 | L7;

/// The characters that name a condition. In this set the bit n is the character n.
#[rattlefmt::skip]
const CONDITIONS: u64 =
      1 << 0   // blank: always
    | 1 << 12  // "@" channel 12
    | 1 << 17  // "/" unequal
    | 1 << 18  // "S" equal
    | 1 << 19  // "T" low
    | 1 << 20  // "U" high
    | 1 << 25  // "Z" overflow
    | 1 << 49  // "A" last card
    | 1 << 50  // "B" switch B
    | 1 << 51  // "C" switch C
    | 1 << 52  // "D" switch D
    | 1 << 53  // "E" switch E
    | 1 << 54  // "F" switch F
    | 1 << 55; // "G" switch G

/// The characters that name a test of a position.
#[rattlefmt::skip]
const TESTS: u64 =
      1 << 1   // "1" a word mark
    | 1 << 2   // "2" no zone
    | 1 << 3   // "3" no zone, or a word mark
    | 1 << 18  // "S" zone A
    | 1 << 19  // "T" zone A, or a word mark
    | 1 << 34  // "K" zone B
    | 1 << 35  // "L" zone B, or a word mark
    | 1 << 50  // "B" zone AB
    | 1 << 51; // "C" zone AB, or a word mark

/// The characters that name an order to the carriage.
#[rattlefmt::skip]
const ORDERS: u64 =
      1 << 1   // "1" skip to channel 1 now
    | 1 << 17  // "/" space after the line
    | 1 << 18  // "S" space two after the line
    | 1 << 19  // "T" space three after the line
    | 1 << 33  // "J" space now
    | 1 << 34  // "K" space two now
    | 1 << 35  // "L" space three now
    | 1 << 49; // "A" skip to channel 1 after the line

/// The characters that name a pocket.
#[rattlefmt::skip]
const POCKETS: u64 =
      1 << 1  // "1" the choice stays
    | 1 << 2  // "2" the choice stays
    | 1 << 4  // "4" pocket 4
    | 1 << 8; // "8" pocket 8

/// Whether the operation that a character names has a form of `count` characters.
#[inline(always)]
pub fn has_form(first: Code, count: u16) -> bool
    requires { count ≤ 8 }
    ensures { result ≡ is_form first count }
{
    (FORMS[first.number() as usize] >> count) % 2 == 1
}

/// Whether a character is in a set.
#[inline(always)]
fn is_among(set: u64, code: Code) -> bool
    ensures among { result ≡ (set / 2 ^ code % 2 == 1) }
    ensures below { code < 64 }
{
    (set >> code.number()) % 2 == 1
}

/// Whether a form allows its last character.
#[inline(always)]
pub fn allows(first: Code, count: u16, last: Code) -> bool
    requires most { count ≤ 8 }
    requires form { is_form first count ≡ true }
    ensures { result ≡ is_last first count last }
{
    if first.number() == NO_OPERATION {
        return true;
    }
    if (FREE >> count) % 2 == 1 {
        return true;
    }
    if count == 5 {
        return is_among(CONDITIONS, last);
    }
    if count == 2 {
        if first.number() == CHOOSE_POCKET {
            return is_among(POCKETS, last);
        }
        return is_among(ORDERS, last);
    }
    if first.number() == BRANCH_ON_MARK_OR_ZONE {
        return is_among(TESTS, last);
    }
    true
}

/// The number of addresses that a form reads.
#[inline(always)]
pub fn addresses_in(first: Code, count: u16) -> u16
    requires { is_form first count ≡ true }
    ensures count { result ≡ addresses_by first count }
    ensures one { 0 < result → 4 ≤ count }
    ensures two { 1 < result → 7 ≤ count }
{
    match first.number() {
        NO_OPERATION => 0,
        _ if count < 4 => 0,
        _ if count < 7 => 1,
        _ => 2,
    }
}
