//! The tables by which addresses are read.

ghost use Rattle.addresses.specs.Addresses.{base, Spells};

use bcd::Code;

/// The entry of a character without a value. It is above the value of every readable address.
pub const UNREADABLE: u16 = 20000;

/// The value of each character as the first of an address: hundreds, and thousands by its zone.
const FIRST: [u16; 64] = [
    0, 100, 200, 300, 400, 500, 600, 700, 800, 900, 0, 20000, 20000, 20000, 20000, 20000, 1000,
    1100, 1200, 1300, 1400, 1500, 1600, 1700, 1800, 1900, 1000, 20000, 20000, 20000, 20000, 20000,
    2000, 2100, 2200, 2300, 2400, 2500, 2600, 2700, 2800, 2900, 2000, 20000, 20000, 20000, 20000,
    20000, 3000, 3100, 3200, 3300, 3400, 3500, 3600, 3700, 3800, 3900, 3000, 20000, 20000, 20000,
    20000, 20000,
];

/// The value of each character as the second of an address: tens. Its zone is the tag.
const SECOND: [u16; 64] = [
    0, 10, 20, 30, 40, 50, 60, 70, 80, 90, 0, 20000, 20000, 20000, 20000, 20000, 0, 10, 20, 30, 40,
    50, 60, 70, 80, 90, 0, 20000, 20000, 20000, 20000, 20000, 0, 10, 20, 30, 40, 50, 60, 70, 80,
    90, 0, 20000, 20000, 20000, 20000, 20000, 0, 10, 20, 30, 40, 50, 60, 70, 80, 90, 0, 20000,
    20000, 20000, 20000, 20000,
];

/// The value of each character as the third of an address: units, and four thousands by its zone.
const THIRD: [u16; 64] = [
    0, 1, 2, 3, 4, 5, 6, 7, 8, 9, 0, 20000, 20000, 20000, 20000, 20000, 4000, 4001, 4002, 4003,
    4004, 4005, 4006, 4007, 4008, 4009, 4000, 20000, 20000, 20000, 20000, 20000, 8000, 8001, 8002,
    8003, 8004, 8005, 8006, 8007, 8008, 8009, 8000, 20000, 20000, 20000, 20000, 20000, 12000,
    12001, 12002, 12003, 12004, 12005, 12006, 12007, 12008, 12009, 12000, 20000, 20000, 20000,
    20000, 20000,
];

/// The number that three characters spell without the tag; `UNREADABLE` or more if they spell none.
#[inline(always)]
pub fn base(first: Code, second: Code, third: Code) -> u16
    ensures { Spells (base first second third) result }
{
    let hundreds = FIRST[first.number() as usize];
    let tens = SECOND[second.number() as usize];
    let units = THIRD[third.number() as usize];
    hundreds + tens + units
}
