//! The tests that branches make: of a condition of the machine, or of a position.

ghost use Rattle.std.specs.Prelude.{◌≡◌, ◌<◌, ◌==◌, length};
ghost use Rattle.bcd.specs.Table.{zone_number};
ghost use Rattle.machine.specs.{
  Branches.{condition_of, is_met, once_tested, test_of, passes, has_zone},
  Instructions.{condition_by, place_of},
};

use bcd::{Code, Zone};
use bitflags::Flags;
use core_store::{Compared, Core, Registers};
use units::{Switches, Units};

/// What a branch of five characters tests, named by its last character.
#[derive(Clone, Copy)]
pub enum Condition {
    /// Blank: no test, always met.
    Always,
    /// `/`: the comparison was not equal.
    IsUnequal,
    /// `S`: the comparison was equal.
    IsEqual,
    /// `T`: B was low.
    IsLow,
    /// `U`: B was high.
    IsHigh,
    /// `Z`: a sum was too long for its field. The test turns the indicator off.
    Overflow,
    /// `A`: switch A is on and no card is left to read.
    LastCard,
    /// `B` to `G`: this switch is on.
    SwitchOn(Switches),
    /// `@`: the carriage has passed the hole of channel 12.
    Channel12,
}

/// What a branch on word mark or zone tests at a position, named by its last character.
#[derive(Clone, Copy)]
pub enum PositionTest {
    /// `1`: has a word mark.
    HasMark,
    /// `2`, `B`, `K`, `S`: has no zone, or the zone AB, B or A.
    HasZone(Zone),
    /// `3`, `C`, `L`, `T`: has this zone, or a word mark.
    HasZoneOrMark(Zone),
}

/// The results of a comparison at which each character's condition is met: bit 0 equal, bit 1 low,
/// bit 2 high. 0 where the condition is another one.
const MET: [u8; 64] = [
    7, 0, 0, 0, 0, 0, 0, 0, 0, 0, 0, 0, 0, 0, 0, 0, 0, 6, 1, 2, 4, 0, 0, 0, 0, 0, 0, 0, 0, 0, 0, 0,
    0, 0, 0, 0, 0, 0, 0, 0, 0, 0, 0, 0, 0, 0, 0, 0, 0, 0, 0, 0, 0, 0, 0, 0, 0, 0, 0, 0, 0, 0, 0, 0,
];

/// The bit of `MET` that the result of a comparison has.
#[inline(always)]
fn place_of(compared: Compared) -> u8
    ensures { result ≡ place_of compared }
{
    match compared {
        Compared::Equal => 0,
        Compared::Low => 1,
        Compared::High => 2,
    }
}

impl Condition {
    /// The condition that a character names.
    #[inline(always)]
    #[tactic(auto, unfolding(crate::specs::Branches::condition_of))]
    pub fn of_code(code: Code) -> Option<Condition>
        ensures { result ≡ condition_of code }
    {
        match code.glyph() {
            b' ' => Some(Condition::Always),
            b'/' => Some(Condition::IsUnequal),
            b'S' => Some(Condition::IsEqual),
            b'T' => Some(Condition::IsLow),
            b'U' => Some(Condition::IsHigh),
            b'Z' => Some(Condition::Overflow),
            b'A' => Some(Condition::LastCard),
            b'B' => Some(Condition::SwitchOn(Switches::B)),
            b'C' => Some(Condition::SwitchOn(Switches::C)),
            b'D' => Some(Condition::SwitchOn(Switches::D)),
            b'E' => Some(Condition::SwitchOn(Switches::E)),
            b'F' => Some(Condition::SwitchOn(Switches::F)),
            b'G' => Some(Condition::SwitchOn(Switches::G)),
            b'@' => Some(Condition::Channel12),
            _ => None,
        }
    }

    /// Whether the condition is met.
    #[tactic(auto, unfolding(crate::specs::Branches::is_met))]
    pub fn is_met(self, registers: &Registers, units: &Units) -> bool
        ensures { result ≡ is_met self registers.now units.now }
    {
        match self {
            Condition::Always => true,
            Condition::IsUnequal => !matches!(registers.compare, Compared::Equal),
            Condition::IsEqual => matches!(registers.compare, Compared::Equal),
            Condition::IsLow => matches!(registers.compare, Compared::Low),
            Condition::IsHigh => matches!(registers.compare, Compared::High),
            Condition::Overflow => registers.overflow,
            Condition::LastCard => units.is_last_card(),
            Condition::SwitchOn(one) => units.switches.contains(one),
            Condition::Channel12 => units.printer.carriage.channel_12,
        }
    }

    /// Turns the indicator of overflow off if the condition tests it.
    fn reset(self, registers: &mut Registers)
        ensures { registers.new ≡ once_tested self registers.old }
    {
        if let Condition::Overflow = self {
            registers.overflow = false;
        }
    }

    /// Tests the condition that a character names. One that names none is met.
    #[inline(never)]
    #[tactic(auto, unfolding(crate::specs::Instructions::condition_by))]
    fn test_named(code: Code, registers: &mut Registers, units: &Units) -> bool
        ensures met { result ≡ is_met (condition_by code) registers.old units.now }
        ensures registers { registers.new ≡ once_tested (condition_by code) registers.old }
    {
        let Some(condition) = Condition::of_code(code) else {
            return true;
        };
        let is_met = condition.is_met(registers, units);
        condition.reset(registers);
        is_met
    }

    /// Tests the condition that a character names. The conditions of the comparison are looked up.
    #[inline(always)]
    pub fn test(code: Code, registers: &mut Registers, units: &Units) -> bool
        ensures met { result ≡ is_met (condition_by code) registers.old units.now }
        ensures registers { registers.new ≡ once_tested (condition_by code) registers.old }
    {
        let met = MET[code.number() as usize];
        if met == 0 {
            return Condition::test_named(code, registers, units);
        }
        (met >> place_of(registers.compare)) % 2 == 1
    }
}

/// Whether the character at a position has a zone.
fn has_zone<C: Core>(core: &C, position: u16, zone: Zone) -> bool
    requires { position < length (C.cells core.now) }
    ensures { result ≡ has_zone (C.cells core.now) position zone }
{
    core.get(position).zone().bits() == zone.bits()
}

impl PositionTest {
    /// The test that a character names.
    #[inline(always)]
    #[tactic(auto, unfolding(crate::specs::Branches::test_of))]
    pub fn of_code(code: Code) -> Option<PositionTest>
        ensures { result ≡ test_of code }
    {
        match code.glyph() {
            b'1' => Some(PositionTest::HasMark),
            b'2' => Some(PositionTest::HasZone(Zone::Bare)),
            b'B' => Some(PositionTest::HasZone(Zone::AB)),
            b'K' => Some(PositionTest::HasZone(Zone::B)),
            b'S' => Some(PositionTest::HasZone(Zone::A)),
            b'3' => Some(PositionTest::HasZoneOrMark(Zone::Bare)),
            b'C' => Some(PositionTest::HasZoneOrMark(Zone::AB)),
            b'L' => Some(PositionTest::HasZoneOrMark(Zone::B)),
            b'T' => Some(PositionTest::HasZoneOrMark(Zone::A)),
            _ => None,
        }
    }

    /// Whether a position passes the test.
    #[tactic(auto, unfolding(crate::specs::Branches::passes))]
    pub fn passes<C: Core>(self, core: &C, position: u16) -> bool
        requires { position < length (C.cells core.now) }
        ensures { result ≡ passes self (C.cells core.now) position }
    {
        match self {
            PositionTest::HasMark => core.is_marked(position),
            PositionTest::HasZone(zone) => has_zone(core, position, zone),
            PositionTest::HasZoneOrMark(zone) => {
                has_zone(core, position, zone) || core.is_marked(position)
            }
        }
    }
}
