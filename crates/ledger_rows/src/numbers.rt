//! Indicators, orders, standings, switches, profiles and pockets as numbers.

ghost use Rattle.std.specs.Prelude.{◌≡◌, ◌<◌, Bool, Option, Some, IfSome};
ghost use Rattle.core_store.specs.declared.registers.Compared.{Compared};
ghost use Rattle.machine.specs.declared.standings.Standing.{Standing};
ghost use Rattle.units.specs.{
  Pockets.{pocket_number},
  declared.carriage.Motion.{Motion},
  declared.pockets.Pocket.{Pocket},
  declared.profiles.Profile.{Profile},
  declared.switches.Switches.{Switches},
  Switches.{AreSeven},
};
ghost use Rattle.machine.specs.Numbers.{compare_number, waiting_number, standing_number};
ghost use Rattle.ledger_rows.specs.Columns.{truth, profile_number};

use bitflags::Flags;
use core_store::{Check, Compared};
use machine::Standing;
use units::{Motion, Pocket, Profile, Switches};

/// The switches as a number, A the lowest bit and G the seventh.
pub fn switches_number(switches: Switches) -> u32
    ensures number { result ≡ switches.0 }
{
    switches.bits() as u32
}

/// The switches of a number: the sum of their bits, below 128.
pub fn read_switches(number: u32) -> Option<Switches>
    ensures all { (switches : Switches) → AreSeven switches → number ≡ switches.0
        → result ≡ Some switches }
    ensures only { IfSome result (λ switches. (switches.0 ≡ number) × AreSeven switches) }
{
    let Ok(bits) = u8::try_from(number) else {
        return None;
    };
    let switches = Switches::from_bits_retain(bits);
    if switches.are_seven() {
        Some(switches)
    } else {
        None
    }
}

/// 1 for true, 0 for false.
pub fn truth(value: bool) -> u32
    ensures { result ≡ truth value }
{
    if value { 1 } else { 0 }
}

/// The value that `truth` writes as this number, if there is one.
pub fn read_truth(number: u32) -> Option<bool>
    ensures all { (value : Bool) → number ≡ truth value → result ≡ Some value }
    ensures only { IfSome result (λ value. truth value ≡ number) }
{
    match number {
        0 => Some(false),
        1 => Some(true),
        _ => None,
    }
}

/// The comparison with this number, if there is one.
pub fn read_compare(number: u32) -> Option<Compared>
    ensures all { (compare : Compared) → number ≡ compare_number compare → result ≡ Some compare }
    ensures only { IfSome result (λ compare. compare_number compare ≡ number) }
{
    match number {
        0 => Some(Compared::Equal),
        1 => Some(Compared::Low),
        2 => Some(Compared::High),
        _ => None,
    }
}

/// The move that waits with this number, if there is such a number.
pub fn read_waiting(number: u32) -> Option<Option<Motion>>
    ensures all { (waiting : Option Motion) → number ≡ waiting_number waiting
        → result ≡ Some waiting }
    ensures only { IfSome result (λ waiting. waiting_number waiting ≡ number) }
{
    match number {
        0 => Some(None),
        1 => Some(Some(Motion::Space)),
        2 => Some(Some(Motion::DoubleSpace)),
        3 => Some(Some(Motion::TripleSpace)),
        4 => Some(Some(Motion::SkipToChannel1)),
        _ => None,
    }
}

/// The standing with this number, if there is one.
pub fn read_standing(number: u32) -> Option<Standing>
    ensures all { (standing : Standing) → number ≡ standing_number standing
        → result ≡ Some standing }
    ensures only { IfSome result (λ standing. standing_number standing ≡ number) }
{
    match number {
        0 => Some(Standing::Running),
        1 => Some(Standing::Halted),
        2 => Some(Standing::Checked(Check::Address)),
        3 => Some(Standing::Checked(Check::Instruction)),
        4 => Some(Standing::Checked(Check::Data)),
        5 => Some(Standing::Checked(Check::Overlap)),
        6 => Some(Standing::Checked(Check::ReaderEmpty)),
        7 => Some(Standing::Checked(Check::PunchFull)),
        8 => Some(Standing::Checked(Check::PrinterFull)),
        _ => None,
    }
}

/// The number of a profile: 1 without stacker selection, 2 with it.
pub(crate) fn profile_number(profile: Profile) -> u32
    ensures { result ≡ profile_number profile }
{
    match profile {
        Profile::Plain => 1,
        Profile::Selecting => 2,
    }
}

/// The profile with this number, if there is one.
pub(crate) fn read_profile(number: u32) -> Option<Profile>
    ensures all { (profile : Profile) → number ≡ profile_number profile → result ≡ Some profile }
    ensures only { IfSome result (λ profile. profile_number profile ≡ number) }
{
    match number {
        1 => Some(Profile::Plain),
        2 => Some(Profile::Selecting),
        _ => None,
    }
}

/// The pocket with this number, if there is one.
pub(crate) fn read_pocket(number: u32) -> Option<Pocket>
    ensures all { (pocket : Pocket) → number ≡ pocket_number pocket → result ≡ Some pocket }
    ensures only { IfSome result (λ pocket. pocket_number pocket ≡ number) }
{
    match number {
        0 => Some(Pocket::Normal),
        4 => Some(Pocket::Four),
        8 => Some(Pocket::Eight),
        _ => None,
    }
}
