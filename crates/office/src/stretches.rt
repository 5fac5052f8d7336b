//! The stretches of a job, from one start of its machine to the next.

ghost use Rattle.std.specs.{
  Prelude.{◌≡◌, ◌↔◌, ◌+◌, ◌-◌, ◌^◌, ◌≤◌, [], min, IsTrue, IfOk, OnOk, OnErr, IfSome, MatchOption},
  List.{All},
};
ghost use Rattle.units.specs.Switches.{seven};
ghost use Rattle.office.specs.{
  Limits.{most_granted},
  Jobs.{granted, granted_more, one_more, HasSwitches, AreStretches},
};

use std::alloc::{AllocError, Global};
use std::marker::Model;
use units::Switches;

/// The greatest number of instructions that a job is granted, over all its stretches.
pub(crate) const MOST_GRANTED: u64 = 1_000_000_000;

/// A stretch: from one start of a job's machine to the next.
#[derive(Clone, Copy, Debug, PartialEq, Eq)]
pub struct Stretch {
    pub switches: Switches,
    /// The number of instructions granted, by all slices together.
    pub granted: u32,
}

/// The number of instructions granted in all, or the greatest number if that is more.
pub fn granted_in(stretches: &[Stretch]) -> u32
    ensures { result ≡ min (granted stretches.now) (2 ^ 32 - 1) }
{
    let mut total = 0u32;
    for stretch in stretches {
        total = total.saturating_add(stretch.granted);
    }
    total
}

/// Grants more instructions in the last stretch.
fn grant_more(stretches: &mut [Stretch], limit: u32)
    requires { granted stretches.old + limit ≤ most_granted }
    ensures { stretches.new ≡ granted_more limit stretches.old }
{
    if let Some(last) = stretches.last_mut() {
        last.granted += limit;
    }
}

/// Whether no stretch has the eighth bit, which is not a switch.
fn have_switches(stretches: &[Stretch]) -> bool
    ensures { IsTrue result ↔ All HasSwitches stretches.now }
{
    for stretch in stretches {
        if !stretch.switches.are_seven() {
            return false;
        }
    }
    true
}

/// Whether a job may have these stretches: at least one, and not too much granted in all.
pub fn are_stretches(stretches: &[Stretch]) -> bool
    ensures { IsTrue result ↔ AreStretches stretches.now }
{
    !stretches.is_empty()
        && have_switches(stretches)
        && granted_in(stretches) as u64 <= MOST_GRANTED
}

/// The stretches of a job: at least one, and not too much granted in all.
#[derive(Drop)]
pub(crate) struct Stretches {
    list: Vec<Stretch>,
}

impl Model for Stretches {
    ghost use Rattle.std.specs.Prelude.{List};
    ghost use Rattle.office.specs.Jobs.{AreStretches};
    ghost use Rattle.office.specs.declared.stretches.Stretch.{Stretch};

    ghost Value = { List Stretch };

    ghost view = { λ stretches. stretches.list.items };

    ghost invariant = { λ stretches. AreStretches stretches.list.items };
}

impl Stretches {
    /// One stretch, with nothing granted yet.
    #[tactic(auto, using(crate::proofs::StretchLemmas::first_fits))]
    pub(crate) fn of_one(alloc: Global, switches: Switches) -> Result<Stretches, AllocError>
        ensures { IfOk result (λ stretches. stretches ≡ one_more (seven switches) []) }
    {
        let mut list = Vec::new(alloc);
        list.try_reserve(1)?;
        list.push_reserved(Stretch {
            switches: switches.seven(),
            granted: 0,
        });
        Ok(Stretches { list })
    }

    /// The stretches of a list, if a job may have them.
    pub(crate) fn of_list(list: Vec<Stretch>) -> Option<Stretches>
        ensures are { IfSome result (λ stretches. stretches ≡ list.items) }
        ensures in_range { MatchOption result
            (¬ AreStretches list.items) (λ _. AreStretches list.items) }
    {
        if are_stretches(&list) {
            Some(Stretches { list })
        } else {
            None
        }
    }

    /// The stretches in order.
    pub(crate) fn list(&self) -> &[Stretch]
        ensures list { result.now ≡ self.now }
        ensures are { AreStretches self.now }
    {
        &self.list
    }

    /// The number of instructions granted in all.
    pub(crate) fn total_grant(&self) -> u32
        ensures { result ≡ granted self.now }
    {
        granted_in(&self.list)
    }

    /// Grants more instructions in the last stretch.
    pub(crate) fn grant(&mut self, limit: u32)
        requires { granted self.old + limit ≤ most_granted }
        ensures { self.new ≡ granted_more limit self.old }
    {
        grant_more(&mut self.list, limit);
    }

    /// Begins one more stretch, with nothing granted yet.
    pub(crate) fn begin(&mut self, switches: Switches) -> Result<(), AllocError>
        ensures begun { OnOk result (self.new ≡ one_more (seven switches) self.old) }
        ensures unchanged { OnErr result (self.new ≡ self.old) }
    {
        self.list.try_reserve(1)?;
        self.list.push_reserved(Stretch {
            switches: switches.seven(),
            granted: 0,
        });
        Ok(())
    }
}
