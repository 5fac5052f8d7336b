//! The laws of halts and of whole runs.

ghost use Rattle.std.specs.Prelude.{◌≡◌, ◌-◌, ◌≤◌, ℕ, List, true, false};
ghost use Rattle.machine.specs.Run.{State, after, is_running};
ghost use Rattle.units.specs.declared.switches.Switches.{Switches};
ghost use Rattle.office.specs.Whole.{RunsThrough};

use machine::runs_add;

/// The law of halts: a machine at a halt or check stays as it is. Hence two runs of one machine
/// that both end at a halt or check end equal, and a run that has not ended yet, continued for the
/// remaining steps, ends like the whole run.
pub fn stopped_machines_stay()
    ensures stays { (m : State) (count : ℕ) → is_running m.standing ≡ false → after m count ≡ m }
    ensures one_end { (m : State) (first second : ℕ) →
        is_running (after m first).standing ≡ false →
        is_running (after m second).standing ≡ false →
        after m first ≡ after m second }
    ensures passes { (m : State) (first whole : ℕ) →
        is_running (after m first).standing ≡ true → is_running (after m whole).standing ≡ false →
        (first ≤ whole) × (after (after m first) (whole - first) ≡ after m whole) }
{
    runs_add();
}

/// The law of whole runs: whole runs of one machine with the same starts end equal.
pub fn whole_runs_end_alike()
    ensures { (m : State) (starts : List Switches) (first second : State) →
        RunsThrough m starts first → RunsThrough m starts second → first ≡ second }
{
    stopped_machines_stay();
}
