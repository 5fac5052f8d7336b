//! Laws of machines whose earlier cards and lines are kept elsewhere.

ghost use Rattle.std.specs.Prelude.{◌≡◌, ◌++◌, ℕ, List};
ghost use Rattle.units.specs.{
  Units.{nothing_made, Makes},
  declared.printer.Line.{Line},
  declared.punch.Punched.{Punched},
  declared.switches.Switches.{Switches},
};
ghost use Rattle.machine.specs.{
  Earlier.{with_earlier, without_outputs, IsBehind},
  Ranges.{IsInRange},
  Reports.{report_of},
  Run.{State, after, attempts, executed, lines_of, started},
  Standings.{standing_of},
};

/// The law of earlier cards and lines: a machine whose earlier ones are kept elsewhere runs and
/// starts as the one that has them itself, and makes the same behind them.
pub fn earlier_outputs_stay_in_front()
    ensures machine { (cards : List Punched) (lines : List Line) (m : State) (count : ℕ) →
        IsBehind cards lines m →
        after (with_earlier cards lines m) count ≡ with_earlier cards lines (after m count) }
    ensures behind { (cards : List Punched) (lines : List Line) (m : State) (count : ℕ) →
        IsBehind cards lines m → IsBehind cards lines (after m count) }
    ensures attempts { (cards : List Punched) (lines : List Line) (m : State) (count : ℕ) →
        IsBehind cards lines m →
        attempts (with_earlier cards lines m) count ≡ attempts m count }
    ensures executed { (cards : List Punched) (lines : List Line) (m : State) (count : ℕ) →
        IsBehind cards lines m →
        executed (with_earlier cards lines m) count ≡ executed m count }
    ensures makes { (cards : List Punched) (lines : List Line) (m next : State) →
        Makes m.works.units next.works.units →
        Makes (with_earlier cards lines m).works.units
        (with_earlier cards lines next).works.units }
    ensures started { (cards : List Punched) (lines : List Line) (m : State) (switches : Switches) →
        started (with_earlier cards lines m) switches
        ≡ with_earlier cards lines (started m switches) }
    ensures standing { (cards : List Punched) (lines : List Line) (m : State) →
        standing_of (with_earlier cards lines m) ≡ standing_of m }
{}

/// The law of machines without their cards and lines: such a machine is in range, and these were
/// made before its own; with these in front again it is the machine that it was.
pub fn outputs_are_put_back()
    ensures same { (m : State) → m.works.units.before ≡ nothing_made →
        with_earlier m.works.units.punch.cards (lines_of m) (without_outputs m) ≡ m }
    ensures behind { (m : State) → m.works.units.before ≡ nothing_made →
        IsBehind m.works.units.punch.cards (lines_of m) (without_outputs m) }
    ensures in_range { (m : State) → IsInRange m → IsInRange (without_outputs m) }
{}

/// The law of setting aside: a machine without its own cards and lines, with these behind the
/// earlier ones, is the machine that it was with the earlier ones alone; these were made before its
/// own. Earlier cards and lines count in its report wherever they are.
pub fn outputs_are_set_aside()
    ensures same { (cards : List Punched) (lines : List Line) (m : State) →
        with_earlier (cards ++ m.works.units.punch.cards) (lines ++ lines_of m) (without_outputs m)
        ≡ with_earlier cards lines m }
    ensures behind { (cards : List Punched) (lines : List Line) (m : State) →
        IsBehind cards lines m →
        IsBehind (cards ++ m.works.units.punch.cards) (lines ++ lines_of m) (without_outputs m) }
    ensures report { (cards : List Punched) (lines : List Line) (m : State) →
        IsBehind cards lines m → report_of (with_earlier cards lines m) ≡ report_of m }
{}
