//! The laws of sessions.

ghost use Rattle.std.specs.Prelude.{◌≡◌, ◌+◌, ◌≤◌, ℕ, List, [], Option, false};
ghost use Rattle.machine.specs.Run.{State, after, attempts};
ghost use Rattle.run_traces.specs.Names.{Named};
ghost use Rattle.console.specs.{
  Answers.{Rising, going, next, with_stop, without_stop},
  Goes.{IsWent, went},
  Commands.{is_start},
  SessionStates.{HasCome, SessionState, begun, most_made},
  Talks.{Talked},
  declared.commands.Action.TheVariants.{Back, Go, Step},
  declared.commands.Command.{Command},
  declared.commands.Command.TheVariants.{Do},
};

/// The law of sessions: whatever lines a session is given, its machine is that of its past, which
/// begins with the machine that the load button left. Without a start it is that machine after as
/// many steps as the session has made, so what is shown is a run of the deck; and no line but
/// `start` is a start.
pub fn sessions_are_runs()
    ensures begins { (base : State) (names : Option Named) → HasCome (begun base names) }
    ensures goes_on { (s : SessionState) (command : Command) → HasCome s → HasCome (next s command) }
    ensures talks { (s now : SessionState) (from left : Option (List ℕ)) (lines : List (List ℕ))
        (text : List ℕ) → Talked s from lines now left text → HasCome s → HasCome now }
    ensures begins_there { (s : SessionState) (command : Command) → (next s command).base ≡ s.base }
    ensures run { (s : SessionState) → HasCome s → s.starts ≡ [] → s.machine ≡ after s.base s.made }
    ensures without_start { (s : SessionState) (command : Command) → is_start command ≡ false →
        s.starts ≡ [] → (next s command).starts ≡ [] }
{}

/// The law of going back: it undoes steps. A session that has made all the instructions that were
/// asked for is, so many instructions back, what it was before; and so is one that went on, as many
/// instructions back as it went.
#[tactic(auto, using(crate::proofs::SessionLaw::undoes, crate::proofs::SessionLaw::undoes_going))]
pub fn back_undoes_steps()
    ensures steps { (s : SessionState) (count : ℕ) → HasCome s → s.made + count ≤ most_made →
        attempts s.machine count ≡ count → next (next s (Do (Step count))) (Do (Back count)) ≡ s }
    ensures going { (s : SessionState) (count : ℕ) → HasCome s →
        next (next s (Do (Go count))) (Do (Back (going s count))) ≡ s }
{}

/// The law of going on: a machine stands after all instructions, or where it no longer runs, or
/// after the first one that changes the watched position or leads to a stop; and it stands nowhere
/// else.
#[tactic(auto, using(crate::proofs::GoLaw::went_is, crate::proofs::GoLaw::one_went))]
pub fn go_ends_at_the_first_stop()
    ensures end { (stops : List ℕ) (watched : Option ℕ) (m : State) (limit : ℕ) →
        IsWent stops watched m limit (went stops watched m limit) }
    ensures only { (stops : List ℕ) (watched : Option ℕ) (m : State) (limit n : ℕ) →
        IsWent stops watched m limit n → n ≡ went stops watched m limit }
{}

/// The law of stops: with one more they rise without doubles if they did before, and without one
/// too.
pub fn stops_rise()
    ensures more { (stop : ℕ) (stops : List ℕ) → Rising stops → Rising (with_stop stop stops) }
    ensures less { (stop : ℕ) (stops : List ℕ) → Rising stops → Rising (without_stop stop stops) }
{}
