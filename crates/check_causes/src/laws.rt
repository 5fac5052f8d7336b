//! The laws of the causes.

ghost use Rattle.std.specs.Prelude.{◌≡◌, ◌↔◌, Some, None, Err, IsOk};
ghost use Rattle.machine.specs.Effect.{Works, attempt};
ghost use Rattle.check_causes.specs.{
  declared.causes.Cause.{Cause},
  Words.{check_of},
  Causes.{cause},
  Sentences.{IsSo},
};

/// The law of checks: a cause is told exactly where a check stops the instruction at register I,
/// and it is a cause of that check.
pub fn causes_are_of_checks()
    ensures told { (w : Works) (c : Cause) → cause w ≡ Some c → attempt w ≡ Err (check_of c) }
    ensures none { (w : Works) → (cause w ≡ None) ↔ IsOk (attempt w) }
{}

/// The law of sentences: what a cause says in words is so.
pub fn causes_are_so()
    ensures { (w : Works) (c : Cause) → cause w ≡ Some c → IsSo c w }
{}
