//! The law of what is asked.

ghost use Rattle.std.specs.Prelude.{◌≡◌, ℕ, List};
ghost use Rattle.http_messages.specs.Targets.{Asks};
ghost use Rattle.http_messages.specs.Judging.{AsksFor};
ghost use Rattle.http_messages.specs.declared.targets.Target.{Target};
ghost use Rattle.bureau_laws.specs.Same.{IsSameTarget};

/// The law of what is asked: a target asks for at most one thing. The same holds for bytes, and
/// they give one length and one beginning of the body.
pub fn one_asking()
    ensures of_target { (target : List ℕ) (one other : Target) →
        Asks target one → Asks target other → IsSameTarget one other }
    ensures of_bytes { (input : List ℕ) (one other : Target) (count size : ℕ)
        (after rest : List ℕ) → AsksFor input one count after → AsksFor input other size rest →
        IsSameTarget one other × (count ≡ size) × (after ≡ rest) }
{}
