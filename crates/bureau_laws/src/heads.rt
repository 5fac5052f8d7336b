//! The laws of heads.

ghost use Rattle.std.specs.Prelude.{◌≡◌, ◌⊎◌, ◌↔◌, ℕ, List};
ghost use Rattle.httparse.specs.Grammar.{ReadsRequest, RequestHead};
ghost use Rattle.http_messages.specs.{
  Judging.{AsksFor, BeginsWith, Refuses},
  declared.targets.Target.{Target},
};
ghost use Rattle.bureau_laws.specs.{
  Same.{IsSameStatus},
  Statuses.{EndsInBadTarget, HasFurtherFault},
};

/// The law of heads: bytes begin with at most one head, and the bytes after it are determined.
pub fn one_head()
    ensures { (input : List ℕ) (h k : RequestHead) (one : BeginsWith input h)
        (other : BeginsWith input k) → (h ≡ k) × (one.rest ≡ other.rest) }
{}

/// The law of refusals: bytes that ask for something are not refused. Bytes that begin with a head,
/// which may be too large, are refused with at most one status. Others are refused with 400 or 431,
/// and with both exactly where they have too many header fields and a further fault, or where as
/// many bytes as a head may have end in a target and begin no head; hence not all bytes have one
/// status.
pub fn one_refusal()
    ensures not_both { (input : List ℕ) (status : ℕ) (asked : Target) (count : ℕ)
        (after : List ℕ) → AsksFor input asked count after → Refuses input status → ⊥ }
    ensures of_head { (input : List ℕ) (h : RequestHead) (rest : List ℕ) (one other : ℕ) →
        ReadsRequest input h rest → Refuses input one → Refuses input other → one ≡ other }
    ensures of_any { (input : List ℕ) (one other : ℕ) →
        Refuses input one → Refuses input other → IsSameStatus one other }
    ensures both { (input : List ℕ) → (Refuses input 400 × Refuses input 431)
        ↔ (HasFurtherFault input ⊎ EndsInBadTarget input) }
    ensures not_one { ((input : List ℕ) (one other : ℕ) →
        Refuses input one → Refuses input other → one ≡ other) → ⊥ }
{}
