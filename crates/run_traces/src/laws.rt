//! The laws of what is shown of a run.

ghost use Rattle.std.specs.Prelude.{◌≡◌, ◌*◌, ◌<◌, ◌≤◌, ℕ, All, List, Option, None, length};
ghost use Rattle.run_traces.specs.{Reading.{storage_read}, Rows.{row_length, rows_shown}};
ghost use Rattle.core_store.specs.Storage.{Storage, largest_size};
ghost use Rattle.machine.specs.{Ranges.{IsInRange}, Run.{State, after, attempts}};
ghost use Rattle.run_traces.specs.Ends.{IsEnd, end_of};
ghost use Rattle.autocoder_layout.specs.declared.slots.Slot.{Slot};
ghost use Rattle.run_traces.specs.{Names.{Nearest, nearest}, Profiles.{began_at, sum_below}};

/// The law of the end: a run ends after its last attempt, or at the first stop that it comes to;
/// and there is no other number of attempts after which it ends.
#[tactic(auto, using(crate::proofs::EndLaw::end_is, crate::proofs::EndLaw::one_end))]
pub fn runs_end_at_the_first_stop()
    ensures end { (m : State) (limit : ℕ) (stop : Option ℕ) →
        IsEnd m limit stop (end_of m limit stop) }
    ensures only { (m : State) (limit n : ℕ) (stop : Option ℕ) → IsEnd m limit stop n →
        n ≡ end_of m limit stop }
{}

/// The law of runs without a stop: they end after all attempts, and the machine is then the one
/// after the whole run.
#[tactic(auto, using(crate::proofs::EndLemmas::whole_end, crate::proofs::EndLemmas::whole_run))]
pub fn runs_without_stop_are_whole()
    ensures attempts { (m : State) (limit : ℕ) →
        end_of m limit None ≡ attempts m limit }
    ensures machine { (m : State) (limit : ℕ) →
        after m (end_of m limit None) ≡ after m limit }
{}

/// The law of the profile: each attempt of a machine in range is counted at one address, so the
/// counts at all addresses add up to the number of attempts.
#[tactic(auto, using(crate::proofs::CountLemmas::adds_up))]
pub fn counts_add_up()
    ensures { (m : State) (attempts addresses : ℕ) → IsInRange m → largest_size ≤ addresses →
        sum_below (began_at m attempts) addresses ≡ attempts }
{}

/// The law of the dump: a storage of whole rows is what is read of its rows as they are shown, each
/// position with its character and its word mark.
pub fn dump_is_read()
    ensures { (s : Storage) (rows : ℕ) → length s ≡ row_length * rows → length s ≤ largest_size →
        All (λ cell. cell.0 < 64) s → storage_read rows 0 (rows_shown s 0 rows) ≡ s }
{}

/// The law of the names: the definition by which an address is shown is at the greatest address
/// that is not above it, of all that cards define; there is none only if all are above it.
#[tactic(auto, using(crate::proofs::NearestLaw::nearest_is))]
pub fn names_are_the_nearest()
    ensures { (address : ℕ) (slots : List Slot) →
        Nearest address slots (nearest address slots) }
{}
