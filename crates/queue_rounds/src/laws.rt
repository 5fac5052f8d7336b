//! The laws of rounds, of the changes of a queue, and of standings.

ghost use Rattle.std.specs.{
  Prelude.{◌≡◌, ◌+◌, ◌≤◌, ◌&&◌, ◌||◌, ℕ, Bool, List, Option, Some, true, false, not},
  List.{list_all},
};
ghost use Rattle.machine.specs.{
  Standings.{standing_words},
  declared.standings.StandingAt.{StandingAt},
};
ghost use Rattle.queue_rounds.specs.{
  Names.{Name, is_among, missing},
  Rounds.{start},
  Runs.{after_all, all_go_on, begun_by, count, listed_by, none_ran, paused_by, sliced_by, total},
  StandingTexts.{IsInStorage, is_standing},
  declared.jobs.JobName.{JobName},
  declared.replies.Outcome.{Outcome},
};

/// The law of rounds: a job has had one slice for each round that listed it, but for the last round
/// if it still waits there. So each job of a round that is over has had exactly one slice of it,
/// and none that was sent is sent again in its round, however it was answered.
#[tactic(auto, using(crate::proofs::TurnLemmas::once))]
pub fn each_job_of_a_round_has_one_slice()
    ensures { (most : Option ℕ) (keeps : Bool) (is : JobName → Bool) (answers : List Outcome) →
        total (sliced_by is) (start most keeps) answers
        + count is (after_all (start most keeps) answers).waiting
        ≡ total (listed_by is) (start most keeps) answers }
{}

/// The law of fair turns: of two jobs that were listed equally often, and of which none waits
/// twice, none has had more than one slice more than the other.
#[tactic(auto, using(crate::proofs::TurnLemmas::fair))]
pub fn turns_are_fair()
    ensures { (most : Option ℕ) (keeps : Bool) (is other : JobName → Bool)
        (answers : List Outcome) →
        total (listed_by is) (start most keeps) answers
        ≡ total (listed_by other) (start most keeps) answers →
        count other (after_all (start most keeps) answers).waiting ≤ 1 →
        total (sliced_by is) (start most keeps) answers
        ≤ total (sliced_by other) (start most keeps) answers + 1 }
{}

/// The law of the end: of answers in a row in which no slice ran, at most ten rounds are begun
/// before the end, whatever was answered earlier, unless the work is kept up; and a pause stands
/// between two of them, also where it is.
#[tactic(auto, using(crate::proofs::EndLemmas::ten_rounds, crate::proofs::EndLemmas::with_pauses))]
pub fn work_in_which_no_slice_runs_ends()
    ensures end { (most : Option ℕ) (earlier later : List Outcome) →
        all_go_on (start most false) earlier ≡ true →
        all_go_on (after_all (start most false) earlier) later ≡ true →
        list_all none_ran later ≡ true →
        total begun_by (after_all (start most false) earlier) later ≤ 10 }
    ensures pauses { (most : Option ℕ) (keeps : Bool) (earlier later : List Outcome) →
        all_go_on (after_all (start most keeps) earlier) later ≡ true →
        list_all none_ran later ≡ true →
        total begun_by (after_all (start most keeps) earlier) later
        ≤ total paused_by (after_all (start most keeps) earlier) later + 1 }
{}

/// The law of the limit: of so many rounds that are asked for, one or more, none is begun beyond.
#[tactic(auto, using(crate::proofs::LimitLemmas::as_asked))]
pub fn no_more_rounds_than_asked_for()
    ensures { (most : ℕ) (keeps : Bool) (answers : List Outcome) → 1 ≤ most →
        all_go_on (start (Some most) keeps) answers ≡ true →
        total begun_by (start (Some most) keeps) answers ≤ most }
{}

/// The law of changes: what was in a queue, without those that left and with those that came, has
/// the same jobs as what is in it now.
#[tactic(auto, using(crate::proofs::ChangeLemmas::leads))]
pub fn changes_lead_to_the_next_queue()
    ensures { (before now : List Name) (name : Name) →
        is_among now name
        ≡ ((is_among before name && not (is_among (missing before now) name))
        || is_among (missing now before) name) }
{}

/// The law of standings: a text is taken for a standing just if it is what is printed of one, whose
/// address, if it has one, is in the largest storage.
#[tactic(auto, using(crate::proofs::StandingLemmas::taken, crate::proofs::StandingLemmas::others))]
pub fn standings_are_those_printed()
    ensures taken { (s : StandingAt) → IsInStorage s → is_standing (standing_words s) ≡ true }
    ensures no_other { (text : List ℕ) → is_standing text ≡ true →
        (s : StandingAt) × IsInStorage s × (text ≡ standing_words s) }
{}
