//! The law of replies.

ghost use Rattle.std.specs.Prelude.{◌≡◌, ◌<◌, ◌^◌, ℕ, All, List, Option, Some, map};
ghost use Rattle.http_messages.specs.ReplyBodies.{body_of};
ghost use Rattle.http_messages.specs.Fixed.{fault_bytes, fault_status, refusing_status};
ghost use Rattle.http_messages.specs.Replies.{refused_bytes, reply_bytes, status_of};
ghost use Rattle.http_messages.specs.declared.fixed.Fault.{Fault};
ghost use Rattle.machine.specs.Ranges.{IsInRange};
ghost use Rattle.machine.specs.Run.{State};
ghost use Rattle.machine.specs.Standings.{standing_of};
ghost use Rattle.machine.specs.declared.standings.StandingAt.{StandingAt};
ghost use Rattle.office.specs.{
  Numbers.{refusal_number},
  Queued.{QueuedJob},
  declared.lists.JobLine.{JobLine},
  declared.refusals.Refusal.{Refusal},
  declared.summaries.Summary.{Summary},
};
ghost use Rattle.office.specs.declared.replies.Reply as office;
ghost use Rattle.office.specs.declared.replies.Reply.TheVariants as told;
ghost use Rattle.queue_rounds.specs.{
  Answers.{Stands},
  Responses.{IsReplyIn, IsResponse},
  StandingTexts.{IsInStorage},
  declared.replies.Outcome.{Outcome},
  declared.replies.Reply.{Reply},
};
ghost use Rattle.queue_rounds.specs.declared.replies.Outcome.TheVariants as outcome;
ghost use Rattle.queue_rounds.specs.declared.replies.Passed.TheVariants as passed;
ghost use Rattle.bureau_laws.specs.Replies.{HasBody, HasCounts, HasNumber, ReadsJobs, ReadsQueue, ReadsSlice, ReadsStanding, IsAnswer, IsJob, IsListed, IsOfJob, IsRan, number_told, stands_told};

/// The law of replies: what the counter writes is read as it was meant. The bytes of each of its replies
/// are a response with the reply's status and body, and are read as no other, and never as none.
/// The operator reads of them the queue's jobs in their order; of a slice that ran, how many
/// instructions it executed and how its job stands; of one that was refused, the refusal's number;
/// of a job, its standing, flags and counts; of a customer, the numbers of his jobs in their order;
/// and of a fault of the bureau itself, that it failed.
/// A standing is read where its address, if it has one, is in the largest storage; so is that of
/// each machine in range. A request that was refused by its status alone is read as nothing that a
/// bureau says.
pub fn replies_are_read()
    ensures response { (r : office.Reply) → HasBody r →
        IsResponse (reply_bytes r) (status_of r) (body_of r) }
    ensures one { (r : office.Reply) (answer : Reply) → HasBody r →
        IsReplyIn (reply_bytes r) answer → IsAnswer (status_of r) (body_of r) answer }
    ensures queue { (jobs : List QueuedJob) (it : Outcome) → All IsJob jobs →
        HasBody (told.Queue jobs) → ReadsQueue (reply_bytes (told.Queue jobs)) it →
        IsListed jobs it }
    ensures ran { (executed : ℕ) (standing : StandingAt) (it : Outcome) → executed < 2 ^ 32 →
        IsInStorage standing → HasBody (told.Ran executed standing) →
        ReadsSlice (reply_bytes (told.Ran executed standing)) it → IsRan executed standing it }
    ensures refused { (reason : Refusal) (it : Outcome) → IsOfJob reason →
        HasBody (told.Refused reason) → ReadsSlice (reply_bytes (told.Refused reason)) it →
        it ≡ outcome.Passed (passed.Refused (refusal_number reason)) }
    ensures failed { (fault : Fault) (it : Outcome) → ReadsSlice (fault_bytes fault) it →
        it ≡ outcome.Passed (passed.Failed (fault_status fault)) }
    ensures no_queue { (fault : Fault) (it : Outcome) → ReadsQueue (fault_bytes fault) it →
        it ≡ outcome.Nothing }
    ensures foreign { (status : ℕ) (it : Outcome) →
        ReadsSlice (refused_bytes (refusing_status status)) it → it ≡ outcome.Foreign }
    ensures foreign_queue { (status : ℕ) (it : Outcome) →
        ReadsQueue (refused_bytes (refusing_status status)) it → it ≡ outcome.Foreign }
    ensures standing { (job : Summary) (it : Option Stands) → HasCounts job →
        IsInStorage job.standing → HasBody (told.Standing job) →
        ReadsStanding (reply_bytes (told.Standing job)) it → it ≡ Some (stands_told job) }
    ensures jobs { (jobs : List JobLine) (it : Option (List ℕ)) → All HasNumber jobs →
        HasBody (told.Jobs jobs) → ReadsJobs (reply_bytes (told.Jobs jobs)) it →
        it ≡ Some (map number_told jobs) }
    ensures in_storage { (m : State) → IsInRange m → IsInStorage (standing_of m) }
{}
