//! The law of refusals of commands on jobs.

ghost use Rattle.std.specs.{
  Prelude.{◌≡◌, ◌↔◌, ℕ, String, string_bytes},
  declared.alloc.Global.{Global},
};
ghost use Rattle.office.specs.{
  Jobs.{Job},
  Kept.{kept_of, take_kept},
  Office.{Office, take},
  declared.commands.Command.{Command},
  declared.commands.JobCommand.{JobCommand},
  declared.refusals.Refusal.{Refusal},
  declared.replies.Reply.{Reply},
};
ghost use Rattle.bureau_laws.specs.Refusals.{HoldsIn, HoldsNone, IsFirst, IsLetThrough, IsRefusedWhere, tested_for};

/// The law of refusals of commands on jobs: a command on a job is refused for each reason exactly
/// where the job is as the reason says, and not refused exactly where it can be carried out. In an
/// office it is refused for the first of its reasons, in their order, that holds of the command's
/// name, of its limit or pocket or of the job, and not refused exactly where none holds.
pub fn refusals_have_reasons()
    ensures refused { (c : JobCommand) (job : Job) (reason : Refusal) →
        ((take_kept c (kept_of job)).1 ≡ Reply.Refused reason) ↔ IsRefusedWhere reason c job }
    ensures let_through { (c : JobCommand) (job : Job) → ((reason : Refusal) →
        ¬ ((take_kept c (kept_of job)).1 ≡ Reply.Refused reason)) ↔ IsLetThrough c job }
    ensures first { (customer : String Global) (number : ℕ) (c : JobCommand) (office : Office)
        (reason : Refusal) →
        ((take (Command.Job customer number c) office).1 ≡ Reply.Refused reason)
        ↔ IsFirst (HoldsIn (string_bytes customer) number office c) (tested_for c) reason }
    ensures none { (customer : String Global) (number : ℕ) (c : JobCommand) (office : Office) →
        ((reason : Refusal) →
        ¬ ((take (Command.Job customer number c) office).1 ≡ Reply.Refused reason))
        ↔ HoldsNone (HoldsIn (string_bytes customer) number office c) (tested_for c) }
{}
