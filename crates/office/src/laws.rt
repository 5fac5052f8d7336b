//! The laws of jobs.

ghost use Rattle.std.specs.{
  Prelude.{Bool, ◌≡◌, ◌<◌, ℕ, List, [], length, Ok},
  List.{AllByRecursion},
};
ghost use Rattle.cards.specs.Decks.{IsDeck};
ghost use Rattle.machine.specs.Run.{after, started};
ghost use Rattle.units.specs.declared.switches.Switches.{Switches};
ghost use Rattle.office.specs.{
  Jobs.{Job, loaded_deck, picture, HaltsBetween, IsAtHalt, sliced_job, started_job, one_more, HasRunFromItsDeck, HasRunFromItsSource, CanRunItsSource, RunsWhole, IsJob},
  Kept.{kept_of, take_kept, job_after, IsJobInRange},
  New.{job_or_refusal},
  declared.commands.Contents.{Contents},
  declared.commands.JobCommand.{JobCommand},
};

use crate::beginnings::programs_run_from_their_start;
use crate::halts::whole_runs_end_alike;
use autocoder::faultless_sources_can_be_loaded;
use machine::{runs_add, stays_in_range};

/// The law of grants: however the grants are split, a job at a halt has made the cards and lines of
/// the whole run from the load button, and no others.
pub fn grants_are_whole_runs()
    ensures { (job : Job) → HaltsBetween job → IsAtHalt job → HasRunFromItsDeck job }
{
    whole_runs_end_alike();
}

/// The law of stretches: in a new job, and after every grant, change of a flag and start at a halt,
/// each stretch but the last ends at a halt.
pub fn halts_stay_between()
    ensures new { (job : Job) (switches : Switches) →
        HaltsBetween (record job { stretches = one_more switches [] }) }
    ensures sliced { (job : Job) (limit : ℕ) → HaltsBetween job →
        HaltsBetween (sliced_job limit job) }
    ensures flagged { (job : Job) (held collected : Bool) → HaltsBetween job →
        HaltsBetween (record job { held = held; collected = collected }) }
    ensures started { (job : Job) (switches : Switches) → HaltsBetween job → IsAtHalt job →
        HaltsBetween (started_job switches job) }
{}

/// The law of pictures: a job that is granted more, or started, continues from the picture of its
/// machine.
pub fn pictures_go_on()
    ensures sliced { (job : Job) (limit : ℕ) → 0 < length job.stretches →
        picture (sliced_job limit job) ≡ after (picture job) limit }
    ensures started { (job : Job) (switches : Switches) →
        picture (started_job switches job) ≡ started (picture job) switches }
{
    runs_add();
}

/// The law of sources: an Autocoder job at a halt has made the cards and lines of the whole run
/// from the start of its source's program, and no others.
pub fn sources_run_as_programs()
    ensures { (job : Job) → CanRunItsSource job → HaltsBetween job → IsAtHalt job →
        HasRunFromItsSource job }
{
    grants_are_whole_runs();
    programs_run_from_their_start();
    faultless_sources_can_be_loaded();
}

/// The laws of grants and of sources, for all jobs of an office at once.
pub fn offices_run_whole()
    ensures { (jobs : List Job) → AllByRecursion HaltsBetween jobs →
        AllByRecursion RunsWhole jobs }
{
    grants_are_whole_runs();
    sources_run_as_programs();
}

/// The law of commands: the effect of a command on a job with its machine is its effect on the
/// job's stretches and flags alone, with the machine that these determine.
pub fn commands_act_on_pictures()
    ensures { (command : JobCommand) (job : Job) → 0 < length job.stretches →
        (take_kept command (kept_of job)).0 ≡ kept_of (job_after command job) }
{
    pictures_go_on();
}

/// The law of jobs: what is handed in and not refused is a job, each command keeps it a job, and
/// every job can be kept in the tables.
pub fn commands_keep_jobs()
    ensures new { (contents : Contents) (job : Job) → job_or_refusal contents ≡ Ok job →
        IsDeck contents.deck → IsDeck (loaded_deck job) → IsJob job }
    ensures kept { (command : JobCommand) (job : Job) → IsJob job → IsJob (job_after command job) }
    ensures in_range { (job : Job) → IsJob job → IsJobInRange (kept_of job) }
{
    stays_in_range();
}

/// The law of grants requires that each stretch but the last ends at a halt.
pub fn halts_are_needed()
    ensures { ((job : Job) → IsAtHalt job → HasRunFromItsDeck job) → ⊥ }
{}
