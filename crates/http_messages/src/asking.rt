//! How a target is read.

ghost use Rattle.std.specs.Prelude.{◌≡◌, Some, IfSome, IfNone};
ghost use Rattle.http_messages.specs.{Parts.{part}, Paths.{route_at}};
ghost use Rattle.http_messages.specs.declared.routes.Route.TheVariants as route;
ghost use Rattle.office.specs.declared.commands.JobCommand.{JobCommand};
ghost use Rattle.texts.specs.Numbers.{IsNumberOf};
ghost use Rattle.http_messages.specs.{
  Targets.{Asks, IsCommandBy, IsJobOf, stacker_of},
  declared.targets.Target.{Target},
};

use crate::parts::part;
use crate::routes::{Route, Verb};
use crate::targets::Target;
use office::{JobCommand, Kind, Stacker};
use texts::{JobName, number_or_zero, switches_of};
use units::Pocket;

/// The number in a part of a target, or 0 if its text is not one.
fn number_at(text: &str, place: usize) -> u32
    ensures { IsNumberOf (part place text.now) result }
{
    number_or_zero(part(text, place))
}

/// The job that a target names.
fn job_at<'a>(text: &'a str) -> JobName<'a>
    ensures { IsJobOf text.now result }
{
    JobName {
        customer: part(text, 2),
        number: number_at(text, 4),
    }
}

/// The submission of a job of this kind that a target asks for; none if its switches cannot be read.
fn submission<'a>(kind: Kind, text: &'a str) -> Option<Target<'a>>
    ensures some { IfSome result (λ asked. route_at text.now ≡ Some (route.Submit kind)
        → Asks text.now asked) }
    ensures none { IfNone result (route_at text.now ≡ Some (route.Submit kind)
        → (asked : Target) → ¬ Asks text.now asked) }
{
    match switches_of(part(text, 7)) {
        Some(switches) => Some(Target::Submission {
            job: job_at(text),
            kind,
            size: number_at(text, 6),
            switches,
        }),
        None => None,
    }
}

/// The cards that the text of a pocket asks for.
#[tactic(auto, unfolding(crate::specs::Targets::stacker_of))]
fn stacker_of(text: &str) -> Stacker
    ensures { result ≡ stacker_of text.now }
{
    match text {
        "0" => Stacker::Of(Pocket::Normal),
        "4" => Stacker::Of(Pocket::Four),
        "8" => Stacker::Of(Pocket::Eight),
        _ => Stacker::Unknown,
    }
}

impl Verb {
    /// The command of this verb with the value in a text; none if its switches cannot be read.
    fn command(self, text: &str) -> Option<JobCommand>
        ensures some { IfSome result (IsCommandBy self text.now) }
        ensures none { IfNone result ((command : JobCommand)
            → ¬ IsCommandBy self text.now command) }
    {
        match self {
            Verb::Slice => Some(JobCommand::Slice {
                limit: number_or_zero(text),
            }),
            Verb::Start => match switches_of(text) {
                Some(switches) => Some(JobCommand::Start { switches }),
                None => None,
            },
            Verb::Hold => Some(JobCommand::Hold),
            Verb::Release => Some(JobCommand::Release),
            Verb::Collect => Some(JobCommand::Collect),
            Verb::Standing => Some(JobCommand::Standing),
            Verb::Cards => Some(JobCommand::Cards { from: Stacker::All }),
            Verb::Pocket => Some(JobCommand::Cards {
                from: stacker_of(text),
            }),
            Verb::Lines => Some(JobCommand::Lines),
        }
    }
}

/// The command on a job that a target asks for; none if its switches cannot be read.
fn on_job<'a>(verb: Verb, text: &'a str) -> Option<Target<'a>>
    ensures some { IfSome result (λ asked. route_at text.now ≡ Some (route.Job verb)
        → Asks text.now asked) }
    ensures none { IfNone result (route_at text.now ≡ Some (route.Job verb)
        → (asked : Target) → ¬ Asks text.now asked) }
{
    match verb.command(part(text, 6)) {
        Some(command) => Some(Target::Job {
            job: job_at(text),
            command,
        }),
        None => None,
    }
}

/// What a target with this route asks for; none if its switches cannot be read.
pub(crate) fn asked_at<'a>(route: Route, text: &'a str) -> Option<Target<'a>>
    ensures some { IfSome result (λ asked. route_at text.now ≡ Some route
        → Asks text.now asked) }
    ensures none { IfNone result (route_at text.now ≡ Some route
        → (asked : Target) → ¬ Asks text.now asked) }
{
    match route {
        Route::Submit(kind) => submission(kind, text),
        Route::Job(verb) => on_job(verb, text),
        Route::Jobs => Some(Target::Jobs(part(text, 2))),
        Route::Queue => Some(Target::Queue),
    }
}
