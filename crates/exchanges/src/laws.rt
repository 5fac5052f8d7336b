//! The law of printed lines.

ghost use Rattle.office.specs.Jobs.{Job, IsJob, lines_by};
ghost use Rattle.units.specs.Listing.{IsRising};

use office::commands_keep_jobs;
use units::lines_in_range_rise;

/// The law of printed lines: those of a job rise by form and line.
pub(crate) fn lines_rise()
    ensures { (job : Job) → IsJob job → IsRising (lines_by job) }
{
    commands_keep_jobs();
    lines_in_range_rise();
}
