//! The report of a machine as a line.

ghost use Rattle.std.specs.Prelude.{◌≡◌, ◌++◌, OnOk};
ghost use Rattle.run_traces.specs.Reports.{report_line};

use cards::LINE_FEED;
use core_store::Core;
use machine::{Parts, Report};
use std::alloc::{AllocError, Global};

/// Adds the report of a machine as a line.
#[tactic(auto, unfolding(crate::specs::Reports::report_line))]
pub(crate) fn push_report<C: Core>(
    alloc: Global,
    text: &mut Vec<u8>,
    parts: &Parts<C>,
) -> Result<(), AllocError>
    ensures { OnOk result (text.new.items ≡ text.old.items ++ report_line parts.now) }
{
    let report = Report::of(parts);
    let words = report.to_string(alloc)?;
    text.extend_from_slice(words.as_bytes())?;
    text.push(LINE_FEED)?;
    Ok(())
}
