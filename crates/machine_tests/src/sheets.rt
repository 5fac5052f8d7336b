//! Sheets of worked cases.

use core_store::{Core, FlagCore, PlaneCore};
use std::alloc::Global;
use std::test::Fail;

/// A kind of worked case: it maps an input to an output.
pub(crate) trait Case {
    /// The output for an input, in a line, with one kind of storage.
    fn outcome<C: Core>(alloc: Global, given: &str) -> Result<String, Fail>;
}

/// The outcome that a case has in two ways; both outcomes if they differ.
pub(crate) fn agreed(alloc: Global, one: String, other: String) -> Result<String, Fail> {
    if one.as_str() == other.as_str() {
        return Ok(one);
    }
    Ok(format!(in alloc; "{one} BUT {other}")?)
}

/// The outcome of a case with either kind of storage; both outcomes if they differ.
// The proof of a function that names a kind of storage takes many times as long as that of one over
// any, so only this one names both.
pub(crate) fn with_both<K: Case>(alloc: Global, given: &str) -> Result<String, Fail> {
    let flags = K::outcome::<FlagCore>(alloc, given)?;
    let planes = K::outcome::<PlaneCore>(alloc, given)?;
    agreed(alloc, flags, planes)
}

/// Fails at the first row of a sheet that has another output, with the row as it should be.
pub(crate) fn check<K: Case>(alloc: Global, sheet: &str) -> Result<(), Fail> {
    for row in sheet.lines() {
        let (given, wanted) = cut(row, " -> ");
        let outcome = with_both::<K>(alloc, given)?;
        if outcome.as_str() != wanted {
            return Err(Fail::new(format_args!("{given} -> {outcome}")));
        }
    }
    Ok(())
}

/// The text before a sign and the text after it; without the sign, the whole text and an empty one.
pub(crate) fn cut<'a>(text: &'a str, sign: &str) -> (&'a str, &'a str) {
    text.split_once(sign).unwrap_or((text, ""))
}

/// A number of a row; if it is not a number, one that is too great for every case.
pub(crate) fn number(digits: &str) -> u16 {
    digits.parse::<u16>().ok().unwrap_or(u16::MAX)
}
