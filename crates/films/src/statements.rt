//! The statement of the instruction of a step.

ghost use Rattle.std.specs.Prelude.{◌≡◌, ◌++◌, option_copied, IfOk, OnOk};
ghost use Rattle.run_traces.specs.Statements.{statement_next};
ghost use Rattle.films.specs.Texts.{statement_words, words_text};

use crate::signs::push_signs_of;
use core_store::Core;
use machine::Parts;
use run_traces::{Names, push_statement_next};
use std::alloc::{AllocError, Global};

/// The statement that has the characters of the instruction that a machine attempts next, by the
/// names of a source; empty if no statement has them.
pub(crate) fn statement_next<C: Core>(
    alloc: Global,
    names: Option<&Names>,
    parts: &Parts<C>,
) -> Result<Vec<u8>, AllocError>
    ensures { IfOk result (λ text. text.items
        ≡ statement_next (option_copied names.entry) parts.now) }
{
    let mut text = Vec::new(alloc);
    push_statement_next(alloc, &mut text, names, parts)?;
    Ok(text)
}

/// Adds the word for a statement, if there is one.
pub(crate) fn push_statement(out: &mut Vec<u8>, statement: &[u8]) -> Result<(), AllocError>
    ensures { OnOk result (out.new.items
        ≡ out.old.items ++ words_text (statement_words statement.now)) }
{
    if statement.is_empty() {
        return Ok(());
    }
    out.extend_from_slice(b" d")?;
    push_signs_of(out, statement)
}
