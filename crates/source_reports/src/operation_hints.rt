//! Of an operation that is none: what is known of it.

ghost use Rattle.std.specs.Prelude.{◌≡◌, ◌++◌, length, OnOk};
ghost use Rattle.source_reports.specs.{
  LeftOut.{advice},
  OperationHints.{question_text, near_hint, known_hint, blank_hint, operation_hint},
  OperationNames.{near_operation},
};

use crate::field_hints::{looks_like_comment, push_comment};
use crate::left_out::advice;
use crate::operation_names::{LONGEST, near_operation, push_operation_name};
use crate::pieces::push_text;
use crate::source_columns::are_columns_off;
use autocoder_statements::{Class, operation_field};
use bcd::Code;
use cards::Card;
use std::alloc::AllocError;

/// Adds the question whether a name is meant.
fn push_question(text: &mut Vec<u8>, name: &[u8; LONGEST]) -> Result<(), AllocError>
    ensures { OnOk result (text.new.items ≡ text.old.items ++ question_text name.now) }
{
    push_text(text, "; did you mean ")?;
    push_operation_name(text, name)?;
    push_text(text, "?")?;
    Ok(())
}

/// Adds the name that an operation field nearly is, or else where all names are.
fn push_near(text: &mut Vec<u8>, field: &[Code]) -> Result<(), AllocError>
    requires { length field.now ≡ 5 }
    ensures { OnOk result (text.new.items
        ≡ text.old.items ++ near_hint (near_operation field.now)) }
{
    let Some(name) = near_operation(field) else {
        return push_text(text, "; docs/AUTOCODER.md lists them");
    };
    push_question(text, &name)
}

/// Adds what to write for an operation, or else a name that is nearly the same.
fn push_known(text: &mut Vec<u8>, field: &[Code]) -> Result<(), AllocError>
    requires { length field.now ≡ 5 }
    ensures { OnOk result (text.new.items
        ≡ text.old.items ++ known_hint field.now (advice field.now)) }
{
    match advice(field) {
        None => push_near(text, field),
        Some(written) => push_text(text, written),
    }
}

/// Where operations stand, unless that is told of the whole source.
fn blank_hint(is_told: bool) -> &'static str
    ensures { result.now ≡ blank_hint is_told }
{
    if is_told {
        ""
    } else {
        "; an operation stands in column 16, and a comment has * in column 6"
    }
}

/// Adds what is known of an operation that is none.
#[tactic(auto, unfolding(crate::specs::OperationHints::operation_hint))]
pub(crate) fn push_operation_hint(
    text: &mut Vec<u8>,
    source: &[Card],
    card: &Card,
) -> Result<(), AllocError>
    ensures { OnOk result (text.new.items
        ≡ text.old.items ++ operation_hint source.now card.now) }
{
    if looks_like_comment(card) {
        return push_comment(text);
    }
    let field = operation_field(card);
    if Class::Filled.run(field) == 0 {
        return push_text(text, blank_hint(are_columns_off(source)));
    }
    push_known(text, field)
}
