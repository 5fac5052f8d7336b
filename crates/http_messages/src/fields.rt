//! The header fields of a head by their names.

ghost use Rattle.std.specs.{
  Prelude.{◌≡◌, ◌≤◌, true, All, codes, length, map},
  Char.{is_ascii_digit},
  List.{list_all},
  Str.Parse.{digits_value},
};
ghost use Rattle.httparse.specs.Spans.{IsHeaderWithin, header_bytes};
ghost use Rattle.http_messages.specs.Fields.{body_length, bytes_or_bad, has_name, length_in, length_of_more, values_of};

use crate::lengths::BodyLength;
use httparse::spans::HeaderSpan;

/// Whether a field has this name, regardless of case.
#[tactic(auto, unfolding(crate::specs::Fields::has_name))]
fn is_named(bytes: &[u8], field: &HeaderSpan, name: &[u8]) -> bool
    requires { IsHeaderWithin (length bytes.now) field.now }
    ensures { result ≡ has_name name.now (header_bytes bytes.now field.now) }
{
    field.name.of(bytes).eq_ignore_ascii_case(name)
}

/// The number of fields with this name.
pub(crate) fn count_named(bytes: &[u8], fields: &[HeaderSpan], name: &[u8]) -> usize
    requires { All (IsHeaderWithin (length bytes.now)) fields.now }
    ensures { result ≡ length (values_of name.now (map (header_bytes bytes.now) fields.now)) }
{
    let mut count = 0usize;
    for field in fields {
        if is_named(bytes, field, name) {
            count += 1;
        }
    }
    count
}

/// Whether all bytes are digits.
fn are_digits(text: &[u8]) -> bool
    ensures { result ≡ list_all is_ascii_digit text.now }
{
    text.iter().all(|digit| digit.is_ascii_digit())
}

/// The number that at most 7 digits spell.
fn value_of(digits: &[u8]) -> u32
    requires digits { list_all is_ascii_digit digits.now ≡ true }
    requires short { length digits.now ≤ 7 }
    ensures { result ≡ digits_value 10 digits.now }
{
    let mut number = 0u32;
    for &digit in digits {
        number = number * 10 + u32::from(digit - b'0');
    }
    number
}

/// The number that 1 to 7 digits spell.
#[tactic(auto, unfolding(crate::specs::Fields::length_in))]
fn length_in(text: &[u8]) -> Option<u32>
    ensures { result ≡ length_in text.now }
{
    if text.is_empty() || text.len() > 7 || !are_digits(text) {
        return None;
    }
    Some(value_of(text))
}

/// The length given by a first value of Content-Length.
fn length_of(value: &[u8]) -> BodyLength
    ensures { result ≡ bytes_or_bad (length_in value.now) }
{
    match length_in(value) {
        Some(count) => BodyLength::Bytes(count),
        None => BodyLength::Bad,
    }
}

/// The length given by one more value of Content-Length, after the earlier values.
fn length_of_more(length: BodyLength, value: &[u8]) -> BodyLength
    ensures { result ≡ length_of_more length value.now }
{
    match length {
        BodyLength::Unsaid => length_of(value),
        BodyLength::Bytes(_) | BodyLength::Bad => BodyLength::Bad,
    }
}

/// The length of the body that the fields give.
pub(crate) fn body_length(bytes: &[u8], fields: &[HeaderSpan]) -> BodyLength
    requires { All (IsHeaderWithin (length bytes.now)) fields.now }
    ensures { result ≡ body_length (map (header_bytes bytes.now) fields.now) }
{
    let mut length = BodyLength::Unsaid;
    for field in fields {
        if is_named(bytes, field, b"Content-Length") {
            length = length_of_more(length, field.value.of(bytes));
        }
    }
    length
}
