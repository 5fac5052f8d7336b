//! The values of a row.

ghost use Rattle.std.specs.Prelude.{◌≡◌, ◌<◌, ◌≤◌, ◌^◌, ◌↔◌, ℕ, List, get_or, length, map, pos, IfSome, IsNone, IsUtf8};
ghost use Rattle.sqlite.specs.{Order.{column}, declared.types.Value.TheVariants.{Blob, Int, Text}};
ghost use Rattle.sqlite_value.specs.Value.{owned};

use sqlite::Row;
use sqlite::types::ValueRef;
use sqlite_value::order::is_same;

/// Returns the value in a column, and NULL past the end.
pub fn value_at(row: &Row, at: usize) -> ValueRef<'_>
    ensures { owned result ≡ column row.now at }
{
    match row.get_ref(at) {
        Ok(value) => value,
        Err(_) => ValueRef::Null,
    }
}

/// The first column in which a row differs from the one that is wanted, if there is one.
pub(crate) fn first_other(row: &Row, wanted: &[ValueRef<'_>]) -> Option<usize>
    ensures none { IsNone result ↔ (row.now ≡ map owned wanted.now) }
    ensures first { IfSome result (λ at. (at ≤ length wanted.now)
        × ((k : ℕ) → (d : ValueRef) → k < at → column row.now k ≡ owned (get_or wanted.now k d))) }
{
    for at in 0..wanted.len() {
        if !is_same(value_at(row, at), wanted[at]) {
            return Some(at);
        }
    }
    if row.column_count() == wanted.len() {
        None
    } else {
        Some(wanted.len())
    }
}

/// Returns the number in a column, if there is one of 32 bits.
pub fn number_at(row: &Row, at: usize) -> Option<u32>
    ensures found { IfSome result (λ number. column row.now at ≡ Int (pos number)) }
    ensures none { IsNone result → (number : ℕ) → number < 2 ^ 32
        → ¬ (column row.now at ≡ Int (pos number)) }
{
    match value_at(row, at) {
        ValueRef::Int(number) => u32::try_from(number).ok(),
        _ => None,
    }
}

/// Returns the text in a column, if there is one, of UTF-8.
pub fn text_at(row: &Row, at: usize) -> Option<&str>
    ensures found { IfSome result (λ text. column row.now at ≡ Text text.now) }
    ensures none { IsNone result → (text : List ℕ) → IsUtf8 text
        → ¬ (column row.now at ≡ Text text) }
{
    match value_at(row, at) {
        ValueRef::Text(bytes) => std::str::from_utf8(bytes).ok(),
        _ => None,
    }
}

/// The bytes in a column, if there are any.
pub(crate) fn bytes_at(row: &Row, at: usize) -> Option<&[u8]>
    ensures found { IfSome result (λ bytes. column row.now at ≡ Blob bytes.now) }
    ensures none { IsNone result → (bytes : List ℕ) → ¬ (column row.now at ≡ Blob bytes) }
{
    match value_at(row, at) {
        ValueRef::Blob(bytes) => Some(bytes),
        _ => None,
    }
}
