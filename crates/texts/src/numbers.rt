//! Numbers as texts.

ghost use Rattle.std.specs.Prelude.{◌≡◌, ◌≢◌, ◌++◌, ◌<◌, ◌≤◌, ◌^◌, ℕ, IfSome, IfNone, OnOk, decimal};
ghost use Rattle.texts.specs.Numbers.{IsNumberOf};

use itoa::Buffer;
use std::alloc::AllocError;

/// The number spelled by 1 to 9 digits without a leading zero. `None` for any other text.
pub fn number_of(text: &str) -> Option<u32>
    ensures some { IfSome result (λ number. (0 < number) × (number < 10 ^ 9)
        × (text.now ≡ decimal number)) }
    ensures none { IfNone result ((number : ℕ) → 0 < number → number < 10 ^ 9 →
        text.now ≢ decimal number) }
{
    let Ok(number) = text.parse::<u32>() else {
        return None;
    };
    if number == 0 || number >= 1_000_000_000 {
        return None;
    }
    let mut buffer = Buffer::new();
    let printed = buffer.format(number);
    if printed == text { Some(number) } else { None }
}

/// The number from 1 up to a greatest one that [`number_of`] finds in a text.
pub fn number_up_to(text: &str, most: u32) -> Option<u32>
    ensures some { IfSome result (λ number. (0 < number) × (number ≤ most)
        × (text.now ≡ decimal number)) }
    ensures none { IfNone result ((number : ℕ) → 0 < number → number < 10 ^ 9 → number ≤ most →
        text.now ≢ decimal number) }
{
    let Some(number) = number_of(text) else {
        return None;
    };
    if number <= most { Some(number) } else { None }
}

/// The number of a text, or 0 if [`number_of`] finds none.
pub fn number_or_zero(text: &str) -> u32
    ensures { IsNumberOf text.now result }
{
    match number_of(text) {
        Some(number) => number,
        None => 0,
    }
}

/// Adds a number in digits, without leading zeros. Fails if there is no memory.
pub fn push_decimal(out: &mut Vec<u8>, number: usize) -> Result<(), AllocError>
    ensures { OnOk result (out.new.items ≡ out.old.items ++ decimal number) }
{
    let mut buffer = Buffer::new();
    out.extend_from_slice(buffer.format(number).as_bytes())
}

/// Adds a number in digits between two texts. Fails if there is no memory.
pub fn push_number_between(
    out: &mut Vec<u8>,
    before: &[u8],
    number: usize,
    after: &[u8],
) -> Result<(), AllocError>
    ensures { OnOk result (out.new.items
        ≡ out.old.items ++ (before.now ++ decimal number ++ after.now)) }
{
    out.extend_from_slice(before)?;
    push_decimal(out, number)?;
    out.extend_from_slice(after)
}
