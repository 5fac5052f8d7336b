//! The names of customers and the numbers of jobs.

ghost use Rattle.std.specs.{Prelude.{◌≡◌}, List.{list_all}};
ghost use Rattle.texts.specs.Names.{is_letter_or_digit, is_name_length, is_customer, is_number};

/// The name of a job: its customer, and the number that the customer gave it.
#[derive(Clone, Copy, Debug)]
pub struct JobName<'a> {
    /// The text of the customer.
    pub customer: &'a str,
    /// The number.
    pub number: u32,
}

/// The characters allowed in a customer's name.
const NAME_CHARACTERS: &[u8] = b"ABCDEFGHIJKLMNOPQRSTUVWXYZ0123456789";

/// Whether each byte is a character of names.
fn are_name_characters(bytes: &[u8]) -> bool
    ensures { result ≡ list_all is_letter_or_digit bytes.now }
{
    for byte in bytes {
        if !NAME_CHARACTERS.contains(byte) {
            return false;
        }
    }
    true
}

/// Whether a name may have this length.
fn is_name_length(length: usize) -> bool
    ensures { result ≡ is_name_length length }
{
    1 <= length && length <= 12
}

/// Whether this is a customer's name: 1 to 12 capital letters and digits.
pub fn is_customer(name: &str) -> bool
    ensures { result ≡ is_customer name.now }
{
    is_name_length(name.len()) && are_name_characters(name.as_bytes())
}

/// Whether a job may have this number.
pub fn is_number(number: u32) -> bool
    ensures { result ≡ is_number number }
{
    1 <= number && number <= 999_999
}
