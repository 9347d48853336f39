//! The fields of a header: text that spaces fill up.

ghost use Rattle.std.specs.Prelude.{◌≡◌, ℕ, ◌+◌, ◌-◌, ◌≤◌, true, length, take, drop};
ghost use Rattle.std.specs.Char.{is_ascii_digit};
ghost use Rattle.std.specs.List.{suffix_len, list_all};
ghost use Rattle.ar_read.specs.declared.format.TheConstants.{AR_NAME_LEN};
ghost use Rattle.ar_read.specs.Fields as read;

use crate::format::{DIGIT_0, SPACE};

/// The length without the spaces at the end.
fn text_len(field: &[u8]) -> usize
    ensures value { result ≡ length field.now - suffix_len read.is_space field.now }
    ensures within { result ≤ length field.now }
{
    let mut len = field.len();
    while len > 0 {
        if field[len - 1] != SPACE {
            return len;
        }
        len -= 1;
    }
    0
}

/// A field without the spaces at its end.
#[tactic(auto, unfolding(crate::specs::Fields::trimmed))]
fn trimmed(field: &[u8]) -> &[u8]
    ensures value { result.now ≡ read.trimmed field.now }
    ensures within { length result.now ≤ length field.now }
{
    let len = text_len(field);
    &field[..len]
}

/// The text of the field of `len` bytes at an offset.
pub fn field_at(bytes: &[u8], from: usize, len: usize) -> &[u8]
    requires { from + len ≤ length bytes.now }
    ensures value { result.now ≡ read.trimmed (take len (drop from bytes.now)) }
    ensures within { length result.now ≤ len }
{
    trimmed(&bytes[from..from + len])
}

/// Whether each byte is a decimal digit.
fn all_digits(text: &[u8]) -> bool
    ensures { result ≡ list_all is_ascii_digit text.now }
{
    text.iter().all(|byte| byte.is_ascii_digit())
}

/// Whether a text is one or more decimal digits.
#[tactic(auto, unfolding(crate::specs::Fields::is_decimal))]
fn is_decimal(text: &[u8]) -> bool
    ensures { result ≡ read.is_decimal text.now }
{
    0 < text.len() && all_digits(text)
}

/// The number that decimal digits write.
#[tactic(auto, unfolding(crate::specs::Fields::number))]
fn number(digits: &[u8]) -> u64
    requires short { length digits.now ≤ AR_NAME_LEN }
    requires digits { list_all is_ascii_digit digits.now ≡ true }
    ensures { result ≡ read.number digits.now }
{
    let mut number = 0;
    for digit in digits {
        number = 10 * number + (*digit - DIGIT_0) as u64;
    }
    number
}

/// The number that a text writes, if it is one.
#[tactic(auto, unfolding(crate::specs::Fields::decimal, crate::specs::Fields::is_decimal))]
pub fn decimal(text: &[u8]) -> Option<u64>
    requires { length text.now ≤ AR_NAME_LEN }
    ensures { result ≡ read.decimal text.now }
{
    if !is_decimal(text) {
        return None;
    }
    Some(number(text))
}
