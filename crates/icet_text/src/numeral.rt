ghost use Rattle.std.specs.Prelude.{◌≡◌, ◌≤◌, ◌<◌, ◌^◌, ◌==◌, nat_le, true, Some, None, cond, if◌then◌else◌, IfSome};
ghost use Rattle.std.specs.List.{list_all};
ghost use Rattle.icet_text.specs.Numerals.{is_digit, starts_well, value_from, is_natural, natural_in, natural_of, begins_with, is_negative, digits_of, is_numeral, takes, value_of, number_in};

use crate::field::{Field, Number};

/// The number of a word, where it is a decimal numeral without a sign, of any length, from the range's least
/// to its greatest number.
pub fn natural(range: (u32, u32), word: &[u8]) -> Option<u32>
    ensures { result ≡ natural_in range word.now }
{
    if !is_natural(word) {
        return None;
    }
    match value_up_to(range.1, word) {
        Some(n) if range.0 <= n => Some(n),
        _ => None,
    }
}

/// Whether the word is a decimal numeral: `0`, or a digit from 1 to 9 and then digits, or a minus sign and
/// such a numeral other than `0`.
pub fn is_numeral(word: &[u8]) -> bool
    ensures { result ≡ is_numeral word.now }
{
    let digits = digits_of(word);
    is_natural(digits) && !(begins_with(word, b'-') && begins_with(digits, b'0'))
}

/// The number of a word, where it is a numeral of any length and the field takes its number.
pub fn number(field: Field, word: &[u8]) -> Option<Number>
    ensures { result ≡ number_in field word.now }
{
    if !is_numeral(word) {
        return None;
    }
    let is_negative = begins_with(word, b'-');
    let size = value_up_to(field.greatest, digits_of(word))?;
    if is_negative && !field.is_signed || size < field.least {
        return None;
    }
    Some(Number { is_negative, size })
}

/// Whether this byte stands first.
#[inline(always)]
pub fn begins_with(word: &[u8], byte: u8) -> bool
    ensures { result ≡ begins_with byte word.now }
{
    match word {
        [] => false,
        [first, ..] => *first == byte,
    }
}

/// What is behind the minus sign, where there is one.
#[inline(always)]
pub fn digits_of(word: &[u8]) -> &[u8]
    ensures { result.now ≡ digits_of word.now }
{
    if begins_with(word, b'-') {
        &word[1..]
    } else {
        word
    }
}

fn is_natural(word: &[u8]) -> bool
    ensures { result ≡ is_natural word.now }
{
    starts_well(word) && are_digits(word)
}

/// Whether there is a first digit, and no further one behind a leading 0.
fn starts_well(word: &[u8]) -> bool
    ensures { result ≡ starts_well word.now }
{
    match word {
        [] => false,
        [_] => true,
        [first, ..] => *first != b'0',
    }
}

fn are_digits(word: &[u8]) -> bool
    ensures { result ≡ list_all is_digit word.now }
{
    word.iter().all(|byte| b'0' <= *byte && *byte <= b'9')
}

/// The value of the digits, where it is at most this.
fn value_up_to(most: u32, digits: &[u8]) -> Option<u32>
    requires { list_all is_digit digits.now ≡ true }
    ensures { result ≡ (if nat_le (value_from 0 digits.now) most then Some (value_from 0 digits.now) else None) }
{
    let mut value = 0u32;
    for digit in digits {
        let next = u64::from(value) * 10 + u64::from(*digit - b'0');
        if next > u64::from(most) {
            return None;
        }
        value = next as u32;
    }
    Some(value)
}
