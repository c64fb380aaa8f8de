//! The number of a line's first word. The way at sight reads it in one pass over its bytes. What isn't seen in
//! that pass, as a number of more than nine digits or a word that is no numeral, is left to the careful way.
ghost use Rattle.std.specs.Prelude.{◌≡◌, ◌≤◌, ◌<◌, ◌∷◌, IfSome, Some, length, take, option_map, true};
ghost use Rattle.std.specs.List.{list_all};
ghost use Rattle.std.specs.Option.{option_copied, is_some};
ghost use Rattle.icet_text.specs.Lines.{words_of};
ghost use Rattle.icet_text.specs.Words.{first_word, words_behind};
ghost use Rattle.icet_text.specs.Numerals.{is_digit, value_from, is_natural, begins_with, is_numeral, takes, value_of, number_in};

use crate::field::{Field, Number};
use crate::numeral::{begins_with, digits_of, is_numeral, number};
use crate::words::split_word;

/// So many digits are read at most, so that each value fits 32 bits.
const MOST_DIGITS: usize = 9;

/// The byte of the digit 0, as a number of 32 bits: a digit is tested and added as such.
const ZERO: u32 = 48;

/// The number of a line's first word, where it is a numeral and the field takes its number, and what is behind
/// the space that ends the word.
pub fn split_number(field: Field, line: &[u8]) -> Option<(Number, Option<&[u8]>)>
    ensures number { option_map (λ r. r.0) result ≡ number_in field (first_word line.now) }
    ensures words { IfSome result (λ r. words_of line.now ≡ first_word line.now ∷ words_behind (option_copied r.1)) }
    ensures shorter { IfSome result (λ r. IfSome r.1 (λ rest. length rest.now < length line.now)) }
{
    let (word, rest) = split_word(line);
    match number(field, word) {
        None => None,
        Some(number) => Some((number, rest)),
    }
}

/// The same, where the word is seen to be a numeral whose number the field takes. None says nothing of the line.
/// It is a part of the loop that calls it, as is all that it calls: a call takes longer than a digit.
#[inline(always)]
pub fn number_at_sight(field: Field, line: &[u8]) -> Option<(Number, Option<&[u8]>)>
    ensures number { IfSome result (λ r. number_in field (first_word line.now) ≡ Some r.0) }
    ensures words { IfSome result (λ r. words_of line.now ≡ first_word line.now ∷ words_behind (option_copied r.1)) }
    ensures shorter { IfSome result (λ r. IfSome r.1 (λ rest. length rest.now < length line.now)) }
{
    match split_at_sight(line) {
        Some((number, rest)) if takes(field, number) => Some((number, rest)),
        _ => None,
    }
}

/// What is behind a line's first word and the space that ends it, where the word is a numeral.
pub fn behind_numeral(line: &[u8]) -> Option<Option<&[u8]>>
    ensures numeral { is_some result ≡ is_numeral (first_word line.now) }
    ensures words { IfSome result (λ rest. words_of line.now ≡ first_word line.now ∷ words_behind (option_copied rest)) }
    ensures shorter { IfSome result (λ r. IfSome r (λ rest. length rest.now < length line.now)) }
{
    match split_at_sight(line) {
        Some((_, rest)) => Some(rest),
        None => {
            let (word, rest) = split_word(line);
            if is_numeral(word) { Some(rest) } else { None }
        }
    }
}

#[inline(always)]
fn takes(field: Field, number: Number) -> bool
    ensures { result ≡ takes field number }
{
    !(number.is_negative && !field.is_signed)
        && field.least <= number.size
        && number.size <= field.greatest
}

/// The number of a line's first word, and what is behind it, where the word is seen to be a numeral.
#[inline(always)]
fn split_at_sight(line: &[u8]) -> Option<(Number, Option<&[u8]>)>
    ensures numeral { IfSome result (λ r. is_numeral (first_word line.now) ≡ true) }
    ensures value { IfSome result (λ r. value_of (first_word line.now) ≡ r.0) }
    ensures words { IfSome result (λ r. words_of line.now ≡ first_word line.now ∷ words_behind (option_copied r.1)) }
    ensures shorter { IfSome result (λ r. IfSome r.1 (λ rest. length rest.now < length line.now)) }
{
    let (number, end) = first_numeral(line)?;
    if end == line.len() {
        return Some((number, None));
    }
    if line[end] == b' ' {
        return Some((number, Some(&line[end + 1..])));
    }
    None
}

/// The number of the numeral that stands first, and how many bytes it has.
#[inline(always)]
fn first_numeral(line: &[u8]) -> Option<(Number, usize)>
    ensures within { IfSome result (λ r. r.1 ≤ length line.now) }
    ensures numeral { IfSome result (λ r. is_numeral (take r.1 line.now) ≡ true) }
    ensures value { IfSome result (λ r. value_of (take r.1 line.now) ≡ r.0) }
{
    let is_negative = begins_with(line, b'-');
    let digits = digits_of(line);
    let (size, count) = first_digits(digits);
    if begins_with(digits, b'0') {
        if is_negative || count != 1 {
            return None;
        }
    } else if count == 0 {
        return None;
    }
    let number = Number { is_negative, size };
    Some((number, usize::from(is_negative) + count))
}

/// The value of the digits that stand first, nine at most, and how many these are.
#[inline(always)]
fn first_digits(bytes: &[u8]) -> (u32, usize)
    ensures within { result.1 ≤ length bytes.now }
    ensures digits { list_all is_digit (take result.1 bytes.now) ≡ true }
    ensures value { result.0 ≡ value_from 0 (take result.1 bytes.now) }
{
    // over a slice of a fixed length the loop is unrolled
    if MOST_DIGITS <= bytes.len() {
        digits_in(&bytes[..MOST_DIGITS])
    } else {
        digits_in(bytes)
    }
}

/// The value of the digits that stand first, and how many these are.
#[inline(always)]
fn digits_in(bytes: &[u8]) -> (u32, usize)
    requires { length bytes.now ≤ 9 }
    ensures within { result.1 ≤ length bytes.now }
    ensures digits { list_all is_digit (take result.1 bytes.now) ≡ true }
    ensures value { result.0 ≡ value_from 0 (take result.1 bytes.now) }
{
    let mut value = 0u32;
    let mut count = 0usize;
    for byte in bytes {
        let digit = u32::from(*byte).wrapping_sub(ZERO);
        if 9 < digit {
            return (value, count);
        }
        value = 10 * value + digit;
        count += 1;
    }
    (value, count)
}
