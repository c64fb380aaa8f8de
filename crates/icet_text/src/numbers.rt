ghost use Rattle.std.specs.Prelude.{◌≡◌, ◌≤◌, ◌<◌, ℕ, IfSome, IfOk, length, option_map, take, drop};
ghost use Rattle.std.specs.Option.{option_copied, is_some};
ghost use Rattle.icet_text.specs.Numbers.{numbers_in, sizes_in, size_at, signed_at, IsInAt};
ghost use Rattle.icet_text.specs.Words.{words_behind};

use crate::field::{Field, Number};
use crate::first_number::{number_at_sight, split_number};
use crate::numeral::number;
use crate::words::split_word;
use arrayvec::ArrayVec;
use std::alloc::{AllocError, Global};

/// The most numbers that a line has which isn't a list of any length.
pub const MOST_NUMBERS: usize = 22;

/// The numbers of the words, where there is one word for each field and the field takes its number.
#[inline(always)]
pub fn numbers(fields: &[Field], words: Option<&[u8]>) -> Option<ArrayVec<Number, MOST_NUMBERS>>
    requires { length fields.now ≤ 22 }
    ensures numbers { option_map (λ v. v.items) result ≡ numbers_in fields.now (words_behind (option_copied words.entry)) }
    ensures count { IfSome result (λ v. length v.items ≡ length fields.now) }
    ensures within { IfSome result (λ v. (i : ℕ) → i < length fields.now → IsInAt fields.now v.items i) }
{
    let (values, rest) = lead(fields, words)?;
    match rest {
        None => Some(values),
        Some(_) => None,
    }
}

/// The numbers of the first words, one for each field, where the field takes its number; and what is left of
/// the line.
#[inline(always)]
pub fn lead<'a>(
    fields: &[Field],
    words: Option<&'a [u8]>,
) -> Option<(ArrayVec<Number, MOST_NUMBERS>, Option<&'a [u8]>)>
    requires { length fields.now ≤ 22 }
    ensures numbers { option_map (λ r. r.0.items) result ≡ numbers_in fields.now (take (length fields.now) (words_behind (option_copied words.entry))) }
    ensures rest { IfSome result (λ r. words_behind (option_copied r.1) ≡ drop (length fields.now) (words_behind (option_copied words.entry))) }
    ensures count { IfSome result (λ r. length r.0.items ≡ length fields.now) }
    ensures within { IfSome result (λ r. (i : ℕ) → i < length fields.now → IsInAt fields.now r.0.items i) }
{
    let mut values = ArrayVec::new();
    let mut rest = words;
    for field in fields {
        let Some(line) = rest else {
            return lead_with_care(fields, words);
        };
        let Some((number, behind)) = number_at_sight(*field, line) else {
            return lead_with_care(fields, words);
        };
        values.push(number);
        rest = behind;
    }
    Some((values, rest))
}

/// The same, word by word with care.
#[cold]
#[inline(never)]
fn lead_with_care<'a>(
    fields: &[Field],
    words: Option<&'a [u8]>,
) -> Option<(ArrayVec<Number, MOST_NUMBERS>, Option<&'a [u8]>)>
    requires { length fields.now ≤ 22 }
    ensures numbers { option_map (λ r. r.0.items) result ≡ numbers_in fields.now (take (length fields.now) (words_behind (option_copied words.entry))) }
    ensures rest { IfSome result (λ r. words_behind (option_copied r.1) ≡ drop (length fields.now) (words_behind (option_copied words.entry))) }
    ensures count { IfSome result (λ r. length r.0.items ≡ length fields.now) }
    ensures within { IfSome result (λ r. (i : ℕ) → i < length fields.now → IsInAt fields.now r.0.items i) }
{
    let mut values = ArrayVec::new();
    let mut rest = words;
    for field in fields {
        let (number, behind) = split_number(*field, rest?)?;
        values.push(number);
        rest = behind;
    }
    Some((values, rest))
}

/// The size of the number at a place.
#[inline(always)]
pub fn size(ns: &[Number], i: usize) -> u32
    requires { i < length ns.now }
    ensures { result ≡ size_at ns.now i }
{
    ns[i].size
}

/// The number at a place, with its sign.
#[inline(always)]
pub fn signed(ns: &[Number], i: usize) -> i32
    requires within { i < length ns.now }
    requires small { size_at ns.now i ≤ 1073741824 }
    ensures { result ≡ signed_at ns.now i }
{
    let n = ns[i];
    if n.is_negative {
        -(n.size as i32)
    } else {
        n.size as i32
    }
}

/// The sizes of the words' numbers, where the field takes each of them.
///
/// # Errors
///
/// `AllocError` where the list finds no memory.
pub fn sizes(
    alloc: Global,
    field: Field,
    words: Option<&[u8]>,
) -> Result<Option<Vec<u32>>, AllocError>
    ensures { IfOk result (λ sizes. option_map (λ v. v.items) sizes ≡ sizes_in field (words_behind (option_copied words.entry))) }
{
    let mut all = Vec::new(alloc);
    let mut rest = words;
    while let Some(line) = rest {
        let (word, behind) = split_word(line);
        match number(field, word) {
            None => return Ok(None),
            Some(n) => all.push(n.size)?,
        }
        rest = behind;
    }
    Ok(Some(all))
}

/// Whether the field takes the number of each word.
pub fn are_in(field: Field, words: Option<&[u8]>) -> bool
    ensures { result ≡ is_some (sizes_in field (words_behind (option_copied words.entry))) }
{
    let mut rest = words;
    while let Some(line) = rest {
        let (word, behind) = split_word(line);
        if number(field, word).is_none() {
            return false;
        }
        rest = behind;
    }
    true
}
