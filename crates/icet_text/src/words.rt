ghost use Rattle.std.specs.Prelude.{◌≡◌, ◌==◌, ◌∷◌, ◌≤◌, ◌<◌, ℕ, IfSome, position, length};
ghost use Rattle.std.specs.Option.{option_copied};
ghost use Rattle.icet_text.specs.Lines.{words_of};
ghost use Rattle.icet_text.specs.Words.{words_behind, counted};

use crate::first_number::behind_numeral;

/// The first word of a line, and what is behind the space that ends it.
pub fn split_word(line: &[u8]) -> (&[u8], Option<&[u8]>)
    ensures words { words_of line.now ≡ result.0.now ∷ words_behind (option_copied result.1) }
    ensures shorter { IfSome result.1 (λ rest. length rest.now < length line.now) }
{
    match place_of(line, b' ') {
        None => (line, None),
        Some(at) => (&line[..at], Some(&line[at + 1..])),
    }
}

/// Where the byte stands first.
pub fn place_of(bytes: &[u8], byte: u8) -> Option<usize>
    ensures first { result ≡ position (λ b. b == byte) bytes.now }
    ensures within { IfSome result (λ at. at < length bytes.now) }
{
    bytes.iter().position(|b| *b == byte)
}

/// How many words are left of a line, where each is a numeral.
pub fn count_numerals(words: Option<&[u8]>) -> Option<usize>
    ensures { result ≡ counted (words_behind (option_copied words.entry)) }
{
    let mut count = 0usize;
    let mut rest = words;
    while let Some(line) = rest {
        rest = behind_numeral(line)?;
        count += 1;
    }
    Some(count)
}
