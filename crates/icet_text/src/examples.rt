//! The definitions on small texts worked by hand, evaluated by the prover.
ghost use Rattle.std.specs.Prelude.{◌≡◌, [], ◌∷◌, None, Some, codes, true, false};
ghost use Rattle.icet_text.specs.Lines.{lines_of, words_of};
ghost use Rattle.icet_text.specs.Numerals.{natural_of, within, is_numeral, number_in};
ghost use Rattle.icet_text.specs.Samples.{digit, signed_digit};

/// Decimal numerals have no sign but a minus before a number that isn't 0, no leading zero and no empty form.
pub fn numerals()
    ensures zero { natural_of (codes "0") ≡ Some 0 }
    ensures long { natural_of (codes "16777214") ≡ Some 16777214 }
    ensures leading_zero { natural_of (codes "01") ≡ None }
    ensures plus { is_numeral (codes "+1") ≡ false }
    ensures minus { is_numeral (codes "-5") ≡ true }
    ensures minus_zero { is_numeral (codes "-0") ≡ false }
    ensures minus_leading_zero { is_numeral (codes "-05") ≡ false }
    ensures two_signs { is_numeral (codes "--5") ≡ false }
    ensures sign_alone { is_numeral (codes "-") ≡ false }
    ensures letter { is_numeral (codes "1a") ≡ false }
    ensures empty { is_numeral [] ≡ false }
{}

/// A range includes its ends, and only a signed field takes a negative number.
pub fn ranges()
    ensures greatest { within 0 16777214 16777214 ≡ Some 16777214 }
    ensures beyond { within 0 16777214 16777215 ≡ None }
    ensures below { within 1 16384 0 ≡ None }
    ensures negative { number_in digit (codes "-5") ≡ None }
    ensures taken { number_in signed_digit (codes "-5") ≡ Some (record { is_negative = true; size = 5 }) }
    ensures signed_beyond { number_in signed_digit (codes "-10") ≡ None }
{}

/// A line ends at a newline, which the last one may lack; two spaces in a row make an empty word.
pub fn lines_and_words()
    ensures no_line { lines_of [] ≡ [] }
    ensures last { lines_of (codes "a b\nend") ≡ (codes "a b" ∷ codes "end" ∷ []) }
    ensures ended { lines_of (codes "a b\nend\n") ≡ (codes "a b" ∷ codes "end" ∷ []) }
    ensures empty_line { lines_of (codes "\nend\n") ≡ ([] ∷ codes "end" ∷ []) }
    ensures two { words_of (codes "a bc") ≡ (codes "a" ∷ codes "bc" ∷ []) }
    ensures two_spaces { words_of (codes "a  b") ≡ (codes "a" ∷ [] ∷ codes "b" ∷ []) }
    ensures space_at_an_end { words_of (codes "a ") ≡ (codes "a" ∷ [] ∷ []) }
{}
