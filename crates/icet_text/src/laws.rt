//! What holds of the definitions for all values.
ghost use Rattle.std.specs.Prelude.{◌≡◌, ℕ, ◌<◌, ◌^◌, List, Some, decimal};
ghost use Rattle.icet_text.specs.Numerals.{natural_of};

/// The numerals of numbers below 2^64 are exactly the decimal texts that are written for them.
pub fn numerals_are_decimals()
    ensures read { (n : ℕ) → n < 2 ^ 64 → natural_of (decimal n) ≡ Some n }
    ensures written { (word : List ℕ) (n : ℕ) → n < 2 ^ 64 → natural_of word ≡ Some n → word ≡ decimal n }
{}
