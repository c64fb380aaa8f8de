//! What holds of the places of interlaced pixels, for all numbers of pixels and strands.
ghost use Rattle.std.specs.Prelude.{◌≡◌, ℕ, ◌<◌, List, [], ◌∷◌, length, get_or, map, None};
ghost use Rattle.icet_model.specs.Pixel.{Pixel};
ghost use Rattle.icet_interlace.specs.Interlace.{interlaced, place, restored};

/// Pixels are at positions below their number, different ones at different positions, and at each
/// position there is one.
pub fn bijection()
    ensures within { (i n strands : ℕ) → i < n → 0 < strands → place i n strands < n }
    ensures apart { (i j n strands : ℕ) → i < n → j < n → 0 < strands → place i n strands ≡ place j n strands → i ≡ j }
    ensures onto { (p n strands : ℕ) → p < n → 0 < strands → (i : ℕ) × ((i < n) × (place i n strands ≡ p)) }
{}

/// Pixels that are dealt out are as many, each is at its place, and they come back from there; one strand
/// leaves them as they are.
pub fn dealt_out()
    ensures count { (strands : ℕ) (pixels : List Pixel) → 0 < strands → length (interlaced strands pixels) ≡ length pixels }
    ensures each { (strands i : ℕ) (pixels : List Pixel) → 0 < strands → i < length pixels
        → get_or (interlaced strands pixels) (place i (length pixels) strands) None ≡ get_or pixels i None }
    ensures back { (strands : ℕ) (pixels : List Pixel) → 0 < strands
        → restored (length pixels) strands (interlaced strands pixels) ≡ pixels }
    ensures one { (pixels : List Pixel) → interlaced 1 pixels ≡ pixels }
    ensures one_back { (pixels : List Pixel) → restored (length pixels) 1 pixels ≡ pixels }
{}

/// Seven pixels in three strands stand in the order 0, 3, 6, 1, 4, 2, 5.
pub fn seven_pixels()
    ensures { map (λ i. place i 7 3) (0 ∷ 3 ∷ 6 ∷ 1 ∷ 4 ∷ 2 ∷ 5 ∷ []) ≡ (0 ∷ 1 ∷ 2 ∷ 3 ∷ 4 ∷ 5 ∷ 6 ∷ []) }
{}
