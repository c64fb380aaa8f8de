ghost use Rattle.std.specs.Prelude.{◌≡◌, ℕ, ◌≤◌, ◌↔◌, IsSome, IfSome};
ghost use Rattle.icet_model.specs.Pixel.{FragmentView, IsFragment};

use icet_base::limits::MAX_DEPTH;
use std::marker::Model;

/// What was drawn at one place: premultiplied colour, alpha and depth. A channel of the colour is at
/// most the alpha, and the depth at most `MAX_DEPTH`; the nearer fragment has the lower depth. Pictures
/// of one byte a sample hold fragments whose alpha is at most 255.
#[derive(Clone, Copy, Debug, PartialEq, Eq)]
pub struct Fragment {
    r: u16,
    g: u16,
    b: u16,
    a: u16,
    z: u32,
}

impl Model for Fragment {
    ghost use Rattle.icet_model.specs.Pixel.{FragmentView, IsFragment};

    ghost Value = { FragmentView };

    ghost view = { λ s. record { r = s.r; g = s.g; b = s.b; a = s.a; z = s.z } };

    ghost invariant = { λ s. IsFragment (record { r = s.r; g = s.g; b = s.b; a = s.a; z = s.z }) };

    ghost inverse = { λ f. record { r = f.r; g = f.g; b = f.b; a = f.a; z = f.z } };
}

impl Fragment {
    /// The fragment of these samples, or None exactly where a channel exceeds the alpha or the depth
    /// exceeds `MAX_DEPTH`.
    pub fn new(r: u16, g: u16, b: u16, a: u16, z: u32) -> Option<Fragment>
        ensures value { IfSome result (λ f. f ≡ record { r = r; g = g; b = b; a = a; z = z }) }
        ensures exact { IsSome result ↔ IsFragment (record { r = r; g = g; b = b; a = a; z = z }) }
    {
        if r <= a && g <= a && b <= a && z <= MAX_DEPTH {
            Some(Fragment { r, g, b, a, z })
        } else {
            None
        }
    }

    /// The fragment of these samples. Condition: no channel exceeds the alpha, and the depth is at most
    /// `MAX_DEPTH`.
    pub fn of(r: u16, g: u16, b: u16, a: u16, z: u32) -> Fragment
        requires { IsFragment (record { r = r; g = g; b = b; a = a; z = z }) }
        ensures { result ≡ record { r = r; g = g; b = b; a = a; z = z } }
    {
        Fragment { r, g, b, a, z }
    }

    /// Red, premultiplied by the alpha.
    pub fn r(&self) -> u16
        ensures value { result ≡ self.now.r }
        ensures within { result ≤ self.now.a }
    {
        self.r
    }

    /// Green, premultiplied by the alpha.
    pub fn g(&self) -> u16
        ensures value { result ≡ self.now.g }
        ensures within { result ≤ self.now.a }
    {
        self.g
    }

    /// Blue, premultiplied by the alpha.
    pub fn b(&self) -> u16
        ensures value { result ≡ self.now.b }
        ensures within { result ≤ self.now.a }
    {
        self.b
    }

    /// The alpha: 0 is transparent, and opaque is 255, or 65,535 in wide pictures.
    pub fn a(&self) -> u16
        ensures value { result ≡ self.now.a }
        ensures within { IsFragment self.now }
    {
        self.a
    }

    /// The depth; what is nearer has less.
    pub fn z(&self) -> u32
        ensures value { result ≡ self.now.z }
        ensures within { result ≤ 16777214 }
    {
        self.z
    }
}
