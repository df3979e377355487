// Asking whether a number is a generator, and what a generator tells of itself.
ghost use Rattle.std.specs.Prelude.{◌≡◌, ◌≤◌, MatchOption};
ghost use Rattle.gf2.specs.Poly.{IsGenerator};

use crate::generator::Generator;

impl Generator {
    // The number as a generator, or `None` where it is not one.
    pub fn new(poly: u32) -> Option<Generator>
        ensures { MatchOption result (IsGenerator poly → ⊥) (λ g. g.poly ≡ poly) }
    {
        if poly % 2 == 0 || poly < 1 << 4 || poly >= 1 << 17 {
            return None;
        }
        let degree = 31 - poly.leading_zeros();
        let lowest = (poly - 1).trailing_zeros();
        Some(Generator {
            poly,
            degree,
            lowest,
        })
    }

    pub fn poly(&self) -> u32
        ensures { result ≡ self.now.poly }
    {
        self.poly
    }

    pub fn degree(&self) -> u32
        ensures { result ≡ self.now.degree }
    {
        self.degree
    }

    // The smallest exponent above 0 with coefficient 1, which is the degree at most.
    pub fn lowest(&self) -> u32
        ensures value { result ≡ self.now.lowest }
        ensures bound { result ≤ self.now.degree }
    {
        self.lowest
    }
}
