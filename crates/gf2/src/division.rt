// Division of a polynomial by a generator.
ghost use Rattle.std.specs.Prelude.{◌≡◌, ◌/◌, ◌^◌, ◌<◌, ◌≤◌};
ghost use Rattle.gf2.specs.Poly.{times, IsProduct};
ghost use Rattle.gf2.specs.Division.{Divides, OnlyPair, Additive, quotient_of, remainder_of};

use crate::generator::Generator;

#[derive(Clone, Copy, PartialEq, Eq, Debug)]
pub struct Division {
    pub quotient: u128,
    pub remainder: u32,
}

impl Generator {
    // Quotient and remainder of the dividend. No branch depends on its bits, but for one on its size: IPv4 addresses
    // and other dividends of up to 32 bits take a quarter of the steps.
    pub fn divide(&self, dividend: u128) -> Division
        ensures divides { Divides self.now dividend result.quotient result.remainder }
        ensures only { OnlyPair self.now dividend result.quotient result.remainder }
        ensures quotient { result.quotient ≡ quotient_of self.now dividend }
        ensures remainder { result.remainder ≡ remainder_of self.now dividend }
        ensures additive { Additive self.now }
        ensures product { IsProduct times }
    {
        let bits = if dividend < 1 << 32 { 32 } else { 128 };
        self.divide_bits(dividend, bits)
    }

    // Long division, from the coefficient of x^(bits - 1) down.
    fn divide_bits(&self, dividend: u128, bits: u32) -> Division
        requires few { bits ≤ 128 }
        requires within { dividend < 2 ^ bits }
        ensures quotient { result.quotient ≡ quotient_of self.now dividend }
        ensures remainder { result.remainder ≡ remainder_of self.now dividend }
    {
        let poly = self.poly();
        // a loop over the exponents: a fold over the pair has the same lines
        let mut quotient = 0u128;
        let mut remainder = 0u32;
        for k in (0..bits).rev() {
            let next = remainder * 2 + ((dividend >> k) % 2) as u32;
            let digit = self.goes_into(next);
            quotient = quotient * 2 + digit as u128;
            remainder = next ^ (digit * poly);
        }
        Division {
            quotient,
            remainder,
        }
    }

    // How often the generator goes into a remainder with one more coefficient brought down: 0 or 1 times.
    fn goes_into(&self, next: u32) -> u32
        ensures { result ≡ next / 2 ^ self.now.degree }
    {
        next >> self.degree()
    }
}
