// An address family: each address has W bits, the first most significant, for a width W of the layout library.
ghost use Rattle.std.specs.Prelude.{◌≡◌, ℕ, ◌^◌, ◌<◌, ◌==◌};
ghost use Rattle.gf2.specs.Division.{Divides, quotient_of, remainder_of};
ghost use Rattle.family.specs.Laws.{Laws};

use gf2::division::Division;
use gf2::generator::Generator;
use layout::width::Width;

pub trait Family: Copy {
    // W
    ghost wide: { ℕ };

    // the address as a number
    ghost number: { Self → ℕ };

    // the address with every bit after its first l cleared
    ghost cleared: { Self → ℕ → Self };

    fn width() -> Width
        ensures { result.bits ≡ wide };

    fn bits(self) -> u128
        ensures value { result ≡ number self }
        ensures fits { result < 2 ^ wide };

    // Rounding to the width or beyond leaves the address as it is.
    fn round(self, length: u8) -> Self
        ensures { result ≡ cleared self length };

    // Whether the two have the same bits.
    fn same(self, other: Self) -> bool
        ensures { result ≡ (number self == number other) }
    {
        self.bits() == other.bits()
    }

    // Quotient and remainder of the address as a polynomial.
    fn divide(self, generator: &Generator) -> Division
        ensures divides { Divides generator.now (number self) result.quotient result.remainder }
        ensures quotient { result.quotient ≡ quotient_of generator.now (number self) }
        ensures remainder { result.remainder ≡ remainder_of generator.now (number self) }
    {
        generator.divide(self.bits())
    }

    // what each family has to prove
    ghost laws: { Laws wide number cleared };
}
