// A generator: a polynomial over GF(2) of degree 4 to 16 with constant term 1, with its two exponents that matter.
ghost use Rattle.std.specs.Prelude.{◌≡◌, ◌/◌, ◌%◌, ◌^◌, ◌<◌, ◌≤◌};

mod methods;

#[derive(Clone, Copy, PartialEq, Eq, Debug)]
pub struct Generator {
    // bit k is the coefficient of x^k
    poly: u32,
    degree: u32,
    // the smallest exponent above 0 with coefficient 1
    lowest: u32,
    ghost leads: { poly / 2 ^ degree ≡ 1 },
    ghost least: { 4 ≤ degree },
    ghost most: { degree ≤ 16 },
    ghost positive: { 0 < lowest },
    ghost ordered: { lowest ≤ degree },
    // below x^lowest stands the constant term 1 and nothing else
    ghost apart: { poly % 2 ^ lowest ≡ 1 },
    ghost present: { poly / 2 ^ lowest % 2 ≡ 1 },
}
