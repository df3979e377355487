// Decimal numbers without sign or leading zeros.
ghost use Rattle.std.specs.Prelude.{◌≡◌, ℕ, ◌≤◌, decimal, MatchOption, ◌≢◌};
ghost use Rattle.notation.specs.Decimal.{leading_zero, read_decimal};

use crate::digits::parse_digits;

// The number from 0 to `limit` that `{}` writes as the text.
#[tactic(auto, using(crate::proofs::Decimals::decimal_exact))]
pub fn parse_decimal(text: &[u8], limit: u32) -> Option<u32>
    ensures value { result ≡ read_decimal limit text.now }
    ensures written { MatchOption result ((n : ℕ) → n ≤ limit → decimal n ≢ text.now) (λ n. (n ≤ limit) × (decimal n ≡ text.now)) }
{
    if has_leading_zero(text) {
        None
    } else {
        parse_digits(text, 10, limit)
    }
}

fn has_leading_zero(text: &[u8]) -> bool
    ensures { result ≡ leading_zero text.now }
{
    matches!(text, [b'0', _, ..])
}
