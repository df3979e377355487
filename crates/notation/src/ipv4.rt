// IPv4 addresses in dotted form.
ghost use Rattle.std.specs.Prelude.{◌≡◌, ℕ, ◌^◌, ◌<◌, Some, MatchOption, ◌≢◌};
ghost use Rattle.std.specs.Option.{option_map};
ghost use Rattle.notation.specs.Ipv4.{dotted, read4, read_octet, read_octet_and_dot};

use crate::decimal::parse_decimal;
use crate::split::split_once;
use std::fmt;

// The address that the text writes: four octets in decimal, the most significant first, with dots between.
#[tactic(auto, using(crate::proofs::Dotted::dotted_exact))]
pub fn parse_ipv4(text: &[u8]) -> Option<u32>
    ensures value { result ≡ read4 text.now }
    ensures written { MatchOption result ((a : ℕ) → a < 2 ^ 32 → dotted a ≢ text.now) (λ a. (a < 2 ^ 32) × (dotted a ≡ text.now)) }
{
    let (a, rest) = parse_octet_and_dot(text)?;
    let (b, rest) = parse_octet_and_dot(rest)?;
    let (c, rest) = parse_octet_and_dot(rest)?;
    let d = parse_octet(rest)?;
    Some(u32::from_be_bytes([a, b, c, d]))
}

// The octet before the first dot, and the text after that dot. Crate `placement` reads the number before a space likewise:
// a function of the mark and the limit would leave both with these two lines, for the types of their numbers.
fn parse_octet_and_dot(text: &[u8]) -> Option<(u8, &[u8])>
    ensures { option_map (λ p. (p.0, p.1.now)) result ≡ read_octet_and_dot text.now }
{
    let (octet, rest) = split_once(text, b".")?;
    Some((parse_octet(octet)?, rest))
}

fn parse_octet(text: &[u8]) -> Option<u8>
    ensures { result ≡ read_octet text.now }
{
    parse_decimal(text, 255).map(|octet| octet as u8)
}

// An address that is written in dotted form.
#[derive(Clone, Copy, PartialEq, Eq, Debug)]
pub struct Ipv4Text(pub u32);

impl fmt::Display for Ipv4Text {
    ghost output = { λ x. Some (dotted x.0) };

    fn fmt<W: fmt::Write>(&self, f: &mut fmt::Formatter<W>) -> fmt::Result {
        let [a, b, c, d] = self.0.to_be_bytes();
        write!(f, "{a}.{b}.{c}.{d}")
    }
}
