// Prefixes as text: `ADDRESS/LENGTH`.
ghost use Rattle.std.specs.Prelude.{◌≡◌, ◌^◌, ◌<◌, IfSome};
ghost use Rattle.lines.specs.Prefixes.{read_address, read_prefix};

use notation::decimal::parse_decimal;
use notation::ipv4::parse_ipv4;
use notation::ipv6_read::parse_ipv6;
use notation::split::split_once;

// No longer length is read; whether the address has so many bits is for others to ask.
const LONGEST: u32 = 65_535;

// The address and the length, with an address of that many bits.
pub fn parse_prefix(bits: u8, text: &[u8]) -> Option<(u128, u32)>
    ensures value { result ≡ read_prefix bits text.now }
    ensures bound { IfSome result (λ p. p.0 < 2 ^ bits) }
{
    let (address, length) = split_once(text, b"/")?;
    let address = parse_address(bits, address)?;
    let length = parse_decimal(length, LONGEST)?;
    Some((address, length))
}

// An address of 32 bits in dotted form, of 128 bits in the forms of IPv6; no other has a text.
pub fn parse_address(bits: u8, text: &[u8]) -> Option<u128>
    ensures value { result ≡ read_address bits text.now }
    ensures bound { IfSome result (λ a. a < 2 ^ bits) }
{
    match bits {
        32 => parse_ipv4(text).map(u128::from),
        128 => parse_ipv6(text),
        _ => None,
    }
}
