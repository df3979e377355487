// A line `ADDRESS/LENGTH TREAD SLOT HOP`, and what it asks for.
ghost use Rattle.std.specs.Prelude.{◌≡◌};
ghost use Rattle.std.specs.Option.{option_map};
ghost use Rattle.placement.specs.Lines.{read_number, read_number_and_space, read_placing};

use family::ipv4::Ipv4Address;
use lines::prefix::parse_prefix;
use notation::decimal::parse_decimal;
use notation::split::split_once;

// A prefix that is to stand under a tread, in a slot of its bucket there. A tread is a prefix length at which routes
// may stand.
#[derive(Clone, Copy, PartialEq, Eq, Debug)]
pub struct Placing<F> {
    pub address: F,
    pub length: u32,
    pub tread: u32,
    pub slot: u32,
    pub hop: u16,
}

// What the line asks for, with one space between fields and none elsewhere.
pub fn read_placing(line: &[u8]) -> Option<Placing<Ipv4Address>>
    ensures { result ≡ read_placing line.now }
{
    let (prefix, rest) = split_once(line, b" ")?;
    let (address, length) = parse_prefix(32, prefix)?;
    let (tread, rest) = read_number_and_space(rest)?;
    let (slot, rest) = read_number_and_space(rest)?;
    let hop = read_number(rest)?;
    Some(Placing {
        address: Ipv4Address(address as u32),
        length,
        tread: u32::from(tread),
        slot: u32::from(slot),
        hop,
    })
}

// The number before the first space, and the text after that space; `notation` reads the octet before a dot likewise.
fn read_number_and_space(text: &[u8]) -> Option<(u16, &[u8])>
    ensures { option_map (λ p. (p.0, p.1.now)) result ≡ read_number_and_space text.now }
{
    let (number, rest) = split_once(text, b" ")?;
    Some((read_number(number)?, rest))
}

// A decimal number from 0 to 65,535.
fn read_number(text: &[u8]) -> Option<u16>
    ensures { result ≡ read_number text.now }
{
    parse_decimal(text, u32::from(u16::MAX)).map(|number| number as u16)
}
