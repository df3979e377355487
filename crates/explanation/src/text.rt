// How a query is answered in words.
ghost use Rattle.std.specs.Prelude.{◌≡◌, Some, ◌==◌};
ghost use Rattle.explanation.specs.Texts.{prefix_text, confused_text, query_text, place_text, fault_text};

use crate::place::Place;
use crate::query::{LineFault, Query};
use layout::prefix::Prefix;
use notation::hex::HexText;
use notation::ipv4::Ipv4Text;
use notation::ipv6_write::Ipv6Text;
use std::error::Error;
use std::fmt;

// A prefix: an address of 32 bits in dotted form, any other as an IPv6 address, and the length.
#[derive(Clone, Copy, PartialEq, Eq, Debug)]
pub struct PrefixText(pub Prefix);

impl fmt::Display for PrefixText {
    ghost output = { λ x. Some (prefix_text x.0) };

    fn fmt<W: fmt::Write>(&self, f: &mut fmt::Formatter<W>) -> fmt::Result {
        let length = self.0.length();
        if is_ipv4(&self.0) {
            write!(f, "{}/{length}", Ipv4Text(self.0.address() as u32))
        } else {
            write!(f, "{}/{length}", Ipv6Text(self.0.address()))
        }
    }
}

// Whether the prefix has the 32 bits of IPv4.
fn is_ipv4(prefix: &Prefix) -> bool
    ensures { result ≡ (prefix.now.width.bits == 32) }
{
    prefix.width().bits() == 32
}

// The prefix and its list's generator.
impl fmt::Display for Query {
    ghost output = { λ x. Some (query_text x) };

    fn fmt<W: fmt::Write>(&self, f: &mut fmt::Formatter<W>) -> fmt::Result {
        let prefix = PrefixText(self.prefix);
        let generator = self.layout.generator().poly();
        write!(f, "{prefix}, generator 0x{generator:x}")
    }
}

// What is added to a place where a tread does not admit the prefix.
#[derive(Clone, Copy, PartialEq, Eq, Debug)]
pub struct ConfusedText(pub Option<Prefix>);

impl fmt::Display for ConfusedText {
    ghost output = { λ x. Some (confused_text x.0) };

    fn fmt<W: fmt::Write>(&self, f: &mut fmt::Formatter<W>) -> fmt::Result {
        match self.0 {
            Some(other) => write!(
                f,
                ", not admitted: {} would leave the same digest there",
                PrefixText(other)
            ),
            None => Ok(()),
        }
    }
}

impl fmt::Display for Place {
    ghost output = { λ x. Some (place_text x) };

    fn fmt<W: fmt::Write>(&self, f: &mut fmt::Formatter<W>) -> fmt::Result {
        let tread = self.tread;
        let bucket = self.bucket;
        let digest = HexText(self.digest);
        let confused = ConfusedText(self.confused);
        write!(
            f,
            "tread {tread}: bucket 0x{bucket:x}, digest 0x{digest}{confused}"
        )
    }
}

impl fmt::Display for LineFault {
    ghost output = { λ x. Some (fault_text x) };

    fn fmt<W: fmt::Write>(&self, f: &mut fmt::Formatter<W>) -> fmt::Result {
        f.write_str(match self {
            LineFault::Unreadable =>
                "cannot read this: a line is LIST ADDRESS/LENGTH, as v4 10.0.0.0/24 or v6 2001:db8::/32",
            LineFault::UnknownList => "unknown list: there are v4, v4-small and v6",
            LineFault::LengthBeyondWidth => "the length is beyond the width of the address",
            LineFault::BitsAfterLength => "the address has bits after the length",
        })
    }
}

impl Error for LineFault {}
