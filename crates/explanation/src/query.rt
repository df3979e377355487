// A line `LIST ADDRESS/LENGTH`, read as a query: the layout that goes by the list's name, and the prefix.
ghost use Rattle.std.specs.Prelude.{◌≡◌, ◌^◌, ◌<◌, IfSome, MatchOption};
ghost use Rattle.layout.specs.Named.{NoName};
ghost use Rattle.lines.specs.Prefixes.{read_prefix};
ghost use Rattle.explanation.specs.Queries.{Answers, Placed, fault_of};

use layout::layout::Layout;
use layout::named::named;
use layout::prefix::{Prefix, PrefixFault};
use layout::width::Width;
use lines::prefix::parse_prefix;
use notation::split::split_once;

#[derive(Clone, Copy)]
pub struct Query {
    pub layout: Layout,
    pub prefix: Prefix,
}

// Why a line is no query.
#[derive(Clone, Copy, PartialEq, Eq, Debug)]
pub enum LineFault {
    Unreadable,
    UnknownList,
    LengthBeyondWidth,
    BitsAfterLength,
}

impl From<PrefixFault> for LineFault {
    ghost from_gives = { λ fault result. result ≡ fault_of fault };

    fn from(fault: PrefixFault) -> LineFault {
        match fault {
            PrefixFault::AddressBeyondWidth => LineFault::Unreadable,
            PrefixFault::LengthBeyondWidth => LineFault::LengthBeyondWidth,
            PrefixFault::BitsAfterLength => LineFault::BitsAfterLength,
        }
    }
}

// The query that the line is, or what is wrong with it.
pub fn read_query(line: &[u8]) -> Result<Query, LineFault>
    ensures { Answers line.now result }
{
    let (name, text) = split_once(line, b" ").ok_or(LineFault::Unreadable)?;
    let layout = layout_named(name).ok_or(LineFault::UnknownList)?;
    let (address, length) = read_prefix(layout.width(), text).ok_or(LineFault::Unreadable)?;
    let prefix = Prefix::new(layout.width(), address, length)?;
    Ok(Query { layout, prefix })
}

fn layout_named(name: &[u8]) -> Option<Layout>
    ensures { MatchOption result (NoName name.now) (λ layout. Placed name.now layout) }
{
    named(std::str::from_utf8(name).ok()?)
}

// The address and the length of `ADDRESS/LENGTH`.
fn read_prefix(width: Width, text: &[u8]) -> Option<(u128, u32)>
    ensures value { result ≡ read_prefix width.bits text.now }
    ensures bound { IfSome result (λ p. p.0 < 2 ^ width.bits) }
{
    parse_prefix(width.bits(), text)
}
