// IPv6 addresses written as RFC 5952, sections 4 and 5, recommends.
ghost use Rattle.std.specs.Prelude.{◌≡◌, ◌/◌, ◌%◌, ◌^◌, ◌<◌, Some};
ghost use Rattle.std.specs.Option.{option_map};
ghost use Rattle.std.specs.Bool.{then_some};
ghost use Rattle.std.specs.Fmt.{WritesOnOk};
ghost use Rattle.notation.specs.Ipv6Text.{groups_of, groups_text, is_mapped, text6};

use crate::hex::write_groups;
use crate::ipv4::Ipv4Text;
use crate::zero_run::shortened_run;
use std::fmt;
use std::net::Ipv6Addr;

// An address that is written with lower-case digits, no leading zeros, and `::` for the longest run of zeros.
#[derive(Clone, Copy, PartialEq, Eq, Debug)]
pub struct Ipv6Text(pub u128);

impl Ipv6Text {
    // The IPv4 address that an address of ::ffff:0:0/96 holds.
    fn mapped_ipv4(&self) -> Option<Ipv4Text>
        ensures { option_map (λ x. x.0) result ≡ then_some (is_mapped self.now.0) (self.now.0 % 2 ^ 32) }
    {
        let is_mapped = self.0 / (1 << 32) == 0xffff;
        is_mapped.then_some(Ipv4Text((self.0 % (1 << 32)) as u32))
    }
}

impl fmt::Display for Ipv6Text {
    ghost output = { λ x. Some (text6 x.0) };

    fn fmt<W: fmt::Write>(&self, f: &mut fmt::Formatter<W>) -> fmt::Result {
        match self.mapped_ipv4() {
            Some(address) => write!(f, "::ffff:{address}"),
            None => write_shortened(&groups_of(self.0), f),
        }
    }
}

// Writes groups with colons between, and `::` for the longest run of two zeros or more.
fn write_shortened<W: fmt::Write>(groups: &[u16], f: &mut fmt::Formatter<W>) -> fmt::Result
    ensures { WritesOnOk W.write_str_gives f.old result (groups_text groups.now) f.new }
{
    match shortened_run(groups) {
        None => write_groups(groups, f),
        Some(run) => {
            write_groups(&groups[..run.start], f)?;
            f.write_str("::")?;
            write_groups(&groups[run.end..], f)
        }
    }
}

// The eight groups, the most significant first.
fn groups_of(address: u128) -> [u16; 8]
    ensures { result ≡ groups_of 8 address }
{
    Ipv6Addr::from_bits(address).segments()
}
