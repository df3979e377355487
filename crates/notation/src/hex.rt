// Numbers written in hexadecimal, and groups of them as an IPv6 address has them.
ghost use Rattle.std.specs.Prelude.{◌≡◌, ◌<◌, Some};
ghost use Rattle.std.specs.Char.{digit_char};
ghost use Rattle.std.specs.Fmt.{WritesOnOk};
ghost use Rattle.notation.specs.Hexadecimal.{hex};
ghost use Rattle.notation.specs.Ipv6Text.{colons};

use std::fmt;

// A number that is written in lower case without leading zeros. `{:x}` promises nothing of a `u128`.
#[derive(Clone, Copy, PartialEq, Eq, Debug)]
pub struct HexText(pub u128);

impl fmt::Display for HexText {
    ghost output = { λ x. Some (hex x.0) };

    fn fmt<W: fmt::Write>(&self, f: &mut fmt::Formatter<W>) -> fmt::Result {
        write_hex(self.0, f)
    }
}

// Writes groups with colons between.
#[tactic(auto, using(crate::proofs::HexText::colons_last))]
pub(crate) fn write_groups<W: fmt::Write>(groups: &[u16], f: &mut fmt::Formatter<W>) -> fmt::Result
    ensures { WritesOnOk W.write_str_gives f.old result (colons groups.now) f.new }
{
    match groups {
        [] => Ok(()),
        [last] => write!(f, "{last:x}"),
        [first, rest @ ..] => {
            write!(f, "{first:x}:")?;
            write_groups(rest, f)
        }
    }
}

// Writes a number in lower case without leading zeros.
fn write_hex<W: fmt::Write>(n: u128, f: &mut fmt::Formatter<W>) -> fmt::Result
    ensures { WritesOnOk W.write_str_gives f.old result (hex n) f.new }
{
    if n >= 16 {
        write_hex(n / 16, f)?;
    }
    f.write_char(digit(n % 16))
}

fn digit(n: u128) -> char
    requires { n < 16 }
    ensures { result ≡ digit_char n }
{
    char::from_digit(n as u32, 16).unwrap()
}
