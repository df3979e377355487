// IPv4: addresses of 32 bits.
ghost use Rattle.layout.specs.Addresses.{rounded};
ghost use Rattle.std.specs.Prelude.{◌≡◌, ◌%◌, ◌^◌, refl};
ghost use Rattle.std.proofs.Common.{lit≤};
ghost use Rattle.family.specs.Families.{laws_of};

use crate::family::Family;
use layout::width::Width;

#[derive(Clone, Copy, PartialEq, Eq, Debug)]
pub struct Ipv4Address(pub u32);

impl Ipv4Address {
    // The address of a number's last 32 bits.
    pub fn from_bits(bits: u128) -> Ipv4Address
        ensures { result.0 ≡ bits % 2 ^ 32 }
    {
        Ipv4Address((bits % (1 << 32)) as u32)
    }
}

impl Family for Ipv4Address {
    ghost wide = { 32 };

    ghost number = { λ a. a.0 };

    ghost cleared = { λ a l. record { 0 = rounded 32 l a.0 } };

    ghost laws = { laws_of 32 (λ a. a.0) (λ n. record { 0 = n }) (lit≤ tt, lit≤ tt, refl) (λ n. refl) (λ a. refl) };

    fn width() -> Width {
        Width::IPV4
    }

    fn bits(self) -> u128 {
        u128::from(self.0)
    }

    #[tactic(auto, using(crate::proofs::Rounded::rounded_fits))]
    fn round(self, length: u8) -> Ipv4Address {
        Ipv4Address::from_bits(Self::width().round(self.bits(), length))
    }
}
