// IPv6: addresses of 128 bits.
ghost use Rattle.layout.specs.Addresses.{rounded};
ghost use Rattle.std.specs.Prelude.{◌≡◌, ◌%◌, ◌^◌, refl};
ghost use Rattle.std.proofs.Common.{lit≤};
ghost use Rattle.family.specs.Families.{laws_of};

use crate::family::Family;
use layout::width::Width;

#[derive(Clone, Copy, PartialEq, Eq, Debug)]
pub struct Ipv6Address(pub u128);

impl Ipv6Address {
    // The address of a number's last 128 bits.
    pub fn from_bits(bits: u128) -> Ipv6Address
        ensures { result.0 ≡ bits % 2 ^ 128 }
    {
        Ipv6Address(bits)
    }
}

impl Family for Ipv6Address {
    ghost wide = { 128 };

    ghost number = { λ a. a.0 };

    ghost cleared = { λ a l. record { 0 = rounded 128 l a.0 } };

    ghost laws = { laws_of 128 (λ a. a.0) (λ n. record { 0 = n }) (lit≤ tt, lit≤ tt, refl) (λ n. refl) (λ a. refl) };

    fn width() -> Width {
        Width::IPV6
    }

    fn bits(self) -> u128 {
        self.0
    }

    #[tactic(auto, using(crate::proofs::Rounded::rounded_fits))]
    fn round(self, length: u8) -> Ipv6Address {
        Ipv6Address::from_bits(Self::width().round(self.bits(), length))
    }
}
