// Prefixes over any address family, their buckets and their digests.
ghost use Rattle.std.specs.Prelude.{◌≡◌, ◌^◌, ◌<◌, ◌↔◌, IsTrue};
ghost use Rattle.layout.specs.Addresses.{IsPrefix, Covers};
ghost use Rattle.layout.specs.Admission.{colony, digest};
ghost use Rattle.family.specs.Laws.{Laws};

use crate::family::Family;
use gf2::generator::Generator;

// What holds in every family.
pub fn family_laws<F: Family>()
    ensures { Laws F.wide F.number F.cleared }
{}

// Whether address/length is a prefix: the length is at most the width, and every bit after it is zero.
pub fn is_prefix<F: Family>(address: F, length: u8) -> bool
    ensures test { IsTrue result ↔ IsPrefix F.wide (F.number address) length }
    ensures fits { F.number address < 2 ^ F.wide }
{
    let bits = address.bits();
    length <= F::width().bits() && address.round(length).bits() == bits
}

// Whether the address, rounded to the length, is the prefix.
pub fn covers<F: Family>(prefix: F, length: u8, address: F) -> bool
    ensures { IsTrue result ↔ Covers F.wide (F.number prefix) length (F.number address) }
{
    address.round(length).same(prefix)
}

// The number of the bucket in which a route to the address stands under the tread. It goes by the family's own rounding and
// division, as the digest does, so that a family with a faster body for either has it here too.
pub fn colony<F: Family>(address: F, generator: &Generator, tread: u8) -> u32
    ensures { result ≡ colony F.wide generator.now (F.number address) tread }
{
    address.round(tread).divide(generator).remainder
}

// What its entry holds there.
pub fn digest<F: Family>(address: F, generator: &Generator, tread: u8) -> u128
    ensures { result ≡ digest F.wide generator.now (F.number address) tread }
{
    let whole = address.divide(generator);
    whole.quotient ^ whole.remainder as u128 ^ colony(address, generator, tread) as u128
}
