// Where a prefix stands under a tread: its bucket, its digest there, and the prefix it would be confused with.
ghost use Rattle.std.specs.Prelude.{◌≡◌, ◌-◌, ◌*◌, ◌%◌, ◌^◌, bit_xor};
ghost use Rattle.layout.specs.Admission.{colony, digest};
ghost use Rattle.layout.specs.Prefixes.{Other};

use crate::prefix::Prefix;
use crate::width::Width;
use gf2::generator::Generator;

impl Prefix {
    // The number of the bucket in which the prefix stands under the tread.
    pub fn colony(&self, generator: &Generator, tread: u8) -> u32
        ensures { result ≡ colony self.now.width.bits generator.now self.now.address tread }
    {
        self.width.colony(generator, self.address, tread)
    }

    // What its entry holds there.
    pub fn digest(&self, generator: &Generator, tread: u8) -> u128
        ensures { result ≡ digest self.now.width.bits generator.now self.now.address tread }
    {
        self.width.digest(generator, self.address, tread)
    }

    // The other prefix of the same length that leaves the same digest in the same bucket, where the tread does not
    // admit the length. A tread longer than the prefix has no colony, so no other prefix is named there.
    pub fn confused_with(&self, generator: &Generator, tread: u8) -> Option<Prefix>
        ensures { Other self.now generator.now tread result }
    {
        if tread > self.length || self.width.admits(generator, self.length, tread) {
            return None;
        }
        Some(Prefix {
            width: self.width,
            address: self.address ^ self.unseen(generator),
            length: self.length,
        })
    }

    // The sum of two confused prefixes of that length: g + 1 times the least power of x that clears the bits after it.
    fn unseen(&self, generator: &Generator) -> u128
        ensures { result ≡ bit_xor generator.now.poly 1 * 2 ^ (self.now.width.bits - self.now.length - generator.now.lowest) % 2 ^ 128 }
    {
        let after = self.width.bits().saturating_sub(self.length) as u32;
        (generator.poly() as u128 ^ 1) << after.saturating_sub(generator.lowest())
    }
}
