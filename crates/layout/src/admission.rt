// Where a prefix stands under a tread, and whether prefixes of its length may.
ghost use Rattle.std.specs.Prelude.{◌≡◌, ℕ, ◌-◌, ◌^◌, ◌<◌, ◌≤◌};
ghost use Rattle.layout.specs.Admission.{admitted, keeps_apart, Exact, colony, digest};

use crate::width::Width;
use gf2::generator::Generator;

// The generator is a parameter and no field beside the width: a prefix brings its own width, and a pair's could differ.
impl Width {
    // The number of the bucket in which a prefix with that address stands under the tread.
    pub fn colony(&self, generator: &Generator, address: u128, tread: u8) -> u32
        ensures { result ≡ colony self.now.bits generator.now address tread }
    {
        generator.divide(self.round(address, tread)).remainder
    }

    // What its entry holds there.
    pub fn digest(&self, generator: &Generator, address: u128, tread: u8) -> u128
        ensures { result ≡ digest self.now.bits generator.now address tread }
    {
        let whole = generator.divide(address);
        whole.quotient ^ whole.remainder as u128 ^ self.colony(generator, address, tread) as u128
    }

    // Whether prefixes of that length may stand under the tread: just where no two of them are confused there.
    #[tactic(auto, using(crate::proofs::Exactness::exact))]
    pub fn admits(&self, generator: &Generator, length: u8, tread: u8) -> bool
        ensures value { result ≡ admitted self.now.bits generator.now length tread }
        ensures exact { tread ≤ length → length ≤ self.now.bits → Exact self.now.bits generator.now length tread }
    {
        tread <= length && self.keeps_apart(generator, length, tread)
    }

    // One of three conditions, for a tread that is not longer than the length.
    fn keeps_apart(&self, generator: &Generator, length: u8, tread: u8) -> bool
        requires { tread ≤ length }
        ensures { result ≡ keeps_apart self.now.bits generator.now length tread }
    {
        let bits = self.bits();
        let degree = generator.degree();
        let lowest = generator.lowest();
        let after_tread = bits.saturating_sub(tread) as u32;
        let after_length = bits.saturating_sub(length) as u32;
        let between = (length - tread) as u32;
        (after_tread <= degree) | (degree + lowest <= after_length) | (between <= degree - lowest)
    }

    // How many bits the digests of this width have at most.
    #[tactic(auto, using(crate::proofs::Exactness::digest_lt))]
    pub fn digest_bits(&self, generator: &Generator) -> u8
        ensures value { result ≡ self.now.bits - generator.now.degree }
        ensures bound { (P l : ℕ) → P < 2 ^ self.now.bits → digest self.now.bits generator.now P l < 2 ^ (self.now.bits - generator.now.degree) }
    {
        self.bits() - generator.degree() as u8
    }
}
