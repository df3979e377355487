// The width of the addresses of one family, in bits: a multiple of 8 from 32 to 128.
ghost use Rattle.std.specs.Prelude.{◌≡◌, ◌%◌, ◌≤◌, MatchOption};
ghost use Rattle.layout.specs.Addresses.{IsWidth, rounded};

#[derive(Clone, Copy, PartialEq, Eq, Debug)]
pub struct Width {
    bits: u8,
    ghost is_width: { IsWidth bits },
}

impl Width {
    pub const IPV4: Width = Width { bits: 32 };

    pub const IPV6: Width = Width { bits: 128 };

    // The width of that many bits, or `None` where there is none.
    pub fn new(bits: u8) -> Option<Width>
        ensures { MatchOption result (IsWidth bits → ⊥) (λ w. w.bits ≡ bits) }
    {
        if bits < 32 || bits > 128 || bits % 8 != 0 {
            return None;
        }
        Some(Width { bits })
    }

    pub fn bits(&self) -> u8
        ensures { result ≡ self.now.bits }
    {
        self.bits
    }

    // The address with every bit after its first `length` cleared.
    pub fn round(&self, address: u128, length: u8) -> u128
        ensures { result ≡ rounded self.now.bits length address }
    {
        let after = self.bits.saturating_sub(length);
        if after == 128 {
            return 0;
        }
        (address >> after) << after
    }
}
