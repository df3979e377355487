// Making a prefix, its parts, and what it covers.
ghost use Rattle.std.specs.Prelude.{◌≡◌, ◌↔◌, IsTrue};
ghost use Rattle.layout.specs.Prefixes.{Covered, Made};

use crate::prefix::{Prefix, PrefixFault};
use crate::width::Width;

impl Prefix {
    // The prefix, or the first fault in it.
    pub fn new(width: Width, address: u128, length: u32) -> Result<Prefix, PrefixFault>
        ensures { Made width address length result }
    {
        let bits = u32::from(width.bits());
        if bits < 128 && address >> bits != 0 {
            return Err(PrefixFault::AddressBeyondWidth);
        }
        if length > bits {
            return Err(PrefixFault::LengthBeyondWidth);
        }
        let length = length as u8;
        if width.round(address, length) != address {
            return Err(PrefixFault::BitsAfterLength);
        }
        Ok(Prefix {
            width,
            address,
            length,
        })
    }

    pub fn width(&self) -> Width
        ensures { result ≡ self.now.width }
    {
        self.width
    }

    pub fn address(&self) -> u128
        ensures { result ≡ self.now.address }
    {
        self.address
    }

    pub fn length(&self) -> u8
        ensures { result ≡ self.now.length }
    {
        self.length
    }

    // Whether the address, rounded to the prefix's length, is the prefix. (`covers` of crate `family` is the same over that
    // family's own rounding; either is one line.)
    pub fn covers(&self, address: u128) -> bool
        ensures { IsTrue result ↔ Covered self.now address }
    {
        let rounded = self.width.round(address, self.length);
        rounded == self.address
    }
}
