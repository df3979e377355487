// A prefix: an address of some width and a length, with all bits after the first `length` zero.
ghost use Rattle.layout.specs.Addresses.{IsPrefix};

use crate::width::Width;

mod colonies;
mod methods;

#[derive(Clone, Copy, PartialEq, Eq, Debug)]
pub struct Prefix {
    width: Width,
    address: u128,
    length: u8,
    ghost prefix: { IsPrefix width.bits address length },
}

// Why there is no such prefix.
#[derive(Clone, Copy, PartialEq, Eq, Debug)]
pub enum PrefixFault {
    AddressBeyondWidth,
    LengthBeyondWidth,
    BitsAfterLength,
}
