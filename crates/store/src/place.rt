// The places of a store, and what may stand there.
ghost use Rattle.std.specs.Prelude.{◌≡◌, ◌+◌, ◌*◌, Some};
ghost use Rattle.store.specs.Texts.{place_text, no_place_text};

use std::error::Error;
use std::fmt;

// A slot of a bucket, both counted from 0.
#[derive(Clone, Copy, PartialEq, Eq, Hash, Debug)]
pub struct Place {
    pub bucket: u32,
    pub slot: u32,
}

impl Place {
    // How many places come before it, where each bucket has that many slots.
    pub fn position(&self, slots: u32) -> usize
        ensures { result ≡ self.now.bucket * slots + self.now.slot }
    {
        self.bucket as usize * slots as usize + self.slot as usize
    }
}

impl fmt::Display for Place {
    ghost output = { λ x. Some (place_text x) };

    fn fmt<W: fmt::Write>(&self, f: &mut fmt::Formatter<W>) -> fmt::Result {
        let Place { bucket, slot } = *self;
        write!(f, "bucket 0x{bucket:x}, slot {slot}")
    }
}

// What a table keeps of one route. The prefix is not among it: bucket, tread, length and digest tell it.
#[derive(Clone, Copy, PartialEq, Eq, Hash, Debug)]
pub struct Entry {
    // what is left of the prefix beside its bucket
    pub digest: u128,
    // the number of the hop that packets take
    pub hop: u16,
    // the length of the prefix
    pub length: u8,
    // the position, in the table's list of treads, of the tread (a length at which routes may stand) that it stands under
    pub tread: u8,
}

// The store has no such place.
#[derive(Clone, Copy, PartialEq, Eq, Hash, Debug)]
pub struct NoPlace;

impl fmt::Display for NoPlace {
    ghost output = { λ _. Some no_place_text };

    fn fmt<W: fmt::Write>(&self, f: &mut fmt::Formatter<W>) -> fmt::Result {
        f.write_str("there is no such place")
    }
}

impl Error for NoPlace {}
