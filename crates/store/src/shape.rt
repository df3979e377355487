// The shape of a store, and which writes a store of that shape refuses.
ghost use Rattle.std.specs.Prelude.{◌≡◌, ◌^◌, ◌<◌, ◌↔◌, IsTrue, Some, MatchResult};
ghost use Rattle.store.specs.declared.shape.WriteRefusal.TheVariants.{NoPlace};
ghost use Rattle.store.specs.Shapes.{Inside};
ghost use Rattle.store.specs.Texts.{refusal_text};
ghost use Rattle.store.specs.Writes.{Takes, Refused, Fits, Misfit};

use crate::place::{Entry, NoPlace, Place};
use std::error::Error;
use std::fmt;

#[derive(Clone, Copy, PartialEq, Eq, Hash, Debug)]
pub struct Shape {
    pub buckets: u32,
    // in each bucket
    pub slots: u32,
    // how many bits a digest may have
    pub digest_bits: u32,
}

// Why a write is refused: the first of these that is so.
#[derive(Clone, Copy, PartialEq, Eq, Hash, Debug)]
pub enum WriteRefusal {
    NoPlace,
    DigestTooWide,
    LengthTooLong,
    TreadTooHigh,
    HopTooHigh,
}

impl fmt::Display for WriteRefusal {
    ghost output = { λ x. Some (refusal_text x) };

    fn fmt<W: fmt::Write>(&self, f: &mut fmt::Formatter<W>) -> fmt::Result {
        f.write_str(match self {
            WriteRefusal::NoPlace => "it has no such place",
            WriteRefusal::DigestTooWide => "the digest is too wide",
            WriteRefusal::LengthTooLong => "the length is above 128",
            WriteRefusal::TreadTooHigh => "the tread number is above 39",
            WriteRefusal::HopTooHigh => "the hop number is above 4095",
        })
    }
}

impl Error for WriteRefusal {}

impl From<NoPlace> for WriteRefusal {
    ghost from_gives = { λ _ refusal. refusal ≡ NoPlace };

    fn from(_missing: NoPlace) -> WriteRefusal {
        WriteRefusal::NoPlace
    }
}

// No store has more buckets, or more slots in one.
pub const MAX_BUCKETS: u32 = 65_536;

pub const MAX_SLOTS: u32 = 8;

// No store takes an entry with more.
pub const MAX_LENGTH: u8 = 128;

pub const MAX_TREAD: u8 = 39;

pub const MAX_HOP: u16 = 4_095;

impl Shape {
    // Whether the place is one of the store's.
    pub fn has(&self, place: Place) -> bool
        ensures { IsTrue result ↔ Inside self.now place.bucket place.slot }
    {
        place.bucket < self.buckets && place.slot < self.slots
    }

    // The same, for `?`.
    pub fn check_place(&self, place: Place) -> Result<(), NoPlace>
        ensures { MatchResult result (λ _. Inside self.now place.bucket place.slot) (λ _. ¬ Inside self.now place.bucket place.slot) }
    {
        if self.has(place) {
            Ok(())
        } else {
            Err(NoPlace)
        }
    }

    // Whether the store takes that content at the place: an entry, or nothing.
    pub fn check_write(&self, place: Place, content: Option<Entry>) -> Result<(), WriteRefusal>
        ensures { MatchResult result (λ _. Takes self.now place.bucket place.slot content) (λ e. Refused self.now place.bucket place.slot content e) }
    {
        self.check_place(place)?;
        match content {
            Some(entry) => self.check_entry(entry),
            None => Ok(()),
        }
    }

    fn check_entry(&self, entry: Entry) -> Result<(), WriteRefusal>
        ensures { MatchResult result (λ _. Fits self.now.digest_bits entry) (λ e. Misfit self.now.digest_bits entry e) }
    {
        if !self.holds_digest(entry.digest) {
            Err(WriteRefusal::DigestTooWide)
        } else if entry.length > MAX_LENGTH {
            Err(WriteRefusal::LengthTooLong)
        } else if entry.tread > MAX_TREAD {
            Err(WriteRefusal::TreadTooHigh)
        } else if entry.hop > MAX_HOP {
            Err(WriteRefusal::HopTooHigh)
        } else {
            Ok(())
        }
    }

    fn holds_digest(&self, digest: u128) -> bool
        ensures { IsTrue result ↔ (digest < 2 ^ self.now.digest_bits) }
    {
        self.digest_bits >= 128 || digest >> self.digest_bits == 0
    }
}
