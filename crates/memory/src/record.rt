// Places kept in records.
ghost use Rattle.std.specs.Prelude.{◌≡◌, Some};
ghost use Rattle.memory.specs.Records.{record_encoding, record_of};
ghost use Rattle.std.proofs.Common.{rules};

use crate::encoded::Encoded;
use crate::slice_store::SliceStore;
use store::place::Entry;

// The fields of an entry, and whether there is one.
#[derive(Clone, Copy, PartialEq, Eq, Hash, Debug, Default)]
pub struct Record {
    pub digest: u128,
    pub hop: u16,
    pub length: u8,
    pub tread: u8,
    // 1 where an entry stands here, and any other number where there is nothing; no `bool` and no `Option`, since memory
    // that comes from outside may hold any byte, and each has to mean something
    pub occupied: u8,
}

// A store over the caller's records.
pub type RecordStore<'a> = SliceStore<'a, Record>;

impl Encoded for Record {
    ghost encoding = { record_encoding };

    ghost restores = { Prim.search rules };

    fn digest_bits() -> u32 {
        124
    }

    fn decode(self) -> Option<Entry> {
        if self.occupied != 1 {
            return None;
        }
        Some(Entry {
            digest: self.digest,
            hop: self.hop,
            length: self.length,
            tread: self.tread,
        })
    }

    fn encode(content: Option<Entry>) -> Record {
        content.map(Record::from).unwrap_or_default()
    }
}

// The record of an entry.
impl From<Entry> for Record {
    ghost from_gives = { λ entry made. made ≡ record_of (Some entry) };

    fn from(entry: Entry) -> Record {
        Record {
            digest: entry.digest,
            hop: entry.hop,
            length: entry.length,
            tread: entry.tread,
            occupied: 1,
        }
    }
}
