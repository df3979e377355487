// Places kept in 64-bit words.
ghost use Rattle.std.specs.Prelude.{◌≡◌, ◌+◌, ◌*◌, ◌/◌, ◌%◌, ◌^◌, ◌<◌, ◌≤◌};
ghost use Rattle.memory.specs.Words.{word_of_entry, word_encoding};
ghost use Rattle.std.proofs.Common.{rules};

use crate::encoded::Encoded;
use crate::slice_store::SliceStore;
use store::place::Entry;

// A store over the caller's words.
pub type WordStore<'a> = SliceStore<'a, u64>;

// At which bit each field begins, and how many it has:
//
//  63       55 54 53      46 45     40 39       28 27             0
// +-----------+--+----------+---------+-----------+----------------+
// | written 0 | 1|  length  |  tread  |    hop    |     digest     |
// +-----------+--+----------+---------+-----------+----------------+
const DIGEST: Field = Field { at: 0, bits: 28 };

const HOP: Field = Field { at: 28, bits: 12 };

const TREAD: Field = Field { at: 40, bits: 6 };

const LENGTH: Field = Field { at: 46, bits: 8 };

// set in every word that is an entry
const OCCUPIED: Field = Field { at: 54, bits: 1 };

// Bits of a word, one after the other from bit `at` on.
#[derive(Clone, Copy)]
struct Field {
    at: u32,
    bits: u32,
    ghost not_empty: { 0 < bits },
    ghost not_all: { bits < 64 },
    ghost inside: { at + bits ≤ 64 },
}

impl Field {
    // What stands in the field.
    fn read(self, word: u64) -> u64
        ensures { result ≡ word / 2 ^ self.at % 2 ^ self.bits }
    {
        (word >> self.at) % (1 << self.bits)
    }

    // A word of which the field holds the value, cut to its bits, and the other bits are 0.
    fn word(self, value: u64) -> u64
        ensures { result ≡ value % 2 ^ self.bits * 2 ^ self.at }
    {
        (value % (1 << self.bits)) << self.at
    }
}

impl Encoded for u64 {
    ghost encoding = { word_encoding };

    ghost restores = { Prim.search rules };

    fn digest_bits() -> u32 {
        DIGEST.bits
    }

    fn decode(self) -> Option<Entry> {
        if OCCUPIED.read(self) == 0 {
            return None;
        }
        Some(Entry {
            digest: u128::from(DIGEST.read(self)),
            hop: HOP.read(self) as u16,
            length: LENGTH.read(self) as u8,
            tread: TREAD.read(self) as u8,
        })
    }

    fn encode(content: Option<Entry>) -> u64 {
        content.map_or(0, word_of)
    }
}

fn word_of(entry: Entry) -> u64
    ensures { result ≡ word_of_entry entry }
{
    DIGEST.word((entry.digest % (1 << DIGEST.bits)) as u64)
        + HOP.word(u64::from(entry.hop))
        + TREAD.word(u64::from(entry.tread))
        + LENGTH.word(u64::from(entry.length))
        + OCCUPIED.word(1)
}
