// Every occupied place of a store over words, with its word and what the word holds.
ghost use Rattle.std.specs.Prelude.{◌≡◌, IfOk, Some, string_bytes};
ghost use Rattle.placement.specs.Listings.{occupied_text, occupied_at, lines_of, listing_of};

use memory::encoded::Encoded;
use memory::word::WordStore;
use notation::hex::HexText;
use std::alloc::{AllocError, Global};
use std::fmt;
use store::bucket_store::BucketStore;
use store::place::{Entry, Place};
use store::places::Places;

#[derive(Clone, Copy, PartialEq, Eq, Debug)]
pub struct Occupied {
    pub place: Place,
    pub word: u64,
    // what the word holds
    pub entry: Entry,
}

impl fmt::Display for Occupied {
    ghost output = { λ x. Some (occupied_text x) };

    fn fmt<W: fmt::Write>(&self, f: &mut fmt::Formatter<W>) -> fmt::Result {
        let Occupied { place, word, entry } = *self;
        let (length, tread, hop) = (entry.length, entry.tread, entry.hop);
        let digest = HexText(entry.digest);
        write!(
            f,
            "{place}: word 0x{word:x}: length {length}, tread {tread}, digest 0x{digest}, hop {hop}"
        )
    }
}

// The occupied places in order of bucket and then slot, each on a line.
pub fn listing(heap: Global, store: &WordStore) -> Result<String, AllocError>
    ensures { IfOk result (λ s. string_bytes s ≡ listing_of store.now) }
{
    lines(heap, store, store.shape().places())
}

// The lines of those places that are occupied.
fn lines(heap: Global, store: &WordStore, places: Places) -> Result<String, AllocError>
    ensures { IfOk result (λ s. string_bytes s ≡ lines_of store.now places) }
{
    let mut text = String::new(heap);
    for occupied in places.filter_map(|place| occupant(store, place)) {
        writeln!(text, "{occupied}")?;
    }
    Ok(text)
}

// What stands at the place.
fn occupant(store: &WordStore, place: Place) -> Option<Occupied>
    ensures { result ≡ occupied_at store.now place }
{
    let word = store.element(place)?;
    let entry = word.decode()?;
    Some(Occupied { place, word, entry })
}
