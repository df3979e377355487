// Stores run against a plain list of their places: records, words and nestings of interleaves.
use memory::encoded::Encoded;
use memory::record::{Record, RecordStore};
use memory::word::WordStore;
use std::mem::size_of;
use std::process::Abort;
use std::test::Fail;
use store::bucket_store::BucketStore;
use store::clear::clear;
use store::interleave::Interleave;
use store::place::{Entry, NoPlace, Place};
use store::shape::{Shape, WriteRefusal};

const ENTRY: Entry = Entry {
    digest: 0x0AB_CDEF,
    hop: 0x123,
    length: 24,
    tread: 5,
};

// The layout of a word, field by field, at the largest and the smallest.
#[test]
fn words(rt: HostRuntime) {
    let zero = Entry {
        digest: 0,
        hop: 0,
        length: 0,
        tread: 0,
    };
    for (entry, word) in [
        (zero, 1 << 54),
        (
            Entry {
                digest: 0xFFF_FFFF,
                ..zero
            },
            0x0040_0000_0FFF_FFFF,
        ),
        (Entry { hop: 4095, ..zero }, 0x0040_00FF_F000_0000),
        (Entry { tread: 39, ..zero }, 0x0040_2700_0000_0000),
        (
            Entry {
                length: 128,
                ..zero
            },
            0x0060_0000_0000_0000,
        ),
        (ENTRY, 0x0046_0512_30AB_CDEF),
    ] {
        assert_eq!(rt; <u64 as Encoded>::encode(Some(entry)), word);
        assert_eq!(rt; word.decode(), Some(entry));
    }
    assert_eq!(rt; <u64 as Encoded>::encode(None), 0);
    // bits above the mark are not read, and without the mark there is nothing
    assert_eq!(rt; 0xFFC6_0512_30AB_CDEFu64.decode(), Some(ENTRY));
    assert_eq!(rt; 0xFF86_0512_30AB_CDEFu64.decode(), None);
}

// What a record takes: its fields side by side, and padding to the digest's alignment.
#[test]
fn records(rt: HostRuntime) {
    assert_eq!(rt; size_of::<Record>(), 32);
    let record = <Record as Encoded>::encode(Some(ENTRY));
    assert_eq!(rt; record.occupied, 1);
    assert_eq!(rt; record.decode(), Some(ENTRY));
    for occupied in [0, 2, 255] {
        assert_eq!(rt; Record { occupied, ..record }.decode(), None);
    }
    assert_eq!(rt; <Record as Encoded>::encode(None), BLANK);
}

// The places of a shape, in order.
#[test]
fn places(rt: HostRuntime) {
    let shape = Shape {
        buckets: 2,
        slots: 3,
        digest_bits: 28,
    };
    let mut places = shape.places();
    for (bucket, slot) in [(0, 0), (0, 1), (0, 2), (1, 0), (1, 1), (1, 2)] {
        assert_eq!(rt; places.next(), Some(Place { bucket, slot }));
    }
    assert_eq!(rt; places.next(), None);
    for (buckets, slots, count) in [(65_536, 8, 524_288), (0, 3, 0), (3, 0, 0), (0, 0, 0)] {
        let shape = Shape {
            buckets,
            slots,
            ..shape
        };
        assert_eq!(rt; shape.places().count(), count);
    }
}

// Places, missing places and refusals in words.
#[test]
fn texts(rt: HostRuntime) -> Result<(), Fail> {
    let place = Place {
        bucket: 0xD552,
        slot: 3,
    };
    assert!(rt; place.to_string(rt.alloc())?.as_str() == "bucket 0xd552, slot 3");
    assert!(rt; NoPlace.to_string(rt.alloc())?.as_str() == "there is no such place");
    for (refusal, text) in [
        (WriteRefusal::from(NoPlace), "it has no such place"),
        (WriteRefusal::DigestTooWide, "the digest is too wide"),
        (WriteRefusal::LengthTooLong, "the length is above 128"),
        (WriteRefusal::TreadTooHigh, "the tread number is above 39"),
        (WriteRefusal::HopTooHigh, "the hop number is above 4095"),
    ] {
        assert!(rt; refusal.to_string(rt.alloc())?.as_str() == text);
    }
    Ok(())
}

// Memory that S slots fill, and memory that they do not.
#[test]
fn shapes(rt: HostRuntime) -> Result<(), Fail> {
    for (words, slots, buckets, kept) in [
        (12, 3, 4, 3),
        (12, 5, 0, 0),
        (12, 0, 0, 0),
        (18, 9, 0, 0),
        (8, 8, 1, 8),
        (0, 4, 0, 4),
        (0, 0, 0, 0),
        (65_536, 1, 65_536, 1),
        (65_537, 1, 0, 0),
        (131_072, 2, 65_536, 2),
        (131_074, 2, 0, 0),
    ] {
        let mut memory = vec![in rt.alloc(); 0u64; words]?;
        let store = WordStore::new(&mut memory, slots);
        let shape = Shape {
            buckets,
            slots: kept,
            digest_bits: 28,
        };
        assert_eq!(rt; store.shape(), shape);
        assert_eq!(rt;
            store.read(Place {
                bucket: buckets,
                slot: 0,
            }),
            Err(NoPlace)
        );
    }
    Ok(())
}

// The next of a fixed sequence of numbers without visible order.
fn next(seed: u64) -> u64 {
    seed.wrapping_mul(6_364_136_223_846_793_005)
        .wrapping_add(1_442_695_040_888_963_407)
}

// A number below the limit from the high bits of the seed, which are the better ones.
fn below(seed: u64, limit: u64) -> u32 {
    if limit == 0 || limit > 1 << 31 {
        return 0;
    }
    ((seed >> 33) % limit) as u32
}

// What a write should answer.
fn expected(shape: Shape, place: Place, content: Option<Entry>) -> Result<(), WriteRefusal> {
    if place.bucket >= shape.buckets || place.slot >= shape.slots {
        return Err(WriteRefusal::NoPlace);
    }
    let Some(entry) = content else {
        return Ok(());
    };
    if shape.digest_bits == 28 && entry.digest > 0x0FFF_FFFF
        || shape.digest_bits == 124 && entry.digest > 0x0FFF_FFFF_FFFF_FFFF_FFFF_FFFF_FFFF_FFFF
    {
        return Err(WriteRefusal::DigestTooWide);
    }
    match (entry.length > 128, entry.tread > 39, entry.hop > 4095) {
        (true, _, _) => Err(WriteRefusal::LengthTooLong),
        (_, true, _) => Err(WriteRefusal::TreadTooHigh),
        (_, _, true) => Err(WriteRefusal::HopTooHigh),
        _ => Ok(()),
    }
}

const DIGESTS: [u128; 8] = [
    0,
    0x0AB_CDEF,
    0x0FFF_FFFF,
    0x1000_0000,
    0x0FFF_FFFF_FFFF_FFFF_FFFF_FFFF_FFFF_FFFF,
    0x1000_0000_0000_0000_0000_0000_0000_0000,
    u128::MAX,
    1,
];

const LENGTHS: [u8; 4] = [0, 24, 128, 129];

const TREADS: [u8; 4] = [0, 3, 39, 40];

const HOPS: [u16; 4] = [0, 7, 4095, 4096];

// Nothing one time in four, and otherwise an entry, at or just beyond the limits now and then.
fn drawn(seed: u64) -> Option<Entry> {
    if seed >> 62 == 0 {
        return None;
    }
    Some(Entry {
        digest: DIGESTS[(seed >> 40) as usize % 8],
        hop: HOPS[(seed >> 44) as usize % 4],
        length: LENGTHS[(seed >> 47) as usize % 4],
        tread: TREADS[(seed >> 50) as usize % 4],
    })
}

// Writes to the store and to a list of its places, and compares every place after each.
fn compare<S: BucketStore>(
    rt: &(impl Abort + AllocGlobal),
    store: &mut S,
    shape: Shape,
) -> Result<(), Fail> {
    assert_eq!(rt; store.shape(), shape);
    clear(store);
    let mut model = vec![in rt.alloc(); None; 256]?;
    let mut seed = 1;
    for _ in 0..400 {
        seed = next(seed);
        let place = Place {
            bucket: below(seed, shape.buckets as u64 + 1),
            slot: below(seed << 8, shape.slots as u64 + 1),
        };
        let content = drawn(next(seed));
        let answer = store.write(place, content);
        assert_eq!(rt; answer, expected(shape, place, content));
        let at = place.position(shape.slots);
        if answer.is_ok() && at < model.len() {
            model[at] = content;
        }
        same_places(rt, store, shape, model.as_slice());
    }
    clear(store);
    let empty = vec![in rt.alloc(); None; 256]?;
    same_places(rt, store, shape, empty.as_slice());
    Ok(())
}

fn same_places<S: BucketStore>(rt: &impl Abort, store: &S, shape: Shape, model: &[Option<Entry>]) {
    // by two ranges, not by the iterator over places that is tested here too
    for bucket in 0..=shape.buckets {
        for slot in 0..=shape.slots {
            let place = Place { bucket, slot };
            if bucket < shape.buckets && slot < shape.slots {
                let at = place.position(shape.slots);
                assert!(rt; at < model.len());
                assert_eq!(rt; store.read(place), Ok(model[at]));
            } else {
                assert_eq!(rt; store.read(place), Err(NoPlace));
            }
        }
    }
}

const BLANK: Record = Record {
    digest: 0,
    hop: 0,
    length: 0,
    tread: 0,
    occupied: 0,
};

// What memory may hold before a store is made over it.
const ANY: Record = Record {
    digest: u128::MAX,
    hop: u16::MAX,
    length: u8::MAX,
    tread: u8::MAX,
    occupied: 1,
};

#[test]
fn records_and_words(rt: HostRuntime) -> Result<(), Fail> {
    let mut records = [ANY; 12];
    let shape = Shape {
        buckets: 4,
        slots: 3,
        digest_bits: 124,
    };
    compare(&rt, &mut RecordStore::new(&mut records, 3), shape)?;
    let mut words = [u64::MAX; 12];
    let shape = Shape {
        buckets: 6,
        slots: 2,
        digest_bits: 28,
    };
    compare(&rt, &mut WordStore::new(&mut words, 2), shape)
}

// An interleave of interleaves, of words and records by turns.
#[test]
fn interleaves(rt: HostRuntime) -> Result<(), Fail> {
    let mut first = [u64::MAX; 12];
    let mut second = [ANY; 12];
    let mut third = [ANY; 12];
    let mut fourth = [ANY; 12];
    let mut store = Interleave::new(
        Interleave::new(
            WordStore::new(&mut first, 3),
            RecordStore::new(&mut second, 3),
        ),
        Interleave::new(
            RecordStore::new(&mut third, 3),
            RecordStore::new(&mut fourth, 3),
        ),
    );
    let shape = Shape {
        buckets: 16,
        slots: 3,
        digest_bits: 28,
    };
    compare(&rt, &mut store, shape)
}

// Halves that do not go together have no buckets, and the slots of the first.
#[test]
fn unequal_halves(rt: HostRuntime) -> Result<(), Fail> {
    let mut first = [0; 12];
    let mut second = [0; 12];
    let mut store = Interleave::new(
        WordStore::new(&mut first, 3),
        WordStore::new(&mut second, 4),
    );
    let shape = Shape {
        buckets: 0,
        slots: 3,
        digest_bits: 28,
    };
    compare(&rt, &mut store, shape)?;
    for (buckets, doubled) in [(32_768, 65_536), (32_769, 0)] {
        let mut first = vec![in rt.alloc(); 0u64; buckets]?;
        let mut second = vec![in rt.alloc(); 0u64; buckets]?;
        let store = Interleave::new(
            WordStore::new(&mut first, 1),
            WordStore::new(&mut second, 1),
        );
        assert_eq!(rt; store.shape().buckets, doubled);
    }
    Ok(())
}

// Bucket 5 of an interleave is bucket 2 of the second store, and its slot 1 stands at element 2 × 3 + 1.
#[test]
fn the_word_in_memory(rt: HostRuntime) {
    let mut first = [0; 12];
    let mut second = [0; 12];
    {
        let mut store = Interleave::new(
            WordStore::new(&mut first, 3),
            WordStore::new(&mut second, 3),
        );
        let place = Place { bucket: 5, slot: 1 };
        assert_eq!(rt; store.write(place, Some(ENTRY)), Ok(()));
    }
    for word in first {
        assert_eq!(rt; word, 0);
    }
    for (i, word) in second.iter().enumerate() {
        assert_eq!(rt; *word, if i == 7 { 0x0046_0512_30AB_CDEF } else { 0 });
    }
}
