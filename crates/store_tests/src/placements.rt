// Prefixes placed by hand: whole replies, a listing, and a placer over interleaves of interleaves.
use family::ipv4::Ipv4Address;
use family::prefixes::{colony, digest};
use layout::named::ListName;
use memory::word::WordStore;
use placement::listing::listing;
use placement::placer::{PlaceFault, Placer};
use placement::placing::Placing;
use placement::text::AnswerText;
use std::test::Fail;
use store::bucket_store::BucketStore;
use store::interleave::Interleave;
use store::place::{Entry, Place};
use store::shape::WriteRefusal;

#[test]
fn lines(rt: HostRuntime) -> Result<(), Fail> {
    let layout = ListName::V4Small.layout();
    let mut words = [u64::MAX; 1024];
    let mut placer = Placer::new(layout, WordStore::new(&mut words, 4));
    for (line, text) in [
        ("10.0.0.0/24 20 1 7", "bucket 0xf, slot 1: written"),
        (
            "10.0.0.0/24 20 4 7",
            "refused by the store: it has no such place",
        ),
        ("10.0.0.0/24 21 1 7", "the list has no such tread"),
        ("10.0.0.0/16 20 1 7", "the tread is longer than the prefix"),
        (
            "10.0.0.0/33 20 1 7",
            "the length is beyond the width of the address",
        ),
    ] {
        let answer = AnswerText(placer.answer(line.as_bytes()));
        assert!(rt; answer.to_string(rt.alloc())?.as_str() == text);
    }
    let text = listing(rt.alloc(), placer.store())?;
    assert!(rt;
        text.as_str()
            == "bucket 0xf, slot 1: word 0x460300700adacb: length 24, tread 3, digest 0xadacb, hop 7\n"
    );
    Ok(())
}

// The entry stands where the placer said, in an interleave of four stores of words.
#[test]
fn nested_interleaves(rt: HostRuntime) -> Result<(), Fail> {
    let layout = ListName::V4Small.layout();
    let mut first = [u64::MAX; 256];
    let mut second = [u64::MAX; 256];
    let mut third = [u64::MAX; 256];
    let mut fourth = [u64::MAX; 256];
    let store = Interleave::new(
        Interleave::new(
            WordStore::new(&mut first, 4),
            WordStore::new(&mut second, 4),
        ),
        Interleave::new(
            WordStore::new(&mut third, 4),
            WordStore::new(&mut fourth, 4),
        ),
    );
    let mut placer = Placer::new(layout, store);
    let generator = layout.generator();
    for (number, tread) in [(0, 0), (1, 8), (2, 16), (3, 20), (4, 24)] {
        for address in [0x0A14_1E00, 0xC0A8_0100, 0x0A44_0300] {
            let address = Ipv4Address(address);
            let placing = Placing {
                address,
                length: 24,
                tread: tread as u32,
                slot: 2,
                hop: 9,
            };
            let place = Place {
                bucket: colony(address, &generator, tread),
                slot: 2,
            };
            assert_eq!(rt; placer.place(placing), Ok(place));
            let entry = Entry {
                digest: digest(address, &generator, tread),
                hop: 9,
                length: 24,
                tread: number,
            };
            assert_eq!(rt; placer.store().read(place), Ok(Some(entry)));
            let refused = Placing { slot: 4, ..placing };
            assert_eq!(rt;
                placer.place(refused),
                Err(PlaceFault::Refused(WriteRefusal::NoPlace))
            );
        }
    }
    Ok(())
}
