// The worked figures as the code gives them, refusals of the check, and confused prefixes looked at one by one.
use gf2::generator::Generator;
use layout::layout::{Layout, LayoutRefusal};
use layout::named::{ListName, UnknownList, named, row_number};
use layout::prefix::{Prefix, PrefixFault};
use layout::treads::{TreadList, is_tread_list};
use layout::width::Width;
use std::test::Fail;

#[test]
fn divisions_and_digests(rt: HostRuntime) -> Result<(), Fail> {
    let generator = Generator::new(0x1100D).ok_or("no generator")?;
    for (address, quotient, remainder) in [
        (0x0001_0000, 1, 0x100D),
        (0x0A00_0000, 0x0AAA, 0xD552),
        (0x0A44_0300, 0x0AEA, 0xD512),
    ] {
        let division = generator.divide(address);
        assert_eq!(rt; division.quotient, quotient);
        assert_eq!(rt; division.remainder, remainder);
    }
    for address in [0x0A00_0000, 0x0A44_0300] {
        let prefix = Prefix::new(Width::IPV4, address, 24)?;
        assert_eq!(rt; prefix.digest(&generator, 8), 0x0AAA);
        assert_eq!(rt; prefix.colony(&generator, 8), 0xD552);
    }
    Ok(())
}

#[test]
fn admissions(rt: HostRuntime) -> Result<(), Fail> {
    let generator = Generator::new(0x1100D).ok_or("no generator")?;
    for (bits, length, tread, admitted) in [
        (32, 24, 10, true),
        (32, 24, 9, false),
        (32, 32, 16, true),
        (32, 32, 15, false),
        (32, 14, 0, true),
        (32, 15, 0, false),
        (128, 110, 0, true),
        (128, 111, 0, false),
        (128, 111, 97, true),
        (128, 111, 96, false),
        (32, 8, 9, false),
    ] {
        let width = Width::new(bits).ok_or("no width")?;
        assert_eq!(rt; width.admits(&generator, length, tread), admitted);
    }
    Ok(())
}

// What the check refuses by, or nothing where it passes.
fn refusal(width: Width, poly: u32, treads: &[u8]) -> Option<LayoutRefusal> {
    Layout::check(width, poly, treads).err()
}

#[test]
fn checks(rt: HostRuntime) {
    let ipv4 = Width::IPV4;
    assert_eq!(rt; refusal(ipv4, 0x1100D, &[0, 15, 16]), None);
    assert_eq!(rt;
        refusal(ipv4, 0x1100D, &[0, 16]),
        Some(LayoutRefusal::Unadmitted { length: 15 })
    );
    assert_eq!(rt;
        refusal(ipv4, 0x11D, &[0, 8, 16, 24]),
        Some(LayoutRefusal::Unadmitted { length: 23 })
    );
    assert_eq!(rt;
        refusal(ipv4, 0x1100C, &[]),
        Some(LayoutRefusal::NotAGenerator)
    );
    assert_eq!(rt;
        refusal(ipv4, 0x1100D, &[]),
        Some(LayoutRefusal::UnlawfulTreads)
    );
    assert_eq!(rt;
        refusal(ipv4, 0x1100D, &[1, 15, 16]),
        Some(LayoutRefusal::UnlawfulTreads)
    );
    assert_eq!(rt;
        refusal(ipv4, 0x1100D, &[0, 15, 15, 16]),
        Some(LayoutRefusal::UnlawfulTreads)
    );
    assert_eq!(rt;
        refusal(ipv4, 0x1100D, &[0, 15, 16, 33]),
        Some(LayoutRefusal::UnlawfulTreads)
    );
    assert_eq!(rt; LayoutRefusal::NotAGenerator.number(), 1);
    assert_eq!(rt; LayoutRefusal::UnlawfulTreads.number(), 2);
    assert_eq!(rt; LayoutRefusal::Unadmitted { length: 23 }.number(), 3);
}

#[test]
fn tread_lists(rt: HostRuntime) -> Result<(), Fail> {
    let list = TreadList::new(Width::IPV4, &[0, 15, 16]).ok_or("no tread list")?;
    assert_eq!(rt; list.width().bits(), 32);
    assert_eq!(rt; list.as_slice(), [0, 15, 16].as_slice());
    for (length, number) in [(0, 0), (14, 0), (15, 1), (16, 2), (32, 2), (255, 2)] {
        assert_eq!(rt; list.home(length), number);
    }
    assert!(rt; is_tread_list(Width::IPV4, list.as_slice()));
    for treads in [[1, 15, 16], [0, 15, 15], [0, 16, 15], [0, 15, 33]] {
        assert!(rt; !is_tread_list(Width::IPV4, &treads));
        assert!(rt; TreadList::new(Width::IPV4, &treads).is_none());
    }
    Ok(())
}

#[test]
fn names(rt: HostRuntime) -> Result<(), Fail> {
    for (name, list, row) in [
        ("v4", ListName::V4, 0),
        ("v4-small", ListName::V4Small, 1),
        ("v6", ListName::V6, 2),
    ] {
        assert_eq!(rt; name.parse::<ListName>(), Ok(list));
        assert_eq!(rt; list as usize, row);
        assert_eq!(rt; row_number(name), Some(row));
        assert_eq!(rt; list.to_string(rt.alloc())?.as_str(), name);
        assert!(rt; named(name).is_some());
    }
    for name in ["", "v", "V4", "v4 ", "v4-smal", "v4-small2", "vpn"] {
        assert_eq!(rt; name.parse::<ListName>(), Err(UnknownList));
        assert_eq!(rt; row_number(name), None);
        assert!(rt; named(name).is_none());
    }
    Ok(())
}

#[test]
fn prefixes(rt: HostRuntime) -> Result<(), Fail> {
    for (address, length, fault) in [
        (1 << 32, 33, PrefixFault::AddressBeyondWidth),
        (0x0A00_0001, 33, PrefixFault::LengthBeyondWidth),
        (0x0A00_0001, 256, PrefixFault::LengthBeyondWidth),
        (0x0A00_0001, 31, PrefixFault::BitsAfterLength),
    ] {
        assert_eq!(rt; Prefix::new(Width::IPV4, address, length), Err(fault));
    }
    let prefix = Prefix::new(Width::IPV4, 0x0A00_0000, 8)?;
    assert!(rt; prefix.covers(0x0AFF_FFFF));
    assert!(rt; !prefix.covers(0x0B00_0000));
    Ok(())
}

// Under every list, length and tread: a prefix is named exactly where the length is not admitted, and it is confused.
#[test]
fn confusions(rt: HostRuntime) -> Result<(), Fail> {
    for list in [ListName::V4, ListName::V4Small, ListName::V6] {
        let layout = list.layout();
        let width = layout.width();
        let generator = layout.generator();
        for length in 0..=width.bits() {
            let bits = 0xC000_0201_2001_0DB8_C000_0201_A5A5_5A5Au128;
            let address = width.round(
                if width.bits() == 32 {
                    bits % (1 << 32)
                } else {
                    bits
                },
                length,
            );
            let prefix = Prefix::new(width, address, u32::from(length))?;
            for tread in layout.treads().iter().take_while(|tread| **tread <= length) {
                match prefix.confused_with(&generator, *tread) {
                    Some(other) => {
                        assert!(rt; !width.admits(&generator, length, *tread));
                        assert!(rt; other.address() != address);
                        assert_eq!(rt; other.length(), length);
                        assert_eq!(rt;
                            other.colony(&generator, *tread),
                            prefix.colony(&generator, *tread)
                        );
                        assert_eq!(rt;
                            other.digest(&generator, *tread),
                            prefix.digest(&generator, *tread)
                        );
                    }
                    None => assert!(rt; width.admits(&generator, length, *tread)),
                }
            }
        }
    }
    Ok(())
}
