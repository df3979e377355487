// Families on addresses whose answers are known.
use family::family::Family;
use family::ipv4::Ipv4Address;
use family::ipv6::Ipv6Address;
use family::prefixes::{colony, covers, digest, is_prefix};
use gf2::generator::Generator;
use std::test::Fail;

#[test]
fn ipv4(rt: HostRuntime) {
    assert_eq!(rt; <Ipv4Address as Family>::width().bits(), 32);
    let address = Ipv4Address(0x0A44_03FF);
    for (length, rounded) in [
        (0, 0),
        (1, 0),
        (8, 0x0A00_0000),
        (24, 0x0A44_0300),
        (31, 0x0A44_03FE),
        (32, 0x0A44_03FF),
        (33, 0x0A44_03FF),
        (255, 0x0A44_03FF),
    ] {
        assert_eq!(rt; address.round(length), Ipv4Address(rounded));
    }
    assert_eq!(rt; Ipv4Address::from_bits(address.bits()), address);
    assert_eq!(rt; Ipv4Address::from_bits(0x1_0A44_03FF), address);
    assert!(rt; address != Ipv4Address(0x0A44_03FE));
    assert!(rt; address == Ipv4Address(0x0A44_03FF));
    assert!(rt; !address.same(Ipv4Address(0x0A44_03FE)));
    assert!(rt; address.same(Ipv4Address(0x0A44_03FF)));
    assert!(rt; is_prefix(Ipv4Address(0x0A44_0300), 24));
    assert!(rt; !is_prefix(Ipv4Address(0x0A44_0300), 22));
    assert!(rt; !is_prefix(Ipv4Address(0), 33));
    assert!(rt; covers(Ipv4Address(0x0A44_0300), 24, address));
    assert!(rt; !covers(Ipv4Address(0x0A44_0200), 24, address));
}

#[test]
fn ipv6(rt: HostRuntime) {
    assert_eq!(rt; <Ipv6Address as Family>::width().bits(), 128);
    let address = Ipv6Address(0x2001_0DB8_0000_0000_0001_0000_0000_00FF);
    for (length, rounded) in [
        (0, 0),
        (32, 0x2001_0DB8_0000_0000_0000_0000_0000_0000),
        (80, 0x2001_0DB8_0000_0000_0001_0000_0000_0000),
        (127, 0x2001_0DB8_0000_0000_0001_0000_0000_00FE),
        (128, 0x2001_0DB8_0000_0000_0001_0000_0000_00FF),
        (129, 0x2001_0DB8_0000_0000_0001_0000_0000_00FF),
    ] {
        assert_eq!(rt; address.round(length), Ipv6Address(rounded));
    }
    assert_eq!(rt; Ipv6Address::from_bits(address.bits()), address);
    assert!(rt; address != Ipv6Address(0x2001_0DB8_0000_0000_0001_0000_0000_00FE));
    assert!(rt; !address.same(Ipv6Address(0x2001_0DB8_0000_0000_0001_0000_0000_00FE)));
    assert!(rt; covers(address.round(48), 48, address));
    assert!(rt; !is_prefix(address, 127));
    assert!(rt; is_prefix(address, 128));
}

#[test]
fn buckets_and_digests(rt: HostRuntime) -> Result<(), Fail> {
    let generator = Generator::new(0x1100D).ok_or("no generator")?;
    for address in [Ipv4Address(0x0A00_0000), Ipv4Address(0x0A44_0300)] {
        assert_eq!(rt; colony(address, &generator, 8), 0xD552);
        assert_eq!(rt; digest(address, &generator, 8), 0x0AAA);
    }
    let division = Ipv4Address(0x0A44_0300).divide(&generator);
    assert_eq!(rt; division.quotient, 0x0AEA);
    assert_eq!(rt; division.remainder, 0xD512);
    Ok(())
}
