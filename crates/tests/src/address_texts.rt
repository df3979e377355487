// Known writings of numbers and addresses, and texts that are refused.
use notation::decimal::parse_decimal;
use notation::ipv4::{Ipv4Text, parse_ipv4};
use notation::ipv6_read::parse_ipv6;
use notation::ipv6_write::Ipv6Text;
use std::test::Fail;

#[test]
fn decimal(rt: HostRuntime) {
    assert_eq!(rt; parse_decimal(b"0", 255), Some(0));
    assert_eq!(rt; parse_decimal(b"255", 255), Some(255));
    assert_eq!(rt; parse_decimal(b"4294967295", u32::MAX), Some(u32::MAX));
    for refused in [b"256", b"-1 ", b"+1 ", b"007", b"1.0", b"12 "] {
        assert_eq!(rt; parse_decimal(refused, 255), None);
    }
    assert_eq!(rt; parse_decimal(b"", 255), None);
    assert_eq!(rt; parse_decimal(b"18446744073709551616", u32::MAX), None);
}

#[test]
fn ipv4(rt: HostRuntime) -> Result<(), Fail> {
    for (text, address) in [
        ("10.68.3.0", 0x0a44_0300),
        ("255.255.255.255", u32::MAX),
        ("0.0.0.0", 0),
    ] {
        assert_eq!(rt; parse_ipv4(text.as_bytes()), Some(address));
        assert!(rt; format!(in rt.alloc(); "{}", Ipv4Text(address))?.as_str() == text);
    }
    for text in [
        "01.2.3.4",
        "256.1.1.1",
        "1.2.3",
        "1.2.3.4.5",
        "1..2.3",
        "1.2.3.4 ",
        "",
    ] {
        assert_eq!(rt; parse_ipv4(text.as_bytes()), None);
    }
    Ok(())
}

// RFC 5952's forms are written so, and read back.
#[test]
fn ipv6_written(rt: HostRuntime) -> Result<(), Fail> {
    for (text, address) in [
        ("2001:db8::1", 0x2001_0db8_0000_0000_0000_0000_0000_0001u128),
        (
            "2001:db8:0:1:1:1:1:1",
            0x2001_0db8_0000_0001_0001_0001_0001_0001,
        ),
        ("2001:0:0:1::1", 0x2001_0000_0000_0001_0000_0000_0000_0001),
        (
            "2001:db8::1:0:0:1",
            0x2001_0db8_0000_0000_0001_0000_0000_0001,
        ),
        ("::", 0),
        ("::1", 1),
        ("1::", 0x0001_0000_0000_0000_0000_0000_0000_0000),
        (
            "::ffff:192.0.2.1",
            0x0000_0000_0000_0000_0000_ffff_c000_0201,
        ),
        (
            "abcd:ef01:2345:6789:abcd:ef01:2345:6789",
            0xabcd_ef01_2345_6789_abcd_ef01_2345_6789,
        ),
    ] {
        assert_eq!(rt; parse_ipv6(text.as_bytes()), Some(address));
        assert!(rt; format!(in rt.alloc(); "{}", Ipv6Text(address))?.as_str() == text);
    }
    Ok(())
}

// Other texts of RFC 4291 that are read.
#[test]
fn ipv6_read(rt: HostRuntime) {
    for (text, address) in [
        (
            "2001:0DB8:0:0:8:800:200C:417A",
            0x2001_0db8_0000_0000_0008_0800_200c_417au128,
        ),
        ("1:2:3:4:5:6:7::", 0x0001_0002_0003_0004_0005_0006_0007_0000),
        ("::2:3:4:5:6:7:8", 0x0000_0002_0003_0004_0005_0006_0007_0008),
        ("0:0:0:0:0:0:13.1.68.3", 0x0d01_4403),
        ("::13.1.68.3", 0x0d01_4403),
        ("1::13.1.68.3", 0x0001_0000_0000_0000_0000_0000_0d01_4403),
    ] {
        assert_eq!(rt; parse_ipv6(text.as_bytes()), Some(address));
    }
}

#[test]
fn ipv6_refused(rt: HostRuntime) {
    for text in [
        "",
        ":",
        ":::",
        "1::2::3",
        "1:::2",
        "12345::",
        "g::",
        "::1%1",
        "[::1]",
        " ::1",
        ":1:2:3:4:5:6:7:8",
        "1:2:3:4:5:6:7:8:",
        "1:2:3:4:5:6:7",
        "1:2:3:4:5:6:7:8:9",
        "1:2:3:4:5:6:7::8",
        "1:2:3:4:5:6:7:1.2.3.4",
        "1.2.3.4::",
        "::1.2.3.4:5",
        "::1.2.3",
        "::256.2.3.4",
    ] {
        assert_eq!(rt; parse_ipv6(text.as_bytes()), None);
    }
}
