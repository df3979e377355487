// Divisions multiplied back, and numbers that are no generator.
use gf2::generator::Generator;
use std::test::Fail;

// The product, by shifts: no step of the division is used.
fn times(factor: u128, poly: u32) -> u128 {
    (0..17u32)
        .filter(|k| (poly >> *k) % 2 == 1)
        .fold(0, |product, k| product ^ (factor << k))
}

#[test]
fn quotient_times_generator_plus_remainder(rt: HostRuntime) -> Result<(), Fail> {
    for poly in [0x1100D, 0x11D, 0x13, 0x11, 0x10001, 0x1FFFF] {
        let generator = Generator::new(poly).ok_or("no generator")?;
        let mut dividend = 0x2001_0DB8_0000_0000_0000_0000_C000_0201u128;
        for _ in 0..100 {
            for dividend in [dividend, dividend % (1 << 32)] {
                let division = generator.divide(dividend);
                assert_eq!(rt;
                    times(division.quotient, poly) ^ u128::from(division.remainder),
                    dividend
                );
                assert!(rt; division.remainder >> generator.degree() == 0);
            }
            dividend = dividend
                .wrapping_mul(0x5851_F42D_4C95_7F2D)
                .wrapping_add(0x1405_7B7E_F767_814F);
        }
    }
    Ok(())
}

#[test]
fn exponents(rt: HostRuntime) -> Result<(), Fail> {
    for (poly, degree, lowest) in [
        (0x1100D, 16, 2),
        (0x11D, 8, 2),
        (0x13, 4, 1),
        (0x11, 4, 4),
        (0x10001, 16, 16),
    ] {
        let generator = Generator::new(poly).ok_or("no generator")?;
        assert_eq!(rt; generator.poly(), poly);
        assert_eq!(rt; generator.degree(), degree);
        assert_eq!(rt; generator.lowest(), lowest);
    }
    for poly in [0, 1, 2, 0xF, 0x12, 0x1100C, 0x20001, u32::MAX] {
        assert!(rt; Generator::new(poly).is_none());
    }
    Ok(())
}
