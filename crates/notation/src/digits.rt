// Numbers written in digits of a radix.
ghost use Rattle.std.specs.Prelude.{◌≡◌, ◌≤◌};
ghost use Rattle.notation.specs.Digits.{read_digits};

// The number that the text writes, if it is at most `limit`. A letter is a digit in either case.
pub(crate) fn parse_digits(text: &[u8], radix: u32, limit: u32) -> Option<u32>
    requires low { 2 ≤ radix }
    requires high { radix ≤ 36 }
    ensures { result ≡ read_digits radix limit text.now }
{
    if text.is_empty() {
        return None;
    }
    let mut value: u64 = 0;
    for byte in text {
        let digit = char::from(*byte).to_digit(radix)?;
        value = value * u64::from(radix) + u64::from(digit);
        if value > u64::from(limit) {
            return None;
        }
    }
    Some(value as u32)
}
