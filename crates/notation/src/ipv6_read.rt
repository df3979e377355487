// IPv6 addresses read from text, in the forms of RFC 4291, section 2.2.
ghost use Rattle.std.specs.Prelude.{◌≡◌, ℕ, ◌^◌, ◌<◌, Bool, true, false, Some, MatchOption};
ghost use Rattle.notation.specs.Chain.{and_then};
ghost use Rattle.notation.specs.Groups.{read_group, read_groups, read_last, total};
ghost use Rattle.notation.specs.Ipv6.{read6, read_shortened, read_side, read_whole};
ghost use Rattle.notation.specs.Ipv6Text.{text6};
ghost use Rattle.notation.specs.Writings.{Writes};

use crate::digits::parse_digits;
use crate::groups::Groups;
use crate::ipv4::parse_ipv4;
use crate::split::split_once;

// The address that the text writes: eight groups of hexadecimal digits with colons between, of which
// `::` may stand once for one or more groups of zeros, and the last two may be in dotted form.
#[tactic(auto, using(crate::proofs::Accepted::address_exact))]
pub fn parse_ipv6(text: &[u8]) -> Option<u128>
    ensures value { result ≡ read6 text.now }
    ensures written { MatchOption result ((a : ℕ) → Writes a text.now → ⊥) (λ a. Writes a text.now) }
    ensures round_trip { (a : ℕ) → a < 2 ^ 128 → text6 a ≡ text.now → result ≡ Some a }
{
    match split_once(text, b"::") {
        Some((left, right)) => parse_shortened(left, right),
        None => parse_whole(text),
    }
}

fn parse_whole(text: &[u8]) -> Option<u128>
    ensures { result ≡ read_whole text.now }
{
    parse_mixed_groups(text)?.address()
}

// The address of what stands left and right of `::`.
fn parse_shortened(left: &[u8], right: &[u8]) -> Option<u128>
    ensures { result ≡ read_shortened (left.now, right.now) }
{
    let left = parse_left(left)?;
    let right = parse_right(right)?;
    left.join_around_zeros(right)
}

// The groups left of `::`, where there may be none.
fn parse_left(text: &[u8]) -> Option<Groups>
    ensures { result ≡ and_then (read_side false text.now) (total (0, 0)) }
{
    if text.is_empty() {
        return Some(Groups::none());
    }
    // the checker does not cover `?` on an `Option` of groups beside a slice
    let Some((groups, last)) = parse_all_but_last(text) else {
        return None;
    };
    groups.push(parse_group(last)?)
}

// The groups right of `::`, where there may be none. (One function for both sides: the proof did not close.)
fn parse_right(text: &[u8]) -> Option<Groups>
    ensures { result ≡ and_then (read_side true text.now) (total (0, 0)) }
{
    if text.is_empty() {
        return Some(Groups::none());
    }
    parse_mixed_groups(text)
}

// Groups with colons between, of which the last two may be in dotted form.
fn parse_mixed_groups(text: &[u8]) -> Option<Groups>
    ensures { result ≡ and_then (read_groups true text.now) (total (0, 0)) }
{
    // the checker does not cover `?` on an `Option` of groups beside a slice
    let Some((groups, last)) = parse_all_but_last(text) else {
        return None;
    };
    if let Some(group) = parse_group(last) {
        return groups.push(group);
    }
    let address = parse_ipv4(last)?;
    groups
        .push((address / 65536) as u16)?
        .push((address % 65536) as u16)
}

// The groups before the last colon, and the piece after it.
fn parse_all_but_last(text: &[u8]) -> Option<(Groups, &[u8])>
    ensures { (mixed : Bool) → and_then result (λ p. and_then (read_last mixed p.1.now) (total p.0)) ≡ and_then (read_groups mixed text.now) (total (0, 0)) }
{
    let mut groups = Groups::none();
    let mut rest = text;
    while let Some((piece, after)) = split_once(rest, b":") {
        groups = groups.push(parse_group(piece)?)?;
        rest = after;
    }
    Some((groups, rest))
}

// One to four hexadecimal digits.
fn parse_group(piece: &[u8]) -> Option<u16>
    ensures { result ≡ read_group piece.now }
{
    if piece.len() > 4 {
        return None;
    }
    parse_digits(piece, 16, 0xffff).map(|group| group as u16)
}
