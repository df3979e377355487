// A text split in two at a mark.
ghost use Rattle.std.specs.Prelude.{◌≡◌, ◌+◌, ◌≤◌, length, take, drop, Some, None, MatchOption};
ghost use Rattle.std.specs.Option.{option_map};
ghost use Rattle.notation.specs.Cut.{cut};

// What stands before and after the first place of the mark.
pub fn split_once<'a>(text: &'a [u8], mark: &[u8]) -> Option<(&'a [u8], &'a [u8])>
    ensures { option_map (λ p. (p.0.now, p.1.now)) result ≡ cut mark.now text.now }
{
    let start = first_place(text, mark)?;
    Some((&text[..start], &text[start + mark.len()..]))
}

// Where the mark first stands in the text.
fn first_place(text: &[u8], mark: &[u8]) -> Option<usize>
    ensures { MatchOption result (cut mark.now text.now ≡ None) (λ i. (i + length mark.now ≤ length text.now) × (cut mark.now text.now ≡ Some (take i text.now, drop (i + length mark.now) text.now))) }
{
    (0..text.len()).find(|&start| text[start..].starts_with(mark))
}
