// The run of zeros that `::` replaces in a written IPv6 address.
ghost use Rattle.std.specs.Prelude.{◌≡◌, ◌-◌, ◌<◌, ◌≤◌, length, take, drop, replicate, Some, IfSome};
ghost use Rattle.std.specs.Option.{option_map};
ghost use Rattle.notation.specs.Cut.{cut};
ghost use Rattle.notation.specs.Ipv6Text.{leading_zeros, longest_run, zero_sides};

use std::ops::Range;

// The run that `::` replaces: the longest, and the first of equally long ones. A single group of zeros stays.
pub(crate) fn shortened_run(groups: &[u16]) -> Option<Range<usize>>
    ensures sides { option_map (λ run. (take run.start groups.now, drop run.end groups.now)) result ≡ zero_sides groups.now }
    ensures within { IfSome result (λ run. (run.start ≤ run.end) × (run.end ≤ length groups.now)) }
{
    Some(longest_zero_run(groups)).filter(|run| run.len() >= 2)
}

// The longest run of zeros, and the first of equally long ones.
fn longest_zero_run(groups: &[u16]) -> Range<usize>
    ensures ordered { result.start ≤ result.end }
    ensures within { result.end ≤ length groups.now }
    ensures longest { result.end - result.start ≡ longest_run groups.now }
    ensures first { result.start < result.end → cut (replicate (longest_run groups.now) 0) groups.now ≡ Some (take result.start groups.now, drop result.end groups.now) }
{
    // a loop: the proof did not close over a chain (`map` and `reduce`)
    let mut longest = 0..0;
    for start in 0..groups.len() {
        let run = start..start + leading_zeros(&groups[start..]);
        if run.len() > longest.len() {
            longest = run;
        }
    }
    longest
}

// How many zeros the groups begin with.
fn leading_zeros(groups: &[u16]) -> usize
    ensures value { result ≡ leading_zeros groups.now }
    ensures within { result ≤ length groups.now }
{
    groups.iter().take_while(|group| **group == 0).count()
}
