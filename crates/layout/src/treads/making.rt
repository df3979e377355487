// Making a tread list, and its parts.
ghost use Rattle.std.specs.Prelude.{◌≡◌, ◌≤◌, ◌↔◌, length as count, IsTrue, MatchOption, slice_index};
ghost use Rattle.std.specs.List.Sorted.{IsStrictlyIncreasing};
ghost use Rattle.layout.specs.Treads.{Lawful, Within};
ghost use Rattle.layout.specs.TreadLists.{lengths_of};

use crate::treads::{MAX_TREADS, TreadList};
use crate::width::Width;

// Whether there are 1 to 40 lengths that begin with 0, rise strictly and never pass the width.
pub fn is_tread_list(width: Width, treads: &[u8]) -> bool
    ensures { IsTrue result ↔ Lawful width.bits treads.now }
{
    treads.len() <= MAX_TREADS
        && begins_with_0(treads)
        && rises(treads)
        && stays_within(width.bits(), treads)
}

fn begins_with_0(treads: &[u8]) -> bool
    ensures { IsTrue result ↔ (1 ≤ count treads.now) × (slice_index treads.now 0 ≡ 0) }
{
    treads.first().is_some_and(|first| *first == 0)
}

fn rises(treads: &[u8]) -> bool
    ensures { IsTrue result ↔ IsStrictlyIncreasing treads.now }
{
    treads.is_sorted_by(|shorter, longer| shorter < longer)
}

// The last of rising treads is the longest.
#[tactic(auto, using(crate::proofs::Rising::rising_within))]
fn stays_within(bits: u8, treads: &[u8]) -> bool
    requires { IsStrictlyIncreasing treads.now }
    ensures { IsTrue result ↔ Within bits treads.now }
{
    match treads {
        [.., last] => *last <= bits,
        [] => true,
    }
}

impl TreadList {
    // The list with treads of its own, or `None` where they are not lawful.
    pub fn new(width: Width, treads: &[u8]) -> Option<TreadList>
        ensures { MatchOption result (¬ Lawful width.bits treads.now) (λ t. (t.width ≡ width) × (lengths_of t ≡ treads.now)) }
    {
        if !is_tread_list(width, treads) {
            return None;
        }
        let mut lengths = [0; MAX_TREADS];
        lengths[..treads.len()].copy_from_slice(treads);
        Some(TreadList {
            width,
            lengths,
            count: treads.len(),
        })
    }

    pub fn width(&self) -> Width
        ensures { result ≡ self.now.width }
    {
        self.width
    }

    pub fn as_slice(&self) -> &[u8]
        ensures { result.now ≡ lengths_of self.now }
    {
        &self.lengths[..self.count]
    }
}
