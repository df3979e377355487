// Tread lists. A tread is a prefix length at which routes may stand.
ghost use Rattle.std.specs.Prelude.{◌≤◌, take};
ghost use Rattle.layout.specs.Treads.{Lawful};

use crate::width::Width;

mod homes;
mod making;

pub use making::is_tread_list;

// A tread list has no more lengths than this.
pub const MAX_TREADS: usize = 40;

// The lawful tread list of a table whose addresses have that width, in memory of its own.
#[derive(Clone, Copy)]
pub struct TreadList {
    width: Width,
    // the treads are the first `count`; no slice of the caller's, which would have to outlive the list, and no heap
    lengths: [u8; MAX_TREADS],
    count: usize,
    ghost room: { count ≤ 40 },
    ghost lawful: { Lawful width.bits (take count lengths) },
}
