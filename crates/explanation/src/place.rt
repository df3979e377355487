// Where the prefix of a query would stand: a place for each tread from its home tread down.
ghost use Rattle.std.specs.Prelude.{◌≡◌, ◌-◌, ◌<◌, IfOk, length, take, slice_index};
ghost use Rattle.layout.specs.Layouts.{treads_of};
ghost use Rattle.layout.specs.Treads.{home_tread};
ghost use Rattle.explanation.specs.Places.{PlaceOf, PlacesOf};

use crate::query::Query;
use layout::prefix::Prefix;
use std::alloc::{AllocError, Global};

#[derive(Clone, Copy, PartialEq, Eq, Debug)]
pub struct Place {
    pub tread: u8,
    // the number of the bucket
    pub bucket: u32,
    pub digest: u128,
    // the other prefix that would leave the same digest in the same bucket, where the tread does not admit the length
    pub confused: Option<Prefix>,
}

impl Query {
    // The places from the home tread of the prefix's length down to the shortest.
    pub fn places(&self, heap: Global) -> Result<Vec<Place>, AllocError>
        ensures { IfOk result (λ v. PlacesOf self.now v.items) }
    {
        self.treads_to_home()
            .iter()
            .rev()
            .map(|tread| self.place(*tread))
            .collect(heap)
    }

    // The treads from the shortest to the home tread of the prefix's length.
    fn treads_to_home(&self) -> &[u8]
        ensures some { 0 < length result.now }
        ensures front { result.now ≡ take (length result.now) (treads_of self.now.layout) }
        ensures home { slice_index (treads_of self.now.layout) (length result.now - 1)
            ≡ home_tread (treads_of self.now.layout) self.now.prefix.length }
    {
        let home = self.layout.home(self.prefix.length());
        &self.layout.treads()[..=home]
    }

    // The place under a tread.
    fn place(&self, tread: u8) -> Place
        ensures { PlaceOf self.now tread result }
    {
        let generator = self.layout.generator();
        Place {
            tread,
            bucket: self.prefix.colony(&generator, tread),
            digest: self.prefix.digest(&generator, tread),
            confused: self.prefix.confused_with(&generator, tread),
        }
    }
}
