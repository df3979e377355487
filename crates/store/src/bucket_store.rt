// What a bucket store means, and the calls that every store has.
ghost use Rattle.std.specs.Prelude.{◌≡◌, OnErr};
ghost use Rattle.store.specs.Grids.{Grid, Reads, Writes};
ghost use Rattle.store.specs.Shapes.{Bounded};

use crate::place::{Entry, NoPlace, Place};
use crate::shape::{Shape, WriteRefusal};

pub trait BucketStore {
    // the store's shape, and nothing or an entry at each place: every answer follows from it
    ghost grid: { Self → Grid };

    fn shape(&self) -> Shape
        ensures value { result ≡ (grid self.now).shape }
        ensures bounds { Bounded result };

    // What stands at the place.
    fn read(&self, place: Place) -> Result<Option<Entry>, NoPlace>
        ensures { Reads (grid self.now) place.bucket place.slot result };

    // Sets the place to an entry or to nothing, or refuses and changes nothing: the store is then what it was, whether
    // its places show it or not.
    fn write(&mut self, place: Place, content: Option<Entry>) -> Result<(), WriteRefusal>
        ensures meaning { Writes (grid self.old) place.bucket place.slot content result (grid self.new) }
        ensures refused { OnErr result (self.new ≡ self.old) };
}
