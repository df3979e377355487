// Emptying a whole store.
ghost use Rattle.store.specs.Grids.{Emptied};

use crate::bucket_store::BucketStore;
use crate::place::Place;

// Sets every place to nothing. Two loops, and not one over `Shape::places`, so that the compiler sees that a store over a
// slice fills its memory one element after the other, and fills it as one piece.
pub fn clear<S: BucketStore>(store: &mut S)
    ensures { Emptied (S.grid store.old) (S.grid store.new) }
{
    let shape = store.shape();
    for bucket in 0..shape.buckets {
        for slot in 0..shape.slots {
            let _ = store.write(Place { bucket, slot }, None);
        }
    }
}
