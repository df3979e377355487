// Two stores as one, whose buckets take turns.
ghost use Rattle.std.specs.Prelude.{◌≡◌, ◌/◌};
ghost use Rattle.store.specs.Interleaves.{is_even, interleaved, interleaved_shape};

use crate::bucket_store::BucketStore;
use crate::place::{Entry, NoPlace, Place};
use crate::shape::{MAX_BUCKETS, Shape, WriteRefusal};

// Even buckets stand in the first store, odd ones in the second.
#[derive(Debug, Drop)]
pub struct Interleave<F, G> {
    first: F,
    second: G,
}

impl<F, G> Interleave<F, G> {
    pub fn new(first: F, second: G) -> Interleave<F, G>
        ensures first { result.first ≡ first }
        ensures second { result.second ≡ second }
    {
        Interleave { first, second }
    }
}

impl<F: BucketStore, G: BucketStore> BucketStore for Interleave<F, G> {
    ghost grid = { λ s. interleaved (F.grid s.first) (G.grid s.second) };

    fn shape(&self) -> Shape {
        interleaved_shape(self.first.shape(), self.second.shape())
    }

    fn read(&self, place: Place) -> Result<Option<Entry>, NoPlace> {
        self.shape().check_place(place)?;
        if is_even(place.bucket) {
            self.first.read(half(place))
        } else {
            self.second.read(half(place))
        }
    }

    fn write(&mut self, place: Place, content: Option<Entry>) -> Result<(), WriteRefusal> {
        self.shape().check_write(place, content)?;
        if is_even(place.bucket) {
            self.first.write(half(place), content)
        } else {
            self.second.write(half(place), content)
        }
    }
}

fn interleaved_shape(first: Shape, second: Shape) -> Shape
    ensures { result ≡ interleaved_shape first second }
{
    let alike = first.buckets == second.buckets && first.slots == second.slots;
    let few = first.buckets <= MAX_BUCKETS / 2;
    Shape {
        buckets: if alike && few { 2 * first.buckets } else { 0 },
        slots: first.slots,
        digest_bits: first.digest_bits.min(second.digest_bits),
    }
}

fn is_even(bucket: u32) -> bool
    ensures { result ≡ is_even bucket }
{
    bucket % 2 == 0
}

// The place in its half.
fn half(place: Place) -> Place
    ensures { result ≡ record { bucket = place.bucket / 2; slot = place.slot } }
{
    Place {
        bucket: place.bucket / 2,
        slot: place.slot,
    }
}
