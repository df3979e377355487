// Stores over the caller's memory, with one element at each place.
ghost use Rattle.std.specs.Prelude.{◌≡◌, ◌+◌, ◌*◌, ◌/◌, ◌<◌, ◌||◌, ◌&&◌, ◌==◌, IsTrue, length, OnErr, slice_set};
ghost use Rattle.std.specs.Bool.{then_some};
ghost use Rattle.store.specs.Grids.{Writes};
ghost use Rattle.store.specs.Shapes.{Inside};
ghost use Rattle.memory.specs.Slices.{fills, filled, slice_shape, slice_grid, Over, IsElement, written};

use crate::encoded::Encoded;
use store::bucket_store::BucketStore;
use store::place::{Entry, NoPlace, Place};
use store::shape::{MAX_BUCKETS, MAX_SLOTS, Shape, WriteRefusal};

// The slot s of the bucket b is element b × slots + s.
#[derive(Debug, Drop)]
pub struct SliceStore<'a, T: Encoded> {
    elements: &'a mut [T],
    buckets: u32,
    slots: u32,
    // the elements fill the buckets exactly, or there are no places
    ghost whole: { IsTrue (filled (length elements.now) buckets slots || (buckets == 0 && slots == 0)) },
}

impl<'a, T: Encoded> SliceStore<'a, T> {
    // The store of that many slots in each bucket. Where they do not fill the memory exactly it has no places.
    pub fn new(elements: &'a mut [T], slots: u32) -> SliceStore<'a, T>
        ensures meaning { Over T.encoding elements.old slots (⟦<Self as BucketStore>⟧.grid result) }
        ensures memory { result.elements.now ≡ elements.old }
    {
        let (buckets, slots) = match buckets_filled(elements.len(), slots) {
            Some(buckets) => (buckets, slots),
            None => (0, 0),
        };
        SliceStore {
            elements,
            buckets,
            slots,
        }
    }

    // The element of a place that the store has.
    fn index(&self, place: Place) -> usize
        requires { Inside (⟦<Self as BucketStore>⟧.grid self.now).shape place.bucket place.slot }
        ensures value { result ≡ place.bucket * self.now.slots + place.slot }
        ensures bound { result < length self.now.elements.now }
    {
        place.position(self.slots)
    }

    // The element of the place as it stands in memory.
    pub fn element(&self, place: Place) -> Option<T>
        ensures { IsElement T.encoding self.now.elements.now self.now.buckets self.now.slots place.bucket place.slot result }
    {
        self.shape().check_place(place).ok()?;
        Some(self.elements[self.index(place)])
    }
}

fn put<T: Copy>(elements: &mut [T], index: usize, element: T)
    requires { index < length elements.old }
    ensures { elements.new ≡ slice_set elements.old index element }
{
    elements[index] = element;
}

// How many buckets of that many slots the elements fill, where they fill them exactly and the store may have so many.
fn buckets_filled(elements: usize, slots: u32) -> Option<u32>
    ensures { result ≡ then_some (fills elements slots) (elements / slots) }
{
    let buckets = u32::try_from(elements.checked_div(slots as usize)?).ok()?;
    let whole = elements % slots as usize == 0;
    (whole && slots <= MAX_SLOTS && buckets <= MAX_BUCKETS).then_some(buckets)
}

impl<'a, T: Encoded> BucketStore for SliceStore<'a, T> {
    ghost grid = { λ s. slice_grid T.encoding s.elements.now s.buckets s.slots };

    fn shape(&self) -> Shape {
        Shape {
            buckets: self.buckets,
            slots: self.slots,
            digest_bits: T::digest_bits(),
        }
    }

    fn read(&self, place: Place) -> Result<Option<Entry>, NoPlace> {
        self.element(place).map(T::decode).ok_or(NoPlace)
    }

    fn write(&mut self, place: Place, content: Option<Entry>) -> Result<(), WriteRefusal>
        ensures meaning { Writes (⟦<Self as BucketStore>⟧.grid self.old) place.bucket place.slot content result (⟦<Self as BucketStore>⟧.grid self.new) }
        ensures refused { OnErr result (self.new ≡ self.old) }
        ensures memory { self.new.elements.now ≡ written self.old.elements.now (place.bucket * self.old.slots + place.slot) (T.encoding.encoded content) result }
    {
        self.shape().check_write(place, content)?;
        let index = self.index(place);
        put(self.elements, index, T::encode(content));
        Ok(())
    }
}
