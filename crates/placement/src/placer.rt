// A store into which prefixes are placed by hand, under the treads of a layout.
ghost use Rattle.std.specs.Prelude.{◌≡◌, MatchOption, OnErr};
ghost use Rattle.layout.specs.Layouts.{treads_of};
ghost use Rattle.store.specs.Grids.{Emptied};
ghost use Rattle.placement.specs.Placements.{HasNumber, NoTread, numbered, Allows, Placed};
ghost use Rattle.placement.specs.declared.placer.PlaceFault.TheVariants.{Refused};

use crate::placing::Placing;
use family::family::Family;
use family::prefixes::{colony, digest, is_prefix};
use layout::layout::Layout;
use std::error::Error;
use store::bucket_store::BucketStore;
use store::clear::clear;
use store::place::{Entry, Place};
use store::shape::WriteRefusal;

// A store and the layout by which its entries are placed.
#[derive(Drop)]
pub struct Placer<S> {
    layout: Layout,
    store: S,
}

// Why nothing is placed: the first of these questions that is answered 'no'.
#[derive(Clone, Copy, PartialEq, Eq, Debug)]
pub enum PlaceFault {
    // Is the length at most the width of the address?
    LengthBeyondWidth,
    // Is every bit after it zero?
    BitsAfterLength,
    // Is the tread one of the layout's?
    UnknownTread,
    // Is it no longer than the prefix?
    TreadBeyondLength,
    // Does the store take the entry?
    Refused(WriteRefusal),
}

impl Error for PlaceFault {}

impl From<WriteRefusal> for PlaceFault {
    ghost from_gives = { λ refusal fault. fault ≡ Refused refusal };

    fn from(refusal: WriteRefusal) -> PlaceFault {
        PlaceFault::Refused(refusal)
    }
}

impl<S: BucketStore> Placer<S> {
    // The store is emptied first.
    pub fn new(layout: Layout, mut store: S) -> Placer<S>
        ensures layout { result.layout ≡ layout }
        ensures emptied { Emptied (S.grid store) (S.grid result.store) }
    {
        clear(&mut store);
        Placer { layout, store }
    }

    pub fn store(&self) -> &S
        ensures { result.now ≡ self.now.store }
    {
        &self.store
    }

    // Writes the entry of the prefix at the place that is asked for, or says why not and changes nothing.
    pub fn place<F: Family>(&mut self, placing: Placing<F>) -> Result<Place, PlaceFault>
        ensures layout { self.new.layout ≡ self.old.layout }
        ensures placed { Placed F.wide self.old.layout (numbered F.number placing) (S.grid self.old.store) result (S.grid self.new.store) }
        ensures refused { OnErr result (self.new.store ≡ self.old.store) }
    {
        let (place, entry) = allowed(&self.layout, placing)?;
        self.store.write(place, Some(entry))?;
        Ok(place)
    }
}

// The place and the entry, or the first question but the store's that is answered 'no'.
fn allowed<F: Family>(layout: &Layout, placing: Placing<F>) -> Result<(Place, Entry), PlaceFault>
    ensures { Allows F.wide layout.now (numbered F.number placing) result }
{
    if placing.length > u32::from(F::width().bits()) {
        return Err(PlaceFault::LengthBeyondWidth);
    }
    let length = placing.length as u8;
    if !is_prefix(placing.address, length) {
        return Err(PlaceFault::BitsAfterLength);
    }
    let number = tread_number(layout, placing.tread).ok_or(PlaceFault::UnknownTread)?;
    if placing.tread > placing.length {
        return Err(PlaceFault::TreadBeyondLength);
    }
    let tread = placing.tread as u8;
    let generator = layout.generator();
    let place = Place {
        bucket: colony(placing.address, &generator, tread),
        slot: placing.slot,
    };
    let entry = Entry {
        digest: digest(placing.address, &generator, tread),
        hop: placing.hop,
        length,
        tread: number,
    };
    Ok((place, entry))
}

// The position of the tread in the layout's list.
fn tread_number(layout: &Layout, tread: u32) -> Option<u8>
    ensures { MatchOption result (NoTread (treads_of layout.now) tread) (λ k. HasNumber (treads_of layout.now) tread k) }
{
    let number = layout
        .treads()
        .iter()
        .position(|length| u32::from(*length) == tread)?;
    Some(number as u8)
}
