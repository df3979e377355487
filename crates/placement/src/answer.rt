// What is answered to a line.
ghost use Rattle.std.specs.Prelude.{◌≡◌, OnErr};
ghost use Rattle.placement.specs.Answers.{Answered};
ghost use Rattle.placement.specs.declared.answer.LineFault.TheVariants.{NotPlaced};

use crate::placer::{PlaceFault, Placer};
use crate::placing::read_placing;
use std::error::Error;
use store::bucket_store::BucketStore;
use store::place::Place;

// Why a line places nothing.
#[derive(Clone, Copy, PartialEq, Eq, Debug)]
pub enum LineFault {
    // It can't be read.
    Unreadable,
    // It can, but the placer does not place what it asks for.
    NotPlaced(PlaceFault),
}

impl Error for LineFault {}

impl From<PlaceFault> for LineFault {
    ghost from_gives = { λ fault e. e ≡ NotPlaced fault };

    fn from(fault: PlaceFault) -> LineFault {
        LineFault::NotPlaced(fault)
    }
}

impl<S: BucketStore> Placer<S> {
    // Places what the line asks for, if it can be read.
    pub fn answer(&mut self, line: &[u8]) -> Result<Place, LineFault>
        ensures layout { self.new.layout ≡ self.old.layout }
        ensures answered { Answered self.old.layout line.now (S.grid self.old.store) result (S.grid self.new.store) }
        ensures refused { OnErr result (self.new.store ≡ self.old.store) }
    {
        let placing = read_placing(line).ok_or(LineFault::Unreadable)?;
        let place = self.place(placing)?;
        Ok(place)
    }
}
