// The places of a shape, one after the other.
ghost use Rattle.std.specs.Prelude.{◌≡◌};
ghost use Rattle.std.specs.Iterator.{YieldsFirst, item_count};
ghost use Rattle.store.specs.Places.{all_places, Lists};

use crate::place::Place;
use crate::shape::Shape;
use std::marker::Model;

// The places of a shape that are still to come, in order of bucket and then slot.
#[derive(Debug, Drop)]
pub struct Places {
    shape: Shape,
    next: Place,
}

impl Model for Places {
    ghost use Rattle.std.specs.Prelude.{◌-◌, ◌≤◌, List};
    ghost use Rattle.store.specs.declared.place.Place.{Place};
    ghost use Rattle.store.specs.Places.{places_from};

    ghost Value = { List Place };

    ghost view = { λ p. places_from p.shape p.next.bucket p.next.slot };

    ghost invariant = { λ p. p.next.slot ≤ p.shape.slots - 1 };
}

impl Shape {
    // Every place, in order of bucket and then slot.
    pub fn places(&self) -> Places
        ensures value { result ≡ all_places self.now }
        ensures lists { Lists self.now result }
    {
        Places {
            shape: *self,
            next: Place { bucket: 0, slot: 0 },
        }
    }
}

impl Iterator for Places {
    type Item = Place;

    ghost next_gives = { YieldsFirst (λ places. places) };

    ghost remaining = { item_count (λ places. places) };

    fn next(&mut self) -> Option<Place> {
        let place = self.next;
        if !self.shape.has(place) {
            return None;
        }
        self.next = if place.slot + 1 < self.shape.slots {
            Place {
                slot: place.slot + 1,
                ..place
            }
        } else {
            Place {
                bucket: place.bucket + 1,
                slot: 0,
            }
        };
        Some(place)
    }
}
