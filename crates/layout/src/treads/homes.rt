// Home treads: the tread of a list at which a route stands first.
ghost use Rattle.std.specs.Prelude.{◌≡◌, ◌<◌, length as count, MatchOption, slice_index};
ghost use Rattle.layout.specs.Treads.{home_tread, admitted_at_home, AllAdmitted, FirstUnadmitted};
ghost use Rattle.layout.specs.TreadLists.{lengths_of};

use crate::treads::TreadList;
use gf2::generator::Generator;

impl TreadList {
    // The number of the home tread of that length: the position of the largest tread not above it.
    pub fn home(&self, length: u8) -> usize
        ensures within { result < count (lengths_of self.now) }
        ensures home { slice_index (lengths_of self.now) result ≡ home_tread (lengths_of self.now) length }
    {
        self.as_slice().partition_point(|tread| *tread <= length) - 1
    }

    fn is_admitted_at_home(&self, generator: &Generator, length: u8) -> bool
        ensures { result ≡ admitted_at_home self.now.width.bits generator.now (lengths_of self.now) length }
    {
        self.width
            .admits(generator, length, self.as_slice()[self.home(length)])
    }

    // The shortest length from 0 to the width that is not admitted at its home tread.
    pub(crate) fn first_unadmitted(&self, generator: &Generator) -> Option<u8>
        ensures { MatchOption result (AllAdmitted self.now.width.bits generator.now (lengths_of self.now)) (λ w. FirstUnadmitted self.now.width.bits generator.now (lengths_of self.now) w) }
    {
        (0..self.width.bits() + 1).find(|length| !self.is_admitted_at_home(generator, *length))
    }
}
