// The check of a layout, and what a checked one tells.
ghost use Rattle.std.specs.Prelude.{◌≡◌, ◌<◌, length as count, slice_index};
ghost use Rattle.layout.specs.Layouts.{Verdict, number_of, treads_of, width_of};
ghost use Rattle.layout.specs.Treads.{home_tread};

use crate::layout::{Layout, LayoutRefusal};
use crate::treads::TreadList;
use crate::width::Width;
use gf2::generator::Generator;

impl Layout {
    // Asks the three questions in their order: the layout, or the first that is answered 'no'.
    #[tactic(auto, using(gf2::proofs::Exponents::is_generator))]
    pub fn check(width: Width, poly: u32, treads: &[u8]) -> Result<Layout, LayoutRefusal>
        ensures { Verdict width poly treads.now result }
    {
        let generator = Generator::new(poly).ok_or(LayoutRefusal::NotAGenerator)?;
        let treads = TreadList::new(width, treads).ok_or(LayoutRefusal::UnlawfulTreads)?;
        match treads.first_unadmitted(&generator) {
            Some(length) => Err(LayoutRefusal::Unadmitted { length }),
            None => Ok(Layout { generator, treads }),
        }
    }

    pub fn width(&self) -> Width
        ensures { result ≡ width_of self.now }
    {
        self.treads.width()
    }

    pub fn generator(&self) -> Generator
        ensures { result ≡ self.now.generator }
    {
        self.generator
    }

    pub fn treads(&self) -> &[u8]
        ensures { result.now ≡ treads_of self.now }
    {
        self.treads.as_slice()
    }

    // The number of the home tread of that length: the position of the largest tread not above it.
    pub fn home(&self, length: u8) -> usize
        ensures within { result < count (treads_of self.now) }
        ensures home { slice_index (treads_of self.now) result ≡ home_tread (treads_of self.now) length }
    {
        self.treads.home(length)
    }
}

impl LayoutRefusal {
    // The question's number, as docs/LAYOUTS.md counts them.
    pub fn number(&self) -> u8
        ensures { result ≡ number_of self.now }
    {
        match self {
            LayoutRefusal::NotAGenerator => 1,
            LayoutRefusal::UnlawfulTreads => 2,
            LayoutRefusal::Unadmitted { .. } => 3,
        }
    }
}
