// A layout: a generator and a tread list under which every length is admitted at its home tread.
ghost use Rattle.std.specs.Prelude.{◌≡◌, ℕ, ◌≤◌, true, take};
ghost use Rattle.layout.specs.Treads.{AllAdmitted};

use crate::treads::TreadList;
use gf2::generator::Generator;

mod check;

#[derive(Clone, Copy)]
pub struct Layout {
    generator: Generator,
    // the list knows the width of the addresses
    treads: TreadList,
    ghost admits: { AllAdmitted treads.width.bits generator (take treads.count treads.lengths) },
}

// The question of the check that was answered 'no'.
#[derive(Clone, Copy, PartialEq, Eq, Debug)]
pub enum LayoutRefusal {
    // 1: has the generator degree 4 to 16 and constant term 1?
    NotAGenerator,
    // 2: is the tread list lawful?
    UnlawfulTreads,
    // 3: is every length from 0 to the width admitted at its home tread? The shortest that is not.
    Unadmitted { length: u8 },
}
