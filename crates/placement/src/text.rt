// How a line is answered in words.
ghost use Rattle.std.specs.Prelude.{◌≡◌, Some};
ghost use Rattle.placement.specs.Texts.{fault_text, line_fault_text, answer_text};

use crate::answer::LineFault;
use crate::placer::PlaceFault;
use std::fmt;
use store::place::Place;

// The answer to a line: where its prefix now stands, or what is wrong.
#[derive(Clone, Copy, PartialEq, Eq, Debug)]
pub struct AnswerText(pub Result<Place, LineFault>);

impl fmt::Display for AnswerText {
    ghost output = { λ x. Some (answer_text x.0) };

    fn fmt<W: fmt::Write>(&self, f: &mut fmt::Formatter<W>) -> fmt::Result {
        match self.0 {
            Ok(place) => write!(f, "{place}: written"),
            Err(fault) => write!(f, "{fault}"),
        }
    }
}

impl fmt::Display for LineFault {
    ghost output = { λ x. Some (line_fault_text x) };

    fn fmt<W: fmt::Write>(&self, f: &mut fmt::Formatter<W>) -> fmt::Result {
        match *self {
            LineFault::Unreadable => f.write_str(
                "cannot read this: a line is ADDRESS/LENGTH TREAD SLOT HOP, as 10.0.0.0/24 20 1 7",
            ),
            LineFault::NotPlaced(fault) => write!(f, "{fault}"),
        }
    }
}

impl fmt::Display for PlaceFault {
    ghost output = { λ x. Some (fault_text x) };

    fn fmt<W: fmt::Write>(&self, f: &mut fmt::Formatter<W>) -> fmt::Result {
        match *self {
            PlaceFault::LengthBeyondWidth => {
                write!(f, "the length is beyond the width of the address")
            }
            PlaceFault::BitsAfterLength => write!(f, "the address has bits after the length"),
            PlaceFault::UnknownTread => write!(f, "the list has no such tread"),
            PlaceFault::TreadBeyondLength => write!(f, "the tread is longer than the prefix"),
            PlaceFault::Refused(refusal) => write!(f, "refused by the store: {refusal}"),
        }
    }
}
