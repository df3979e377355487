// Worked figures, for the reader: they follow from the definitions.
ghost use Rattle.layout.specs.Figures.{WorkedFigures};

// Does nothing: its contract is that the figures are what the definitions give.
#[tactic(auto, using(crate::proofs::Tables::worked_figures))]
pub fn worked_figures()
    ensures { WorkedFigures }
{}
