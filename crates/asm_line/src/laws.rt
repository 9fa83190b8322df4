//! Laws of the definitions, as contracts of functions that do nothing.
ghost use Rattle.std.specs.Prelude.{◌≡◌};
ghost use Rattle.asm_line.specs.Pieces.{Located};
ghost use Rattle.asm_line.specs.Lines.{line_of};
ghost use Rattle.asm_line.specs.Places.{Same, LineSame};

/// A line says the same wherever it stands, but for the places of its labels.
#[tactic(auto, using(crate::proofs::Moved::line_same))]
pub fn lines_say_the_same_anywhere()
    ensures { (p q : Located) → p.text ≡ q.text → Same LineSame (line_of p) (line_of q) }
{}
