//! Laws of the definitions, as contracts of functions that do nothing.
ghost use Rattle.command_answers.specs.FileNames.{IsToldPlainly, NameRows};

/// A name is told without control characters, whatever it holds: so one failure is one line. A name that has none is told as it is.
pub fn names_are_told_plainly(name: &[u8])
    ensures { IsToldPlainly name.now }
{}

/// Names, row by row.
#[tactic(auto, unfolding(crate::specs::FileNames::escaped, alp_text::specs::Numbers::hex4))]
pub fn told_names()
    ensures { NameRows }
{}
