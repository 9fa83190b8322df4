//! Laws of plans, as contracts of functions that do nothing.
ghost use Rattle.cost_bound.specs.Allowance.{CheckedProgram};
ghost use Rattle.war_analysis.specs.Laws.{OnePlan};

/// A source has one plan.
pub fn one_plan()
    ensures { (p : CheckedProgram) → OnePlan p }
{}
