//! Laws of the allowance, as contracts of functions that do nothing.
ghost use Rattle.std.specs.Prelude.{ℕ, List};
ghost use Rattle.cost_bound.specs.declared.allowance.Allow.{Allow};
ghost use Rattle.cost_bound.specs.Allowance.{CheckedProgram, IsAllowed};
ghost use Rattle.cost_bound.specs.Rows.{PriceRows, LongPriceRows, AllowanceRows};
ghost use Rattle.cost_bound.specs.Laws.{OneAnswer, IsSmall};

/// Each line of the table of prices, counted by hand.
pub fn price_rows()
    ensures { PriceRows }
{}

/// What longs cost, counted by hand.
pub fn long_price_rows()
    ensures { LongPriceRows }
{}

/// The allowances of a few small sources, counted by hand.
#[tactic(auto, unfolding(crate::specs::Counts::emits_of, crate::specs::Counts::stores_of))]
pub fn allowance_rows()
    ensures { AllowanceRows }
{}

/// A source has one allowance, or else is too much in one way.
pub fn one_answer()
    ensures { (p : CheckedProgram) (lines : List ℕ) → OneAnswer p lines }
{}

/// An allowed source emits at most 256 words a task, and its words have all that its tasks need.
pub fn allowed_is_small()
    ensures { (p : CheckedProgram) (allow : Allow) → IsAllowed p allow → IsSmall allow }
{}
