//! Laws of the board. The functions do nothing: their contracts are the laws.

ghost use Rattle.fram_board.specs.Laws.{IsDeterminedStep, StepTakesItsCost, StepMakesItsEffects, HasRun, HasOneRun, AcceptedAreCounted, PowerUpLeavesABoard};
ghost use Rattle.fram_board.specs.Laws.{FillIsAPowerState, AcceptanceMakesItsStores};

/// A board steps in one way.
#[tactic(auto, using(crate::proofs::Runs::determined_step))]
pub fn board_step_is_determined()
    ensures { IsDeterminedStep }
{}

/// A step that is made takes the cycles that the board's `cost` answers.
#[tactic(auto, using(crate::proofs::Acceptances::step_takes_its_cost))]
pub fn board_step_takes_its_cost()
    ensures { StepTakesItsCost }
{}

/// An acceptance that is made changes FRAM by its two stores, PC's before SR's, and beside it the registers and RAM alone.
#[tactic(auto, using(crate::proofs::Acceptances::acceptance_makes_its_stores))]
pub fn acceptance_makes_its_stores()
    ensures { AcceptanceMakesItsStores }
{}

/// An instruction changes FRAM by its one store, of a whole word, and the receiver by its one send; it takes at most two
/// readings.
#[tactic(auto, using(crate::proofs::Effects::step_makes_its_effects))]
pub fn board_step_makes_its_effects()
    ensures { StepMakesItsEffects }
{}

/// A board has exactly one run under any charges and power-up states.
#[tactic(auto, using(crate::proofs::Runs::has_run, crate::proofs::Runs::has_one_run))]
pub fn board_has_one_run()
    ensures exists { HasRun }
    ensures unique { HasOneRun }
{}

/// The receiver's count rises by the number of the words that a run's moments tell.
#[tactic(auto, using(crate::proofs::Counts::accepted_are_counted))]
pub fn accepted_words_are_counted()
    ensures { AcceptedAreCounted }
{}

/// Any words may be what a power-up leaves, and a fill word is one such state.
#[tactic(auto, using(crate::proofs::Powers::power_up_leaves_a_board, crate::proofs::Powers::fill_is_a_power_state))]
pub fn power_up_leaves_a_board()
    ensures board { PowerUpLeavesABoard }
    ensures fill { FillIsAPowerState }
{}
