//! Laws of word programs. The functions do nothing: their contracts are the laws.

ghost use Rattle.array_versions.specs.Laws.{JoinedGoOn, JoinedCycles, JoinedWords, JoinedSpend, WaysKeepToCycles, BehavesByEffects, WholeEndsSoundly};
ghost use Rattle.array_versions.specs.Laws.{WordsStayWords, FilledWords, FilledLocals, FilledOfWords, FilledJoined};
ghost use Rattle.array_versions.specs.Allowance.{StepsKeepToCycles, StepsKeepToWords, TestsKeepToCycles, TestsKeepToWords};

/// A program behind another does its steps behind the other's.
#[tactic(auto, using(crate::proofs::Joined::joined_go_on))]
pub fn joined_programs_go_on()
    ensures { JoinedGoOn }
{}

/// And they cost what both cost.
#[tactic(auto, using(crate::proofs::Joined::joined_cycles, crate::proofs::Joined::joined_words))]
pub fn joined_programs_cost_both()
    ensures cycles { JoinedCycles }
    ensures words { JoinedWords }
{}

/// On the way that it takes a program spends no more than its cycles, and of joined ones the second spends something only where
/// the first goes on.
#[tactic(auto, using(crate::proofs::Spent::joined_spend, crate::proofs::Spent::ways_keep_to_cycles))]
pub fn programs_spend_by_their_ways()
    ensures joined { JoinedSpend }
    ensures cycles { WaysKeepToCycles }
{}

/// A program changes FRAM and the readings by its effects alone.
#[tactic(auto, using(crate::proofs::Facts::behaves_by_effects))]
pub fn programs_behave_by_effects()
    ensures { BehavesByEffects }
{}

/// A whole program is never broken, and doesn't go on behind its last step.
#[tactic(auto, using(crate::proofs::Ways::whole_ends_soundly))]
pub fn whole_programs_end_soundly()
    ensures { WholeEndsSoundly }
{}

/// From words a program makes words.
#[tactic(auto, using(crate::proofs::Facts::words_stay_words))]
pub fn words_stay_words()
    ensures { WordsStayWords }
{}

/// The bodies of the functions that a program calls are no part of its words and its locals.
#[tactic(auto, using(crate::proofs::Filled::filled_words, crate::proofs::Filled::filled_locals))]
pub fn programs_are_filled()
    ensures words { FilledWords }
    ensures locals { FilledLocals }
{}

/// With bodies of words a program is of words; and two programs have theirs each by itself.
#[tactic(auto, using(crate::proofs::Filled::filled_of_words, crate::proofs::Filled::filled_joined))]
pub fn filled_programs_are_joined()
    ensures of_words { FilledOfWords }
    ensures joined { FilledJoined }
{}

/// Each step costs no more cycles and words than the allowance of a source has for what it is a part of.
#[tactic(auto, using(crate::proofs::Kept::steps_keep_to_cycles, crate::proofs::Kept::steps_keep_to_words))]
pub fn steps_keep_to_the_allowance()
    ensures cycles { StepsKeepToCycles }
    ensures words { StepsKeepToWords }
{}

/// So does each test.
#[tactic(auto, using(crate::proofs::Kept::tests_keep_to_cycles, crate::proofs::Kept::tests_keep_to_words))]
pub fn tests_keep_to_the_allowance()
    ensures cycles { TestsKeepToCycles }
    ensures words { TestsKeepToWords }
{}
