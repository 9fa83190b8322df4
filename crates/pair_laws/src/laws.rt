//! Laws of the runs of a pair. The functions do nothing: their contracts are the laws.

ghost use Rattle.pair_laws.specs.Numbers.{AboveIsGreater, IsAboveWronglyBehind, NumbersTellPlaces};
ghost use Rattle.pair_laws.specs.Laws.{SidesAreRuns, ActionsKeepJoined, PairsKeepWords};

/// While B has accepted at most 32,768 words, an acknowledgement that is above a word's number is greater than its place, and words with one number are one
/// word; at the place behind these it is not so.
#[tactic(auto, using(crate::proofs::Numbers::above_is_greater, crate::proofs::Numbers::numbers_tell_places))]
pub fn numbers_tell_places()
    ensures above { AboveIsGreater }
    ensures not_behind { IsAboveWronglyBehind }
    ensures equal { NumbersTellPlaces }
{}

/// In a run of a pair the moments of each side follow one another under its charges, but for what was brought to its board between two of them.
#[tactic(auto, using(crate::proofs::Sides::sides_are_runs))]
pub fn sides_are_runs()
    ensures { SidesAreRuns }
{}

/// Whatever is done to a pair, a step of a board or something that is brought, keeps its boards joined.
pub fn actions_keep_joined()
    ensures { ActionsKeepJoined }
{}

/// In each run of a pair the words accepted at B are the first of those that A emitted, and those consumed the first of the accepted ones; A's lines have
/// the words that B accepted since A's last done, which are those that its transition emitted.
pub fn pairs_keep_words()
    ensures { PairsKeepWords }
{}
