//! Laws of the commit's code. The functions do nothing: their contracts are the laws.

ghost use Rattle.commit_runtime.specs.Laws.{CommitIsMade, CommitIsShort, CommitIsCode, CommitStoresInFram};

/// From where it stands the code makes exactly the commit and comes to the attempt's start, whatever the registers hold.
#[tactic(auto, using(crate::proofs::Commit::commit_is_made))]
pub fn commit_is_made()
    ensures { CommitIsMade }
{}

/// The code is 41 words long, 44 where there are events, and each of its instructions has its words.
#[tactic(auto, using(crate::proofs::Words::commit_is_short, crate::proofs::Words::commit_is_code))]
pub fn commit_is_short()
    ensures short { CommitIsShort }
    ensures code { CommitIsCode }
{}

/// All that a commit stores are words of FRAM.
#[tactic(auto, using(crate::proofs::Copies::commit_stores_in_fram))]
pub fn commit_stores_in_fram()
    ensures { CommitStoresInFram }
{}
