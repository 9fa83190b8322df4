//! Why a state isn't taken.
ghost use Rattle.std.specs.Prelude.{◌≡◌};
ghost use Rattle.fram_state.specs.Rules.{rule_name};

use thiserror::Error;

/// What a sound state keeps, rule by rule, in the order in which the rules are looked at.
#[derive(Clone, Copy, Debug, PartialEq, Eq)]
pub enum Rule {
    /// GATE is 0 or 1.
    Gate,
    /// CUR names a task.
    CurrentTask,
    /// The version words are in the FRAM, and none is above VER.
    Versions,
    /// BASE is the number of the word that the receiver takes next; in a pending commit SB, or SB and EN.
    Base,
    /// The commit list is in the FRAM, and CLN is at most its capacity.
    ListLength,
    /// The emits are in the FRAM, and EN is at most their capacity.
    EmitCount,
    /// NEXT names a task, in a pending commit.
    NextTask,
    /// The receiver is at most EN words behind SB, in a pending commit.
    SentBase,
    /// The runs of the commit list go from copies to shared words, in a pending commit, and have at most the capacity of words.
    List,
    /// The ring of events, where the map has one, has at most 64 words from TAIL to HEAD; in a pending commit SE is none behind HEAD.
    Ring,
}

impl Rule {
    /// The name by which a refusal tells the rule.
    pub fn name(self) -> &'static [u8]
        ensures { result.now ≡ rule_name self }
    {
        match self {
            Rule::Gate => b"GATE",
            Rule::CurrentTask => b"CUR",
            Rule::Versions => b"versions",
            Rule::Base => b"BASE",
            Rule::ListLength => b"CLN",
            Rule::EmitCount => b"EN",
            Rule::NextTask => b"NEXT",
            Rule::SentBase => b"SB",
            Rule::List => b"list",
            Rule::Ring => b"ring",
        }
    }
}

/// What keeps a board from going on from a state with an image.
#[derive(Clone, Copy, Debug, PartialEq, Eq, Error)]
pub enum StateFault {
    /// The image has no map, or the state another one or none.
    #[error("the map isn't that of the image")]
    OtherMap,
    /// The word at this address is the first, of those that the map doesn't name, that isn't the image's.
    #[error("the word at {address} isn't that of the image")]
    OtherWord { address: u16 },
    /// This is the first rule that the state breaks.
    #[error("the state isn't sound")]
    Unsound { rule: Rule },
}
