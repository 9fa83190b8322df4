//! The words of the runtime.

/// A word of the runtime. They stand side by side, in this order.
#[derive(Clone, Copy)]
pub enum RuntimeWord {
    /// CUR: the number of the task that runs.
    CurrentTask,
    /// NEXT: the number of the task that the transition chose.
    NextTask,
    /// GATE: 1 from the transition to the end of its commit.
    Gate,
    /// CLN: the entries in the commit list.
    ListLength,
    /// EN: the words that the attempt emitted.
    EmitCount,
    /// BASE: the number of the next word to send.
    Base,
    /// SB: BASE as the transition found it.
    SentBase,
    /// VER: the number of the attempt.
    Version,
}

/// How many words of the runtime there are.
pub const ROW_WORDS: u32 = 8;

impl RuntimeWord {
    ghost use Rattle.std.specs.Prelude.{◌≡◌, ◌<◌};
    ghost use Rattle.memory_map.specs.Words.{index_of, row_words};

    /// How many words of the runtime stand before it.
    pub fn index(self) -> u16
        ensures value { result ≡ index_of self }
        ensures below { result < row_words }
    {
        match self {
            RuntimeWord::CurrentTask => 0,
            RuntimeWord::NextTask => 1,
            RuntimeWord::Gate => 2,
            RuntimeWord::ListLength => 3,
            RuntimeWord::EmitCount => 4,
            RuntimeWord::Base => 5,
            RuntimeWord::SentBase => 6,
            RuntimeWord::Version => 7,
        }
    }
}
