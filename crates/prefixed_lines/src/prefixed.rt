//! The lines.
ghost use Rattle.std.specs.Prelude.{◌≡◌, false};
ghost use Rattle.prefixed_lines.specs.Prefixes.{text_behind, Prefixes};

use crate::origin::LineOrigin;
use alp_io::{Failed, Sink};
use buffered_sink::Holds;
use std::marker::PhantomData;

const NEW_LINE: u8 = b'\n';

/// Lines before a sink, each of which gets a letter and a blank in front. It tells the lines without them. It takes no memory.
#[derive(Drop)]
pub struct PrefixedLines<'a, S: Holds, P: LineOrigin> {
    /// Where the lines are written.
    pub sink: &'a mut S,
    letter: u8,
    // Whether the last line hasn't ended.
    is_within: bool,
    origin: PhantomData<P>,
    pub ghost same_sink: { sink.ghost_name ≡ P.place },
    pub ghost same_letter: { letter ≡ P.letter },
}

impl<'a, S: Holds, P: LineOrigin> PrefixedLines<'a, S, P> {
    /// Lines with this letter, of which none is written yet.
    pub fn new(sink: &'a mut S, letter: u8) -> PrefixedLines<'a, S, P>
        requires place { sink.ghost_name ≡ P.place }
        requires letter { letter ≡ P.letter }
        ensures same_sink { result.sink.ghost_name ≡ sink.entry.ghost_name }
        ensures sink { result.sink.now ≡ sink.old }
        ensures start { result.is_within ≡ false }
    {
        PrefixedLines {
            sink,
            letter,
            is_within: false,
            origin: PhantomData,
        }
    }

    /// Gives the sink back, behind an answer of what wrote the lines. Where that wrote a text whole, the sink has it with the letter in
    /// front of each line; where it failed within a text, a proper prefix of that.
    #[tactic(auto, using(crate::proofs::Told::prefixes))]
    pub fn finish<T: Drop>(self, written: Result<T, Failed>) -> (&'a mut S, Result<T, Failed>)
        ensures same_sink { result.0.ghost_name ≡ self.entry.sink.ghost_name }
        ensures sink { result.0.now ≡ self.entry.sink.now }
        ensures answer { result.1 ≡ written }
        ensures text { Prefixes P.letter P.contents (text_behind P.contents (S.contents self.entry.sink.now) P.letter self.entry.is_within)
            (S.contents result.0.now) written }
    {
        let PrefixedLines {
            sink,
            letter: _,
            is_within: _,
            origin: _,
        } = self;
        (sink, written)
    }
}

impl<'a, S: Holds, P: LineOrigin> Sink for PrefixedLines<'a, S, P> {
    ghost contents = { λ s. text_behind P.contents (S.contents s.sink.now) P.letter s.is_within };

    ghost faults = { λ s. S.faults s.sink.now };

    /// Takes one byte, and the letter and the blank in front of it where a line begins.
    #[tactic(auto, using(crate::proofs::Told::byte_written, crate::proofs::Told::nothing_written))]
    fn write(&mut self, piece: &[u8]) -> Result<usize, Failed> {
        if piece.is_empty() {
            return Ok(0);
        }
        let byte = piece[0];
        if self.is_within {
            self.sink.hold(&[byte])?;
        } else {
            self.sink.hold(&[self.letter, b' ', byte])?;
        }
        self.is_within = byte != NEW_LINE;
        Ok(1)
    }
}
