//! The buffer.
ghost use Rattle.std.specs.Prelude.{◌≡◌, ℕ, ◌≤◌, ◌<◌, [], length, drop, Ok, OnOk, OnErr, IfOk};
ghost use Rattle.std.specs.Io.KnownBytes.{Keeps, append_known};
ghost use Rattle.alp_io.specs.Count.{HasCause};
ghost use Rattle.buffered_sink.specs.Front.{front_of, Settles};

use crate::holds::Holds;
use crate::origin::Origin;
use alp_io::{Failed, Sink};
use arrayvec::ArrayVec;
use std::marker::PhantomData;

/// A buffer of 4096 bytes before a sink. What it takes waits until the next piece has no room, and is handed on then, in one call
/// where the sink takes it so. It tells what the sink has and behind it what waits. It takes no memory.
#[derive(Drop)]
pub struct BufferedSink<'a, S: Sink, P: Origin> {
    /// Where the bytes are handed on.
    pub sink: &'a mut S,
    /// The bytes that wait.
    pub waiting: ArrayVec<u8, 4096>,
    origin: PhantomData<P>,
    pub ghost same_sink: { sink.ghost_name ≡ P.place },
    pub ghost begun: { front_of P.contents (S.contents sink.now) ≡ P.contents },
}

// Takes the first bytes away.
fn remove_front(waiting: &mut ArrayVec<u8, 4096>, count: usize)
    requires { count ≤ length waiting.old.items }
    ensures { waiting.new.items ≡ drop count waiting.old.items }
{
    let rest = waiting.len() - count;
    waiting.as_mut_slice().copy_within(count.., 0);
    waiting.truncate(rest);
}

impl<'a, S: Sink, P: Origin> BufferedSink<'a, S, P> {
    /// A buffer in which nothing waits.
    pub fn new(sink: &'a mut S) -> BufferedSink<'a, S, P>
        requires place { sink.ghost_name ≡ P.place }
        requires contents { S.contents sink.old ≡ P.contents }
        ensures same_sink { result.sink.ghost_name ≡ sink.entry.ghost_name }
        ensures sink { result.sink.now ≡ sink.old }
        ensures contents { append_known (S.contents result.sink.now) result.waiting.items ≡ P.contents }
    {
        BufferedSink {
            sink,
            waiting: ArrayVec::new(),
            origin: PhantomData,
        }
    }

    // Hands on all that waits. After `Failed` the sink has taken a front of it, and the rest still waits.
    fn hand_on(&mut self) -> Result<(), Failed>
        ensures bytes { Keeps (append_known (S.contents self.old.sink.now) self.old.waiting.items)
            (append_known (S.contents self.new.sink.now) self.new.waiting.items) }
        ensures all { OnOk result (self.new.waiting.items ≡ []) }
        ensures rest { OnErr result (0 < length self.new.waiting.items) }
        ensures cause { HasCause (S.faults self.old.sink.now) (S.faults self.new.sink.now) result }
    {
        while !self.waiting.is_empty() {
            let count = self.sink.write(self.waiting.as_slice())?;
            remove_front(&mut self.waiting, count);
        }
        Ok(())
    }

    // Hands on what waits behind a text that was taken whole.
    fn settle<T: Drop>(&mut self, written: Result<T, Failed>) -> Result<T, Failed>
        ensures text { Settles P.contents (append_known (S.contents self.old.sink.now) self.old.waiting.items) (S.contents self.new.sink.now)
            written result }
        ensures value { IfOk result (λ x. written ≡ Ok x) }
        ensures cause { (before : ℕ) → HasCause before (S.faults self.old.sink.now) written → HasCause before (S.faults self.new.sink.now) result }
    {
        let value = written?;
        self.hand_on()?;
        Ok(value)
    }

    /// Ends the buffer, and gives the sink back. Behind a text that was taken whole what waits is handed on, and `Failed` is answered
    /// where that fails; behind a failure nothing is handed on, and what waits is lost. So the sink has the whole text, or after
    /// `Failed` a proper prefix of it.
    pub fn finish<T: Drop>(mut self, written: Result<T, Failed>) -> (&'a mut S, Result<T, Failed>)
        ensures same_sink { result.0.ghost_name ≡ self.entry.sink.ghost_name }
        ensures text { Settles P.contents (append_known (S.contents self.entry.sink.now) self.entry.waiting.items) (S.contents result.0.now)
            written result.1 }
        ensures value { IfOk result.1 (λ x. written ≡ Ok x) }
        ensures cause { (before : ℕ) → HasCause before (S.faults self.entry.sink.now) written → HasCause before (S.faults result.0.now) result.1 }
    {
        let result = self.settle(written);
        let BufferedSink {
            sink,
            waiting: _,
            origin: _,
        } = self;
        (sink, result)
    }
}

impl<'a, S: Sink, P: Origin> Sink for BufferedSink<'a, S, P> {
    ghost contents = { λ s. append_known (S.contents s.sink.now) s.waiting.items };

    ghost faults = { λ s. S.faults s.sink.now };

    /// Keeps the piece, or hands on what waits and keeps it then. A piece of more than 4096 bytes goes to the sink at once.
    fn write(&mut self, piece: &[u8]) -> Result<usize, Failed> {
        if self.waiting.try_extend_from_slice(piece).is_ok() {
            return Ok(piece.len());
        }
        self.hand_on()?;
        if self.waiting.try_extend_from_slice(piece).is_ok() {
            return Ok(piece.len());
        }
        self.sink.write(piece)
    }
}

impl<'a, S: Sink, P: Origin> Holds for BufferedSink<'a, S, P> {
    fn hold(&mut self, piece: &[u8]) -> Result<(), Failed> {
        if self.waiting.try_extend_from_slice(piece).is_ok() {
            return Ok(());
        }
        self.hand_on()?;
        self.waiting.try_extend_from_slice(piece).unwrap();
        Ok(())
    }
}
