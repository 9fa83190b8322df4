//! Sinks that take a short piece whole or not at all.
ghost use Rattle.std.specs.Prelude.{◌≤◌, length, OnOk, OnErr};
ghost use Rattle.std.specs.Io.KnownBytes.{Appends, Keeps};
ghost use Rattle.alp_io.specs.Count.{HasCause};

use alp_io::{Failed, Sink};

/// A sink that takes a short piece whole or not at all.
pub trait Holds: Sink {
    /// Appends a piece of at most 4096 bytes. After `Failed` none of it was taken.
    fn hold(&mut self, piece: &[u8]) -> Result<(), Failed>
        requires { length piece.now ≤ 4096 }
        ensures taken { OnOk result (Appends (Self.contents self.old) (Self.contents self.new) piece.now) }
        ensures kept { OnErr result (Keeps (Self.contents self.old) (Self.contents self.new)) }
        ensures cause { HasCause (Self.faults self.old) (Self.faults self.new) result };
}
