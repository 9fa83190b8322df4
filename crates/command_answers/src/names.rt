//! The names of files as lines tell them.
ghost use Rattle.std.specs.Prelude.{◌≡◌, ◌++◌};
ghost use Rattle.alp_io.specs.Count.{HasCause};
ghost use Rattle.alp_io.specs.Sink.{Writes};
ghost use Rattle.command_answers.specs.FileNames.{escaped, told_name, is_plain};

use alp_io::{Failed, Sink, write_all, write_pieces};
use alp_text::print_hex4;

/// Whether a name has no control character, and is told as it is.
pub fn is_plain(name: &[u8]) -> bool
    ensures { result ≡ is_plain name.now }
{
    name.iter().all(|b| !b.is_ascii_control())
}

// Writes a run of bytes as they are, and a control character behind it.
#[tactic(auto, unfolding(crate::specs::FileNames::escaped), using(crate::proofs::NameLaws::four_digits))]
fn write_run<E: Sink>(err: &mut E, run: &[u8], control: u8) -> Result<(), Failed>
    ensures bytes { Writes (E.contents err.old) (E.contents err.new) result (run.now ++ escaped control) }
    ensures cause { HasCause (E.faults err.old) (E.faults err.new) result }
{
    let digits = print_hex4(control as u16);
    write_pieces(err, &[run, b"\\x", &digits.as_bytes()[2..]])
}

/// Writes a name as lines tell it: each control character as `\x` and two hexadecimal digits, together with the bytes before it.
pub fn write_name<E: Sink>(err: &mut E, name: &[u8]) -> Result<(), Failed>
    ensures bytes { Writes (E.contents err.old) (E.contents err.new) result (told_name name.now) }
    ensures cause { HasCause (E.faults err.old) (E.faults err.new) result }
{
    let mut from = 0;
    for (at, b) in name.iter().enumerate() {
        if b.is_ascii_control() {
            write_run(err, &name[from..at], *b)?;
            from = at + 1;
        }
    }
    write_all(err, &name[from..])
}
