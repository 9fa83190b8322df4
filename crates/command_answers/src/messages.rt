//! The one line to standard error that goes with a status. A write that fails leaves the status as it is.
ghost use Rattle.std.specs.Prelude.{◌≤◌, flat_map, ◌∷◌, ◌++◌, [], codes};
ghost use Rattle.alp_io.specs.Count.{HasCause};
ghost use Rattle.alp_io.specs.Report.{texts};
ghost use Rattle.alp_io.specs.Sink.{Writes};
ghost use Rattle.command_answers.specs.FileNames.{told_name};
ghost use Rattle.command_answers.specs.Messages.{Tells, unreadable_line, too_long_line, unput_line, unwritable_line, memory_line, machine_fault_line};
ghost use Rattle.command_answers.specs.Messages.{differs_line, usage_line};
ghost use Rattle.command_answers.specs.Refusals.{refused_line};
ghost use Rattle.command_answers.specs.Views.{refusal_of};

use crate::names::{is_plain, write_name};
use crate::refusal::{Detail, Refusal};
use alp_io::{Failed, Sink, write_all, write_pieces};
use alp_text::{print_hex4, print_u64};

fn tell<E: Sink>(err: &mut E, pieces: &[&[u8]])
    ensures line { Tells (E.contents err.old) (E.contents err.new) (E.faults err.old) (E.faults err.new)
        (flat_map (λ piece. piece.now) pieces.now) }
    ensures faults { E.faults err.old ≤ E.faults err.new }
{
    let _ = write_pieces(err, pieces);
}

// Writes a line around a name that has control characters, in several calls.
fn write_around<E: Sink>(
    err: &mut E,
    front: &[u8],
    name: &[u8],
    back: &[&[u8]],
) -> Result<(), Failed>
    ensures bytes { Writes (E.contents err.old) (E.contents err.new) result
        (front.now ++ (told_name name.now ++ flat_map (λ piece. piece.now) back.now)) }
    ensures cause { HasCause (E.faults err.old) (E.faults err.new) result }
{
    write_all(err, front)?;
    write_name(err, name)?;
    write_pieces(err, back)
}

fn tell_around<E: Sink>(err: &mut E, front: &[u8], name: &[u8], back: &[&[u8]])
    ensures line { Tells (E.contents err.old) (E.contents err.new) (E.faults err.old) (E.faults err.new)
        (front.now ++ (told_name name.now ++ flat_map (λ piece. piece.now) back.now)) }
    ensures faults { E.faults err.old ≤ E.faults err.new }
{
    let _ = write_around(err, front, name, back);
}

// The line of a file, from what stands in front of its name.
fn tell_file<E: Sink>(err: &mut E, front: &[u8], name: &[u8])
    ensures line { Tells (E.contents err.old) (E.contents err.new) (E.faults err.old) (E.faults err.new)
        (texts (front.now ∷ told_name name.now ∷ codes "\n" ∷ [])) }
    ensures faults { E.faults err.old ≤ E.faults err.new }
{
    if is_plain(name) {
        tell(err, &[front, name, b"\n"]);
    } else {
        tell_around(err, front, name, &[b"\n"]);
    }
}

// The line of a refusal, from its parts.
fn tell_parts<'a, E: Sink>(
    err: &mut E,
    name: &'a [u8],
    line: &'a [u8],
    kind: &'a [u8],
    space: &'a [u8],
    detail: &'a [u8],
)
    ensures line { Tells (E.contents err.old) (E.contents err.new) (E.faults err.old) (E.faults err.new)
        (texts (codes "refused " ∷ told_name name.now ∷ codes " " ∷ line.now ∷ codes " " ∷ kind.now ∷ space.now ∷ detail.now ∷ codes "\n" ∷ [])) }
    ensures faults { E.faults err.old ≤ E.faults err.new }
{
    if is_plain(name) {
        tell(
            err,
            &[
                b"refused ",
                name,
                b" ",
                line,
                b" ",
                kind,
                space,
                detail,
                b"\n",
            ],
        );
    } else {
        tell_around(
            err,
            b"refused ",
            name,
            &[b" ", line, b" ", kind, space, detail, b"\n"],
        );
    }
}

/// The line of a refused text.
#[tactic(auto, unfolding(crate::specs::Refusals::refused_line))]
pub fn tell_refused<E: Sink>(err: &mut E, name: &str, refusal: &Refusal<'_>)
    ensures line { Tells (E.contents err.old) (E.contents err.new) (E.faults err.old) (E.faults err.new) (refused_line name.now (refusal_of refusal.now)) }
    ensures faults { E.faults err.old ≤ E.faults err.new }
{
    let line = print_u64(refusal.line as u64);
    let name = name.as_bytes();
    let kind = refusal.kind.as_bytes();
    match refusal.detail {
        Detail::Nothing => tell_parts(err, name, line.as_bytes(), kind, b"", b""),
        Detail::Name(bytes) => tell_parts(err, name, line.as_bytes(), kind, b" ", bytes),
        Detail::Number(n) => {
            let digits = print_u64(n);
            tell_parts(err, name, line.as_bytes(), kind, b" ", digits.as_bytes())
        }
        Detail::Address(address) => {
            let digits = print_hex4(address);
            tell_parts(err, name, line.as_bytes(), kind, b" ", digits.as_bytes())
        }
    }
}

#[tactic(auto, unfolding(crate::specs::Messages::unreadable_line))]
pub fn tell_unreadable<E: Sink>(err: &mut E, name: &str)
    ensures line { Tells (E.contents err.old) (E.contents err.new) (E.faults err.old) (E.faults err.new) (unreadable_line name.now) }
    ensures faults { E.faults err.old ≤ E.faults err.new }
{
    tell_file(err, b"cannot read ", name.as_bytes());
}

#[tactic(auto, unfolding(crate::specs::Messages::too_long_line))]
pub fn tell_too_long<E: Sink>(err: &mut E, name: &str)
    ensures line { Tells (E.contents err.old) (E.contents err.new) (E.faults err.old) (E.faults err.new) (too_long_line name.now) }
    ensures faults { E.faults err.old ≤ E.faults err.new }
{
    tell_file(err, b"too long ", name.as_bytes());
}

#[tactic(auto, unfolding(crate::specs::Messages::unput_line))]
pub fn tell_unput<E: Sink>(err: &mut E, name: &str)
    ensures line { Tells (E.contents err.old) (E.contents err.new) (E.faults err.old) (E.faults err.new) (unput_line name.now) }
    ensures faults { E.faults err.old ≤ E.faults err.new }
{
    tell_file(err, b"cannot write ", name.as_bytes());
}

#[tactic(auto, unfolding(crate::specs::Messages::unwritable_line))]
pub fn tell_unwritable<E: Sink>(err: &mut E)
    ensures line { Tells (E.contents err.old) (E.contents err.new) (E.faults err.old) (E.faults err.new) unwritable_line }
    ensures faults { E.faults err.old ≤ E.faults err.new }
{
    tell(err, &[b"cannot write output\n"]);
}

/// The line for refused memory, which takes none.
#[tactic(auto, unfolding(crate::specs::Messages::memory_line))]
pub fn tell_out_of_memory<E: Sink>(err: &mut E)
    ensures line { Tells (E.contents err.old) (E.contents err.new) (E.faults err.old) (E.faults err.new) memory_line }
    ensures faults { E.faults err.old ≤ E.faults err.new }
{
    tell(err, &[b"out of memory\n"]);
}

#[tactic(auto, unfolding(crate::specs::Messages::machine_fault_line))]
pub fn tell_machine_fault<E: Sink>(err: &mut E)
    ensures line { Tells (E.contents err.old) (E.contents err.new) (E.faults err.old) (E.faults err.new) machine_fault_line }
    ensures faults { E.faults err.old ≤ E.faults err.new }
{
    tell(err, &[b"machine fault\n"]);
}

/// The line for a report that isn't one that its source could have told.
#[tactic(auto, unfolding(crate::specs::Messages::differs_line))]
pub fn tell_differs<E: Sink>(err: &mut E)
    ensures line { Tells (E.contents err.old) (E.contents err.new) (E.faults err.old) (E.faults err.new) differs_line }
    ensures faults { E.faults err.old ≤ E.faults err.new }
{
    tell(err, &[b"report differs\n"]);
}

/// The line for words that are no command line.
#[tactic(auto, unfolding(crate::specs::Messages::usage_line))]
pub fn tell_usage<E: Sink>(err: &mut E)
    ensures line { Tells (E.contents err.old) (E.contents err.new) (E.faults err.old) (E.faults err.new) usage_line }
    ensures faults { E.faults err.old ≤ E.faults err.new }
{
    tell(
        err,
        &[
            b"usage: alpaca mean SRC TRACE | try SRC TRACE IMAGE | build SRC IMAGE | run IMAGE TRACE | asm ASM IMAGE | dis IMAGE | gen N IMAGE \
              | save IMAGE TRACE STATE | resume IMAGE STATE TRACE | migrate SRC IMAGE STATE NEWSRC NEWIMAGE NEWSTATE \
              | undo SRC TRACE IMAGE | audit SRC REPORT TRACE\n",
        ],
    );
}
