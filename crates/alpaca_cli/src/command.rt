//! The commands of the program.
ghost use Rattle.std.specs.Prelude.{◌≡◌, ℕ, List, ◌≤◌, ◌⊎◌, map, string_bytes, IfSome};
ghost use Rattle.plain_commands.specs.alp_io.Count.{Rose};
ghost use Rattle.plain_commands.specs.alp_io.Shelf.{NeverFall};
ghost use Rattle.plain_commands.specs.command_answers.InputFiles.{AreHeld};
ghost use Rattle.alpaca_cli.specs.Calls.{Call, IsAudit, IsRun, OnLine, Says, reads};
ghost use Rattle.alpaca_cli.specs.Products.{AreAccepted};
ghost use Rattle.alpaca_cli.specs.Answers.{Answers, IsCarriedOut, OthersStand};

use crate::calls::answer_command;
use command_line::{WordsFault, command_of};
use plain_commands::answers::{Status, messages};
use plain_commands::boards::board_has_one_run;
use plain_commands::outside::{Shelf, Sink};
use plain_commands::texts::one_answer;
use state_commands::{answers_are_one, no_migration_is_refused};
use std::alloc::Global;

// The answer to the words.
fn answer<H: Shelf, O: Sink, E: Sink>(
    alloc: Global,
    words: &[String],
    shelf: &mut H,
    out: &mut O,
    err: &mut E,
) -> Status
    ensures counts { NeverFall (H.counts shelf.old) (H.counts shelf.new) }
    ensures out_faults { O.faults out.old ≤ O.faults out.new }
    ensures err_faults { E.faults err.old ≤ E.faults err.new }
    ensures answers { Answers result (map string_bytes words.entry.now)
        (record { old = H.files shelf.old; new = H.files shelf.new; counts_old = H.counts shelf.old; counts_new = H.counts shelf.new })
        (record { old = O.contents out.old; new = O.contents out.new; faults_old = O.faults out.old; faults_new = O.faults out.new })
        (record { old = E.contents err.old; new = E.contents err.new; faults_old = E.faults err.old; faults_new = E.faults err.new }) }
{
    match command_of(alloc, words) {
        Ok(command) => answer_command(alloc, command, shelf, out, err),
        Err(WordsFault::Usage) => {
            messages::tell_usage(err);
            Status::Usage
        }
        Err(WordsFault::Memory) => {
            messages::tell_out_of_memory(err);
            Status::OutOfMemory
        }
    }
}

/// Runs the program on its words, without its own name.
///
/// `mean SRC TRACE` writes to `out` the report of the source's meaning on the trace's readings, `run IMAGE TRACE` that of the
/// image's run on the board under the trace's charges, and `dis IMAGE` the assembler text of the image. `asm ASM IMAGE` puts the
/// image of the assembler text under the name IMAGE, and `build SRC IMAGE` that of the source, whose bound it writes; `try SRC TRACE
/// IMAGE` puts it too, and writes the report of its run; `undo SRC TRACE IMAGE` does the same with the image of the runtime that works in place and puts
/// old words back. `gen N IMAGE` puts the image of the source that is generated from N, and writes
/// four lines of its run. `save IMAGE TRACE STATE` runs the image, or the state that it is, puts the state at the run's end and writes
/// the last line of its report; `resume IMAGE STATE TRACE` writes the report of the run that goes on from a state of the image.
/// `migrate SRC IMAGE STATE NEWSRC NEWIMAGE NEWSTATE` puts the state of a new edition of the program that goes on in place of an old state.
/// `audit SRC REPORT TRACE` writes whether the source could have told the report on the trace's readings. Every other answer than `Done`
/// writes its one line to `err`.
pub fn alpaca<H: Shelf, O: Sink, E: Sink>(
    alloc: Global,
    words: &[String],
    shelf: &mut H,
    out: &mut O,
    err: &mut E,
) -> Status
    // No file is changed but one that the words put, and no count falls.
    ensures files { OthersStand (map string_bytes words.entry.now) (H.files shelf.old) (H.files shelf.new) }
    ensures counts { NeverFall (H.counts shelf.old) (H.counts shelf.new) }
    ensures out_faults { O.faults out.old ≤ O.faults out.new }
    ensures err_faults { E.faults err.old ≤ E.faults err.new }

    // What each status says.
    ensures answers { Answers result (map string_bytes words.entry.now)
        (record { old = H.files shelf.old; new = H.files shelf.new; counts_old = H.counts shelf.old; counts_new = H.counts shelf.new })
        (record { old = O.contents out.old; new = O.contents out.new; faults_old = O.faults out.old; faults_new = O.faults out.new })
        (record { old = E.contents err.old; new = E.contents err.new; faults_old = E.faults err.old; faults_new = E.faults err.new }) }

    // Words that are no line are answered by the usage, or memory ran out.
    ensures no_line { (OnLine (map string_bytes words.entry.now) (λ call. Unit {0}) → ⊥)
        → (result ≡ Status.Usage) ⊎ (result ≡ Status.OutOfMemory) }

    // Only the run of an image or a state that was read may meet a machine fault: `try` and `gen` never answer so.
    ensures only_runs_fault { result ≡ Status.MachineFault → OnLine (map string_bytes words.entry.now) IsRun }

    // Only an audit may answer that a report differs.
    ensures only_audits_differ { result ≡ Status.Differs → OnLine (map string_bytes words.entry.now) IsAudit }

    // Where the words are a line, the files are told and fit, their texts are accepted, and no read, no put and no write fails,
    // the command is carried out and ends as its status says, or memory ran out.
    ensures complete { IfSome (H.files shelf.old) (λ f. (call : Call) (texts : List (List ℕ))
        → Says (map string_bytes words.entry.now) call → AreHeld f (reads call) texts → AreAccepted call texts
        → ¬ Rose (H.counts shelf.old).failed_reads (H.counts shelf.new).failed_reads
        → ¬ Rose (H.counts shelf.old).failed_puts (H.counts shelf.new).failed_puts → ¬ Rose (O.faults out.old) (O.faults out.new)
        → IsCarriedOut call texts result ⊎ (result ≡ Status.OutOfMemory)) }
{
    board_has_one_run();
    one_answer();
    answers_are_one();
    no_migration_is_refused();
    answer(alloc, words, shelf, out, err)
}
