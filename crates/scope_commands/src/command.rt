//! The commands of the program.
ghost use Rattle.std.specs.Prelude.{◌≡◌, ℕ, List, ◌≤◌, ◌⊎◌, IfSome, map, string_bytes};
ghost use Rattle.plain_commands.specs.alp_io.Count.{Rose};
ghost use Rattle.plain_commands.specs.alp_io.Shelf.{NeverFall, Told};
ghost use Rattle.plain_commands.specs.command_answers.Messages.{Tells};
ghost use Rattle.plain_commands.specs.command_answers.CommandAnswers.{CommandAnswers};
ghost use Rattle.scope_commands.specs.Answers.{IsToBeDone, OnScopeLine, ScopeAnswers, promise_of, scope_usage};

use crate::bounds::answer_bounds;
use plain_commands::answers::{Status, messages};
use plain_commands::outside::{Shelf, Sink, write_all};
use plain_commands::texts::one_answer;
use scope_line::{Command, WordsFault, command_of};
use std::alloc::Global;

/// The line for words that are no command line.
#[tactic(auto, unfolding(crate::specs::Answers::scope_usage))]
pub fn tell_usage<E: Sink>(err: &mut E)
    ensures line { Tells (E.contents err.old) (E.contents err.new) (E.faults err.old) (E.faults err.new) scope_usage }
    ensures faults { E.faults err.old ≤ E.faults err.new }
{
    let _ = write_all(err, b"usage: alpaca-scope bounds SRC\n");
}

// The answer to a command.
fn answer_command<H: Shelf, O: Sink, E: Sink>(
    alloc: Global,
    command: Command<'_>,
    shelf: &mut H,
    out: &mut O,
    err: &mut E,
) -> Status
    ensures counts { NeverFall (H.counts shelf.old) (H.counts shelf.new) }
    ensures out_faults { O.faults out.old ≤ O.faults out.new }
    ensures err_faults { E.faults err.old ≤ E.faults err.new }
    ensures answers { CommandAnswers result (promise_of command.entry)
        (record { old = H.files shelf.old; new = H.files shelf.new; counts_old = H.counts shelf.old; counts_new = H.counts shelf.new })
        (record { old = O.contents out.old; new = O.contents out.new; faults_old = O.faults out.old; faults_new = O.faults out.new })
        (record { old = E.contents err.old; new = E.contents err.new; faults_old = E.faults err.old; faults_new = E.faults err.new }) }
{
    match command {
        Command::Bounds { source } => answer_bounds(alloc, source, shelf, out, err),
    }
}

// The answer to the words.
fn answer<H: Shelf, O: Sink, E: Sink>(
    alloc: Global,
    words: &[String],
    shelf: &mut H,
    out: &mut O,
    err: &mut E,
) -> Status
    ensures counts { NeverFall (H.counts shelf.old) (H.counts shelf.new) }
    ensures out_faults { O.faults out.old ≤ O.faults out.new }
    ensures err_faults { E.faults err.old ≤ E.faults err.new }
    ensures answers { ScopeAnswers result (map string_bytes words.entry.now)
        (record { old = H.files shelf.old; new = H.files shelf.new; counts_old = H.counts shelf.old; counts_new = H.counts shelf.new })
        (record { old = O.contents out.old; new = O.contents out.new; faults_old = O.faults out.old; faults_new = O.faults out.new })
        (record { old = E.contents err.old; new = E.contents err.new; faults_old = E.faults err.old; faults_new = E.faults err.new }) }
{
    match command_of(alloc, words) {
        Ok(command) => answer_command(alloc, command, shelf, out, err),
        Err(WordsFault::Usage) => {
            tell_usage(err);
            Status::Usage
        }
        Err(WordsFault::Memory) => {
            messages::tell_out_of_memory(err);
            Status::OutOfMemory
        }
    }
}

/// Runs the program on its words, without its own name.
///
/// `bounds SRC` writes to `out` what each task of the source needs of a charge, in cycles, with its parts. Every other answer than `Done`
/// writes its one line to `err`. No file is put.
pub fn alpaca_scope<H: Shelf, O: Sink, E: Sink>(
    alloc: Global,
    words: &[String],
    shelf: &mut H,
    out: &mut O,
    err: &mut E,
) -> Status
    // No file is changed, and no count falls.
    ensures files { (name : List ℕ) → Told (H.files shelf.old) (H.files shelf.new) (λ before after. after name ≡ before name) }
    ensures counts { NeverFall (H.counts shelf.old) (H.counts shelf.new) }
    ensures out_faults { O.faults out.old ≤ O.faults out.new }
    ensures err_faults { E.faults err.old ≤ E.faults err.new }

    // What each status says.
    ensures answers { ScopeAnswers result (map string_bytes words.entry.now)
        (record { old = H.files shelf.old; new = H.files shelf.new; counts_old = H.counts shelf.old; counts_new = H.counts shelf.new })
        (record { old = O.contents out.old; new = O.contents out.new; faults_old = O.faults out.old; faults_new = O.faults out.new })
        (record { old = E.contents err.old; new = E.contents err.new; faults_old = E.faults err.old; faults_new = E.faults err.new }) }

    // Words that are no line are answered by the usage, or memory ran out.
    ensures no_line { (OnScopeLine (map string_bytes words.entry.now) (λ command. Unit {0}) → ⊥)
        → (result ≡ Status.Usage) ⊎ (result ≡ Status.OutOfMemory) }

    // Where the words are a line, the files are told and fit, their texts are accepted, and no read and no write fails, the command is
    // carried out, or memory ran out.
    ensures complete { IfSome (H.files shelf.old) (λ f. IsToBeDone (map string_bytes words.entry.now) f
        → ¬ Rose (H.counts shelf.old).failed_reads (H.counts shelf.new).failed_reads → ¬ Rose (O.faults out.old) (O.faults out.new)
        → (result ≡ Status.Done) ⊎ (result ≡ Status.OutOfMemory)) }
{
    one_answer();
    answer(alloc, words, shelf, out, err)
}
