//! The words that the program was started with, answered over real files.
ghost use Rattle.std.specs.Prelude.{◌≤◌};
ghost use Rattle.scope_commands.specs.Answers.{AnswersArguments};

use crate::command::{alpaca_scope, tell_usage};
use plain_commands::answers::{Status, messages};
use plain_commands::outside::{DirShelf, Sink};
use scope_line::WordsFault;
use std::env;
use std::io::ErrorKind;

// The words behind the program's name. One that isn't UTF-8 is no command line.
fn arguments(rt: &HostRuntime) -> Result<Vec<String>, WordsFault> {
    match env::args(rt) {
        Ok(args) => args
            .skip(1)
            .collect(rt.alloc())
            .map_err(|_| WordsFault::Memory),
        Err(error) if error.kind() == ErrorKind::OutOfMemory => Err(WordsFault::Memory),
        Err(_) => Err(WordsFault::Usage),
    }
}

/// Answers the words that the program was started with, over the files of the operating system.
pub fn answer_arguments<O: Sink, E: Sink>(rt: HostRuntime, out: &mut O, err: &mut E) -> Status
    ensures out_faults { O.faults out.old ≤ O.faults out.new }
    ensures err_faults { E.faults err.old ≤ E.faults err.new }
    ensures answers { AnswersArguments result
        (record { old = O.contents out.old; new = O.contents out.new; faults_old = O.faults out.old; faults_new = O.faults out.new })
        (record { old = E.contents err.old; new = E.contents err.new; faults_old = E.faults err.old; faults_new = E.faults err.new }) }
{
    match arguments(&rt) {
        Ok(words) => {
            let alloc = rt.alloc();
            let mut shelf = DirShelf::new(rt);
            alpaca_scope(alloc, &words, &mut shelf, out, err)
        }
        Err(WordsFault::Usage) => {
            tell_usage(err);
            Status::Usage
        }
        Err(WordsFault::Memory) => {
            messages::tell_out_of_memory(err);
            Status::OutOfMemory
        }
    }
}
