//! The status and the line of a command that isn't whole.
ghost use Rattle.std.specs.Prelude.{◌≤◌};
ghost use Rattle.command_answers.specs.Told.{TellsUnread, TellsFailure};

use crate::failure::Failure;
use crate::inputs::Unread;
use crate::messages;
use crate::status::Status;
use alp_io::Sink;

/// Tells why the files weren't read.
pub fn answer_unread<E: Sink>(err: &mut E, unread: Unread<'_>) -> Status
    ensures faults { E.faults err.old ≤ E.faults err.new }
    ensures told { TellsUnread unread.entry result
        (record { old = E.contents err.old; new = E.contents err.new; faults_old = E.faults err.old; faults_new = E.faults err.new }) }
{
    match unread {
        Unread::Unreadable(name) => {
            messages::tell_unreadable(err, name);
            Status::Unreadable
        }
        Unread::TooLong(name) => {
            messages::tell_too_long(err, name);
            Status::TooLong
        }
        Unread::Memory => {
            messages::tell_out_of_memory(err);
            Status::OutOfMemory
        }
    }
}

/// Tells why the command isn't whole.
pub fn answer_failure<E: Sink>(err: &mut E, failure: Failure<'_>) -> Status
    ensures faults { E.faults err.old ≤ E.faults err.new }
    ensures told { TellsFailure failure.entry result
        (record { old = E.contents err.old; new = E.contents err.new; faults_old = E.faults err.old; faults_new = E.faults err.new }) }
{
    match failure {
        Failure::Refused { file, refusal } => {
            messages::tell_refused(err, file, &refusal);
            Status::Refused
        }
        Failure::Put(name) => {
            messages::tell_unput(err, name);
            Status::Unwritable
        }
        Failure::Write => {
            messages::tell_unwritable(err);
            Status::Unwritable
        }
        Failure::Memory => {
            messages::tell_out_of_memory(err);
            Status::OutOfMemory
        }
    }
}
