//! The answer to each command, in groups.
ghost use Rattle.std.specs.Prelude.{◌≤◌};
ghost use Rattle.plain_commands.specs.alp_io.Shelf.{NeverFall};
ghost use Rattle.plain_commands.specs.command_answers.CommandAnswers.{CommandAnswers};
ghost use Rattle.plain_commands.specs.command_answers.Outside.{WhereSilent};
ghost use Rattle.alpaca_cli.specs.Calls.{HasNumber, IsMigration, IsOnStates, IsPlainCall, call_of, promise_of};

use command_line::Command;
use compiled_states::{fresh_states_belong, migrated_states_belong, states_are_told, states_stay};
use compiler_commands::{BuildNames, TryNames, answer_build, answer_gen, answer_try, answer_undo};
use plain_commands::answers::Status;
use plain_commands::outside::{Shelf, Sink};
use plain_commands::{
    AsmNames, AuditNames, MeanNames, RunNames, answer_asm, answer_audit, answer_dis, answer_mean,
    answer_run,
};
use state_commands::{
    MigrateNames, ResumeNames, SaveNames, answer_migrate, answer_resume, answer_save,
};
use std::alloc::Global;

/// The answer to a command.
pub fn answer_command<H: Shelf, O: Sink, E: Sink>(
    alloc: Global,
    command: Command<'_>,
    shelf: &mut H,
    out: &mut O,
    err: &mut E,
) -> Status
    ensures number { HasNumber (call_of command.entry) }
    ensures counts { NeverFall (H.counts shelf.old) (H.counts shelf.new) }
    ensures out_faults { O.faults out.old ≤ O.faults out.new }
    ensures err_faults { E.faults err.old ≤ E.faults err.new }
    ensures answers { CommandAnswers result (promise_of (call_of command.entry))
        (record { old = H.files shelf.old; new = H.files shelf.new; counts_old = H.counts shelf.old; counts_new = H.counts shelf.new })
        (record { old = O.contents out.old; new = O.contents out.new; faults_old = O.faults out.old; faults_new = O.faults out.new })
        (record { old = E.contents err.old; new = E.contents err.new; faults_old = E.faults err.old; faults_new = E.faults err.new }) }
{
    match command {
        Command::Mean { source, trace } => {
            answer_mean(alloc, MeanNames { source, trace }, shelf, out, err)
        }
        Command::Run { image, trace } => {
            answer_run(alloc, RunNames { image, trace }, shelf, out, err)
        }
        Command::Asm { assembly, image } => {
            answer_asm(alloc, AsmNames { assembly, image }, shelf, err)
        }
        Command::Dis { image } => answer_dis(alloc, image, shelf, out, err),
        Command::Audit {
            source,
            report,
            trace,
        } => {
            let names = AuditNames {
                source,
                report,
                trace,
            };
            answer_audit(alloc, names, shelf, out, err)
        }
        _ => answer_compiler_command(alloc, command, shelf, out, err),
    }
}

// The answer to a command that is no plain one: one that compiles, or one on states.
fn answer_compiler_command<H: Shelf, O: Sink, E: Sink>(
    alloc: Global,
    command: Command<'_>,
    shelf: &mut H,
    out: &mut O,
    err: &mut E,
) -> Status
    requires { IsPlainCall (call_of command) → ⊥ }
    ensures number { HasNumber (call_of command.entry) }
    ensures counts { NeverFall (H.counts shelf.old) (H.counts shelf.new) }
    ensures out_faults { O.faults out.old ≤ O.faults out.new }
    ensures err_faults { E.faults err.old ≤ E.faults err.new }
    ensures answers { CommandAnswers result (promise_of (call_of command.entry))
        (record { old = H.files shelf.old; new = H.files shelf.new; counts_old = H.counts shelf.old; counts_new = H.counts shelf.new })
        (record { old = O.contents out.old; new = O.contents out.new; faults_old = O.faults out.old; faults_new = O.faults out.new })
        (record { old = E.contents err.old; new = E.contents err.new; faults_old = E.faults err.old; faults_new = E.faults err.new }) }
{
    match command {
        Command::Try {
            source,
            trace,
            image,
        } => {
            let names = TryNames {
                source,
                trace,
                image,
            };
            answer_try(alloc, names, shelf, out, err)
        }
        Command::Undo {
            source,
            trace,
            image,
        } => {
            let names = TryNames {
                source,
                trace,
                image,
            };
            answer_undo(alloc, names, shelf, out, err)
        }
        Command::Build { source, image } => {
            answer_build(alloc, BuildNames { source, image }, shelf, out, err)
        }
        Command::Gen { number, image } => answer_gen(alloc, number, image, shelf, out, err),
        _ => answer_state_command(alloc, command, shelf, out, err),
    }
}

// The answer to a command on states.
fn answer_state_command<H: Shelf, O: Sink, E: Sink>(
    alloc: Global,
    command: Command<'_>,
    shelf: &mut H,
    out: &mut O,
    err: &mut E,
) -> Status
    requires { IsOnStates (call_of command) }
    ensures counts { NeverFall (H.counts shelf.old) (H.counts shelf.new) }
    ensures out_faults { O.faults out.old ≤ O.faults out.new }
    ensures err_faults { E.faults err.old ≤ E.faults err.new }
    ensures answers { CommandAnswers result (promise_of (call_of command.entry))
        (record { old = H.files shelf.old; new = H.files shelf.new; counts_old = H.counts shelf.old; counts_new = H.counts shelf.new })
        (record { old = O.contents out.old; new = O.contents out.new; faults_old = O.faults out.old; faults_new = O.faults out.new })
        (record { old = E.contents err.old; new = E.contents err.new; faults_old = E.faults err.old; faults_new = E.faults err.new }) }
{
    states_are_told();
    states_stay();
    fresh_states_belong();
    match command {
        Command::Save {
            image,
            trace,
            state,
        } => {
            let names = SaveNames {
                image,
                trace,
                state,
            };
            answer_save(alloc, names, shelf, out, err)
        }
        Command::Resume {
            image,
            state,
            trace,
        } => {
            let names = ResumeNames {
                image,
                state,
                trace,
            };
            answer_resume(alloc, names, shelf, out, err)
        }
        _ => answer_migration(alloc, command, shelf, err),
    }
}

// The answer to the command that migrates, which writes nothing to the output.
fn answer_migration<H: Shelf, E: Sink>(
    alloc: Global,
    command: Command<'_>,
    shelf: &mut H,
    err: &mut E,
) -> Status
    requires { IsMigration (call_of command) }
    ensures counts { NeverFall (H.counts shelf.old) (H.counts shelf.new) }
    ensures err_faults { E.faults err.old ≤ E.faults err.new }
    ensures answers { WhereSilent (λ out. CommandAnswers result (promise_of (call_of command.entry))
        (record { old = H.files shelf.old; new = H.files shelf.new; counts_old = H.counts shelf.old; counts_new = H.counts shelf.new }) out
        (record { old = E.contents err.old; new = E.contents err.new; faults_old = E.faults err.old; faults_new = E.faults err.new })) }
{
    migrated_states_belong();
    match command {
        Command::Migrate {
            source,
            image,
            state,
            new_source,
            new_image,
            new_state,
        } => {
            let names = MigrateNames {
                source,
                image,
                state,
                new_source,
                new_image,
                new_state,
            };
            answer_migrate(alloc, names, shelf, err)
        }
        _ => unreachable!(),
    }
}
