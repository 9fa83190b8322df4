//! The lines of a transition, and the whole report of `mean`.

ghost use Rattle.std.specs.Prelude.{◌≡◌, ◌≤◌, ◌<◌, ◌^◌, length, drop};
ghost use Rattle.std.specs.Option.{option_map};
ghost use Rattle.alp_io.specs.Count.{HasCause};
ghost use Rattle.alp_io.specs.Sink.{Writes};
ghost use Rattle.task_ast.specs.View.{program_of};
ghost use Rattle.source_values.specs.Runs.{initial_rows};
ghost use Rattle.source_values.specs.Running.{IsRunnable, IsShaped};
ghost use Rattle.source_report.specs.SourceReport.{task_name, transition_lines};
ghost use Rattle.source_report.specs.MeanReport.{mean_report};

use crate::changes::{write_changes, write_emitted};
use crate::names::spelled;
use alp_io::{Failed, Reason, Report, Sink};
use source_values::{Done, Short, SourceRun};
use task_ast::CheckedSource;

fn task_name<'t>(text: &'t [u8], source: &CheckedSource, task: u16) -> Option<&'t [u8]>
    ensures { option_map (λ t. t.now) result ≡ task_name text.now (program_of source.now) task }
{
    if (task as usize) < source.tasks.len() {
        Some(spelled(text, source.tasks[task as usize].name))
    } else {
        None
    }
}

/// Writes the lines of transition `k`, counted from 1, which a run of this source and its text has just made on the readings
/// from position `from` up to and without `to`. Takes no memory. `Failed` where a write failed; the sink then gained a proper
/// prefix of the lines.
pub fn write_transition<S: Sink>(
    report: &mut Report<'_, S>,
    text: &[u8],
    source: &CheckedSource,
    run: &SourceRun,
    done: Done,
    k: u64,
    from: u32,
    to: u32,
) -> Result<(), Failed>
    requires few { length (program_of source.now).shared ≤ 256 }
    requires before { IsShaped (program_of source.now) run.now.before }
    requires after { IsShaped (program_of source.now) run.now.shared }
    ensures same_sink { report.new.sink.ghost_name ≡ report.old.sink.ghost_name }
    ensures bytes { Writes (S.contents report.old.sink.now) (S.contents report.new.sink.now) result
        (transition_lines text.now (program_of source.now) k (record { from = from; to = to })
        (record { from = done.from; next = done.next; before = run.now.before; after = run.now.shared; emitted = run.now.emitted })) }
    ensures cause { HasCause (S.faults report.old.sink.now) (S.faults report.new.sink.now) result }
{
    let task = task_name(text, source, done.from);
    let next = task_name(text, source, done.next);
    report.step(k, task, next, from, to)?;
    write_emitted(report, run.emitted())?;
    write_changes(report, text, &source.shared, run)
}

fn behind(readings: &[u16], used: u32) -> &[u16]
    requires { used ≤ length readings.now }
    ensures { result.now ≡ drop used readings.now }
{
    &readings[used as usize..]
}

/// Writes the report of a source's meaning on these readings, from the first state on, with at most `most` transitions. The
/// run is one of this source and has made none. Takes no memory. `Failed` where a write failed; the sink then gained a proper
/// prefix of the report.
pub fn write_mean_report<S: Sink>(
    report: &mut Report<'_, S>,
    text: &[u8],
    source: &CheckedSource,
    run: &mut SourceRun,
    readings: &[u16],
    most: u64,
) -> Result<(), Failed>
    requires runnable { IsRunnable (program_of source.now) }
    requires few_readings { length readings.now < 2 ^ 32 }
    requires most { most ≤ 10000 }
    requires initial { run.old.shared ≡ initial_rows (program_of source.now) }
    requires entry { run.old.task ≡ (program_of source.now).entry.task }
    ensures same_sink { report.new.sink.ghost_name ≡ report.old.sink.ghost_name }
    ensures bytes { Writes (S.contents report.old.sink.now) (S.contents report.new.sink.now) result
        (mean_report most text.now (program_of source.now) readings.now) }
    ensures cause { HasCause (S.faults report.old.sink.now) (S.faults report.new.sink.now) result }
{
    let mut left = readings;
    let mut accepted = 0u64;
    for k in 0..most {
        let from = (readings.len() - left.len()) as u32;
        match run.task_step(source, left) {
            Err(Short) => return report.end(Reason::Readings, k, accepted, 0),
            Ok(done) => {
                let rest = behind(left, done.used);
                let to = (readings.len() - rest.len()) as u32;
                write_transition(report, text, source, run, done, k + 1, from, to)?;
                accepted += run.emitted().len() as u64;
                left = rest;
            }
        }
    }
    report.end(Reason::Limit, most, accepted, 0)
}
