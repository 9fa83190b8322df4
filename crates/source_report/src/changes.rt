//! The lines of what a transition emitted and changed.

ghost use Rattle.std.specs.Prelude.{◌≡◌, ◌≤◌, ℕ, [], map, length, slice_index_or};
ghost use Rattle.alp_io.specs.Count.{HasCause};
ghost use Rattle.alp_io.specs.Sink.{Writes};
ghost use Rattle.source_values.specs.Runs.{initial_words};
ghost use Rattle.source_report.specs.SourceReport.{spelled, emitted_lines, change_line, element_lines, variable_lines, change_lines};

use crate::names::spelled;
use alp_io::{Failed, Report, Sink};
use source_values::{SourceRun, two_words};
use task_ast::{Extent, SharedDeclaration};

/// Writes a line for each word.
pub fn write_emitted<S: Sink>(report: &mut Report<'_, S>, words: &[u16]) -> Result<(), Failed>
    ensures same_sink { report.new.sink.ghost_name ≡ report.old.sink.ghost_name }
    ensures bytes { Writes (S.contents report.old.sink.now) (S.contents report.new.sink.now) result (emitted_lines words.now) }
    ensures cause { HasCause (S.faults report.old.sink.now) (S.faults report.new.sink.now) result }
{
    for w in words {
        report.accepted(*w)?;
    }
    Ok(())
}

fn write_change<S: Sink>(
    report: &mut Report<'_, S>,
    name: &[u8],
    index: Option<u16>,
    before: u32,
    now: u32,
) -> Result<(), Failed>
    ensures same_sink { report.new.sink.ghost_name ≡ report.old.sink.ghost_name }
    ensures bytes { Writes (S.contents report.old.sink.now) (S.contents report.new.sink.now) result
        (change_line name.now index before now) }
    ensures cause { HasCause (S.faults report.old.sink.now) (S.faults report.new.sink.now) result }
{
    if before == now {
        return Ok(());
    }
    report.value(name, index, now)
}

// Writes a line for each element of shared array `v` that has changed.
fn write_elements<S: Sink>(
    report: &mut Report<'_, S>,
    name: &[u8],
    run: &SourceRun,
    v: u16,
    n: u16,
) -> Result<(), Failed>
    requires before { length (slice_index_or run.now.before v []) ≡ n }
    requires now { length (slice_index_or run.now.shared v []) ≡ n }
    ensures same_sink { report.new.sink.ghost_name ≡ report.old.sink.ghost_name }
    ensures bytes { Writes (S.contents report.old.sink.now) (S.contents report.new.sink.now) result
        (element_lines name.now 0 (slice_index_or run.now.before v []) (slice_index_or run.now.shared v [])) }
    ensures cause { HasCause (S.faults report.old.sink.now) (S.faults report.new.sink.now) result }
{
    let mut i = run.next_written(v, 0, n);
    while i < n {
        write_change(
            report,
            name,
            Some(i),
            run.before(v, i) as u32,
            run.word(v, i) as u32,
        )?;
        i = run.next_written(v, i + 1, n);
    }
    Ok(())
}

// Writes the lines of shared variable `v`.
fn write_variable<S: Sink>(
    report: &mut Report<'_, S>,
    text: &[u8],
    declaration: &SharedDeclaration,
    run: &SourceRun,
    v: u16,
) -> Result<(), Failed>
    requires before { length (slice_index_or run.now.before v []) ≡ length (initial_words declaration.now.extent) }
    requires now { length (slice_index_or run.now.shared v []) ≡ length (initial_words declaration.now.extent) }
    ensures same_sink { report.new.sink.ghost_name ≡ report.old.sink.ghost_name }
    ensures bytes { Writes (S.contents report.old.sink.now) (S.contents report.new.sink.now) result
        (variable_lines (spelled text.now declaration.now.name) declaration.now.extent
        (slice_index_or run.now.before v []) (slice_index_or run.now.shared v [])) }
    ensures cause { HasCause (S.faults report.old.sink.now) (S.faults report.new.sink.now) result }
{
    let name = spelled(text, declaration.name);
    match declaration.extent {
        Extent::Scalar(_) => {
            write_change(
                report,
                name,
                None,
                run.before(v, 0) as u32,
                run.word(v, 0) as u32,
            )
        }
        Extent::Long(_) => {
            let before = two_words(run.before(v, 0), run.before(v, 1));
            let now = two_words(run.word(v, 0), run.word(v, 1));
            write_change(report, name, None, before, now)
        }
        Extent::Array(n) => write_elements(report, name, run, v, n),
    }
}

/// Writes a line for each shared word that the last transition of a run changed. The run is one of the source that declares
/// these variables.
pub fn write_changes<S: Sink>(
    report: &mut Report<'_, S>,
    text: &[u8],
    shared: &[SharedDeclaration],
    run: &SourceRun,
) -> Result<(), Failed>
    requires few { length shared.now ≤ 256 }
    requires before { map (length {A = ℕ}) run.now.before ≡ map (length {A = ℕ}) (map (λ d. initial_words d.extent) shared.now) }
    requires now { map (length {A = ℕ}) run.now.shared ≡ map (length {A = ℕ}) (map (λ d. initial_words d.extent) shared.now) }
    ensures same_sink { report.new.sink.ghost_name ≡ report.old.sink.ghost_name }
    ensures bytes { Writes (S.contents report.old.sink.now) (S.contents report.new.sink.now) result
        (change_lines text.now shared.now run.now.before run.now.shared) }
    ensures cause { HasCause (S.faults report.old.sink.now) (S.faults report.new.sink.now) result }
{
    for (v, declaration) in shared.iter().enumerate() {
        write_variable(report, text, declaration, run, v as u16)?;
    }
    Ok(())
}
