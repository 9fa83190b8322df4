//! A report checked by its source alone.
ghost use Rattle.std.specs.Prelude.{◌≡◌, ◌<◌, ◌^◌, length, IfOk, IfErr};
ghost use Rattle.source_report.specs.task_ast.View.{program_of};
ghost use Rattle.source_values.specs.Running.{fresh_run};
ghost use Rattle.source_maps.specs.Names.{HasNames};
ghost use Rattle.source_meaning.specs.Acceptance.{IsAcceptedText};
ghost use Rattle.source_meaning.specs.Events.{HasNoEvent};
ghost use Rattle.report_audit.specs.Good.{IsVerdict, IsUnaudited};
ghost use Rattle.report_audit.specs.Fronts.{inputs_of, IsGood};
ghost use Rattle.report_audit.specs.Stops.{StopsBy};

use crate::compare::line_number;
use crate::entry::{Entry, entry_of};
use crate::expected::Expected;
use crate::front::{Front, Stop, begin, take_end, take_transition};
use crate::verdict::{AuditFault, Verdict};
use alp_text::next_line;
use energy_trace::Trace;
use source_maps::names_are_names;
use source_meaning::{Accepted, first_event};
use source_values::SourceRun;
use std::alloc::Global;

// Reads a report to its end, and gives the number of its transitions.
fn read_report(
    expected: &mut Expected,
    source: &Accepted,
    run: &mut SourceRun,
    readings: &[u16],
    report: &[u8],
) -> Result<u64, Stop>
    requires few { length report.now < 4294967295 }
    requires few_readings { length readings.now < 2 ^ 32 }
    requires names { HasNames source.now.text.items (program_of source.now.checked.source) }
    requires fresh { run.old ≡ fresh_run (program_of source.now.checked.source) }
    ensures good { IfOk result (IsGood (inputs_of source.now readings.now report.now) report.now) }
    ensures stop { IfErr result (StopsBy (inputs_of source.now readings.now report.now)) }
{
    let mut front = begin(expected, source, readings, report)?;
    while let Some(line) = next_line(report, front.at) {
        match entry_of(&report[line.from..line.to]) {
            Some(Entry::Transition { from, to }) => {
                front = take_transition(expected, source, run, readings, report, front, from, to)?;
            }
            Some(
                Entry::End {
                    reason,
                    accepted,
                    repeats,
                },
            ) => {
                return take_end(
                    expected, source, readings, report, front, reason, accepted, repeats,
                );
            }
            None => return Err(Stop::At(front.at)),
        }
    }
    Err(Stop::At(front.at))
}

/// Whether the source could have told the report: by whole tasks, each on exactly the readings of its own `t` line, which are in order
/// and apart. The report is one of `mean` or `try`, whose first line may be the bound. The source is one that was accepted.
///
/// # Errors
/// `Events` at the line of the source's first `next_event`: a report doesn't carry its answers. `Memory` where memory was refused.
pub fn audit(
    alloc: Global,
    source: &Accepted,
    trace: &Trace,
    report: &[u8],
) -> Result<Verdict, AuditFault>
    requires accepted { IsAcceptedText source.now.text.items (program_of source.now.checked.source) source.now.allow }
    requires few { length report.now < 4294967295 }
    ensures no_event { IfOk result (λ _. HasNoEvent source.now.text.items) }
    ensures fault { IfErr result (IsUnaudited source.now.text.items) }
    ensures verdict { IfOk result (IsVerdict source.now.text.items (program_of source.now.checked.source) source.now.allow.cycles
        trace.now.readings report.now) }
{
    if let Some(line) = first_event(alloc, source)? {
        return Err(AuditFault::Events { line });
    }
    // The law, that the names of tasks are words of a line.
    names_are_names();
    let mut run = SourceRun::new(alloc, source.checked().source())?;
    let mut expected = Expected::new(alloc);
    match read_report(&mut expected, source, &mut run, trace.readings(), report) {
        Ok(t) => Ok(Verdict::Yes { t }),
        Err(Stop::At(place)) => Ok(Verdict::No {
            line: line_number(report, place),
        }),
        Err(Stop::Memory) => Err(AuditFault::Memory),
    }
}
