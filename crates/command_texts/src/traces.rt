//! A trace text, read for a command.
ghost use Rattle.std.specs.Prelude.{◌≡◌, ◌<◌, IfOk, IfErr, Ok, length};
ghost use Rattle.energy_trace.specs.Reading.{trace_of};
ghost use Rattle.source_runs.specs.Traces.{IsTraceOfWords};
ghost use Rattle.command_texts.specs.Texts.{RefusesTrace};
ghost use Rattle.command_answers.specs.Outcomes.{FailsRefused};

use command_answers::{Failure, refused_plainly};
use energy_trace::{Trace, TraceFault, parse_trace};
use std::alloc::Global;

/// The trace that the text of a named file is.
///
/// # Errors
/// `Refused` with the text's first fault; `Memory` where memory was refused.
pub fn trace_of<'t>(alloc: Global, file: &'t str, text: &[u8]) -> Result<Trace, Failure<'t>>
    requires { length text.now < 4294967295 }
    ensures said { IfOk result (λ t. trace_of text.now ≡ Ok t) }
    ensures words { IfOk result (λ t. IsTraceOfWords t) }
    ensures refused { IfErr result (FailsRefused file.now (RefusesTrace text.now)) }
{
    match parse_trace(alloc, text) {
        Ok(trace) => Ok(trace),
        Err(TraceFault::BadLine { line }) => Err(refused_plainly(file, line, "BadLine")),
        Err(TraceFault::TooMany { line }) => Err(refused_plainly(file, line, "TooMany")),
        Err(TraceFault::Memory) => Err(Failure::Memory),
    }
}
