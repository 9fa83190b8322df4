//! The program `alpaca-scope` on a source that is refused: what it tells goes to standard output, where a stored run holds it.
#![tactic(auto)]

use scope_commands::{StdSink, answer_arguments};
use std::process::ExitCode;

fn main(rt: HostRuntime) -> ExitCode {
    let mut out = StdSink::new(rt.stdout());
    let mut err = StdSink::new(rt.stdout());
    ExitCode::from(answer_arguments(rt, &mut out, &mut err).code())
}
