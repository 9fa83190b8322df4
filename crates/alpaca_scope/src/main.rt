//! The program `alpaca-scope`: real files, standard output and standard error.
#![tactic(auto)]

use scope_commands::{StdSink, answer_arguments};
use std::process::ExitCode;

fn main(rt: HostRuntime) -> ExitCode {
    let mut out = StdSink::new(rt.stdout());
    let mut err = StdSink::new(rt.stderr());
    ExitCode::from(answer_arguments(rt, &mut out, &mut err).code())
}
