//! A state text, read for a command.
ghost use Rattle.std.specs.Prelude.{◌≡◌, ◌<◌, IfOk, IfErr, Ok, length};
ghost use Rattle.state_text.specs.Reading.{state_of};
ghost use Rattle.command_texts.specs.Texts.{RefusesState};
ghost use Rattle.command_answers.specs.Outcomes.{FailsRefused};

use crate::images::image_failure;
use command_answers::Failure;
use state_text::{State, parse_state};
use std::alloc::Global;

/// The state that the text of a named file is.
///
/// # Errors
/// `Refused` with the text's first fault; `Memory` where memory was refused.
pub fn state_of<'t>(alloc: Global, file: &'t str, text: &[u8]) -> Result<State, Failure<'t>>
    requires { length text.now < 4294967295 }
    ensures said { IfOk result (λ state. state_of text.now ≡ Ok state) }
    ensures refused { IfErr result (FailsRefused file.now (RefusesState text.now)) }
{
    match parse_state(alloc, text) {
        Ok(state) => Ok(state),
        Err(fault) => Err(image_failure(file, fault)),
    }
}
