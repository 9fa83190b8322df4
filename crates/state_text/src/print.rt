//! States written as texts.
ghost use Rattle.std.specs.Prelude.{◌≡◌, ◌<◌, ◌^◌, ◌++◌, Ok, OnOk, IfOk};
ghost use Rattle.text_parts.specs.Printed.{printed};
ghost use Rattle.state_text.specs.Reading.{state_of};
ghost use Rattle.state_text.specs.Text as text;
ghost use Rattle.state_text.specs.Text.{receiver_fields};

use crate::state::State;
use alp_text::print_u64;
use image_text::print_image;
use std::alloc::{AllocError, Global};

#[tactic(auto, unfolding(text_parts::specs::Printed::printed))]
fn push_receiver(out: &mut Vec<u8>, receiver: u16) -> Result<(), AllocError>
    ensures text { OnOk result (out.new.items ≡ out.old.items ++ printed (receiver_fields receiver)) }
    ensures small { receiver < 2 ^ 16 }
{
    out.extend_from_slice(b"receiver ")?;
    out.extend_from_slice(print_u64(receiver as u64).as_bytes())?;
    out.extend_from_slice(b"\n")
}

/// The text of a state: that of its image (see `print_image`), then the line `receiver N`, also where N is 0. It reads back as the state.
pub fn print_state(alloc: Global, state: &State) -> Result<Vec<u8>, AllocError>
    ensures text { IfOk result (λ v. v.items ≡ text.state_text state.now) }
    ensures reads_back { IfOk result (λ v. state_of v.items ≡ Ok state.now) }
{
    let mut out = print_image(alloc, &state.image)?;
    push_receiver(&mut out, state.receiver)?;
    Ok(out)
}
