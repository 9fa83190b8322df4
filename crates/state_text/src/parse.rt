//! Texts read as states.
ghost use Rattle.std.specs.Prelude.{◌≡◌, ◌<◌, ◌≤◌, ◌+◌, IfOk, Ok, None, Some, length, codes};
ghost use Rattle.text_parts.specs.Fields.{fields, no_fields};
ghost use Rattle.text_parts.specs.Lines.{lines};
ghost use Rattle.image_map.specs.Line.{line_fields};
ghost use Rattle.image_map.specs.Reading as maps;
ghost use Rattle.image_text.specs.Reading.{Gives};
ghost use Rattle.state_text.specs.Reading as reading;
ghost use Rattle.state_text.specs.Reading.{receiver_of, names_receiver, number_said, says_no_map, state_behind, state_of};
ghost use Rattle.state_text.specs.Meaning.{IsMeaningOf};

use crate::state::State;
use image_map::{MapFault, MapText, number_behind, read_map};
use image_text::{Image, ImageFault, ImageFront, read_front};
use std::alloc::Global;
use text_parts::{cut_line, is_blank_line, next_field};

// The number of line `n`, which is the receiver's, if nothing stands behind it.
fn number_said(line: &[u8], behind: &[u8], n: u32) -> Result<u16, MapFault>
    requires { n + length behind.now < 4294967295 }
    ensures { maps.Gives (λ k. k) result (number_said n (receiver_of line.now) (lines behind.now)) }
{
    let Some(number) = number_behind(b"receiver", line) else {
        return Err(MapFault::BadMap { line: n });
    };
    if cut_line(behind).is_some() {
        return Err(MapFault::BadMap { line: n + 1 });
    }
    Ok(number)
}

// The receiver's number that lines from line `n` on say behind image and map: 0 where nothing stands there.
fn number_of(text: &[u8], n: u32) -> Result<u16, MapFault>
    requires { n + length text.now < 4294967296 }
    ensures { maps.Gives (λ k. k) result (reading.number_of n (lines text.now)) }
{
    match cut_line(text) {
        None => Ok(0),
        Some((line, behind)) => number_said(line, behind, n),
    }
}

// What stands behind blank lines, of which the first is line `n`, and the number of its first line.
fn behind_blanks(text: &[u8], n: u32) -> (&[u8], u32)
    requires { n + length text.now < 4294967296 }
    ensures value { record { rest = lines result.0.now; line = result.1 } ≡ reading.behind_blanks n (lines text.now) }
    ensures room { result.1 + length result.0.now < 4294967296 }
{
    let mut rest = text;
    let mut at = n;
    while let Some((line, behind)) = cut_line(rest) {
        if !is_blank_line(line) {
            return (rest, at);
        }
        rest = behind;
        at += 1;
    }
    (rest, at)
}

fn names_receiver(line: &[u8]) -> bool
    ensures { result ≡ names_receiver (fields line.now) }
{
    match next_field(line) {
        None => false,
        Some((field, _)) => field == b"receiver".as_slice(),
    }
}

// Whether lines say no map: nothing stands there, or the receiver's line comes first.
fn says_no_map(text: &[u8]) -> bool
    ensures { result ≡ says_no_map (lines text.now) }
{
    match cut_line(text) {
        None => true,
        Some((line, _)) => names_receiver(line),
    }
}

// The state of an image that has no map yet, with what lines from line `n` on say behind its `q`.
#[tactic(auto, unfolding(crate::specs::Reading::tail_of))]
fn with_tail(alloc: Global, image: Image, text: &[u8], n: u32) -> Result<State, MapFault>
    requires room { n + length text.now < 4294967296 }
    requires no_map { image.map ≡ None }
    ensures { maps.Gives (λ s. s) result (state_behind n image.words (lines text.now)) }
{
    let (rest, line) = behind_blanks(text, n);
    if says_no_map(rest) {
        let receiver = number_of(rest, line)?;
        return Ok(State { image, receiver });
    }
    let MapText { map, rest, line } = read_map(alloc, text, n)?;
    let receiver = number_of(rest, line)?;
    Ok(State {
        image: image.with_map(map),
        receiver,
    })
}

// What a text says as a state.
fn read_state(alloc: Global, text: &[u8]) -> Result<State, ImageFault>
    requires { length text.now < 4294967295 }
    ensures { Gives (λ s. s) result (state_of text.now) }
{
    let ImageFront { image, rest, line } = read_front(alloc, text)?;
    Ok(with_tail(alloc, image, rest, line)?)
}

/// The state that a text is, or its first fault: that of the image's text up to its `q` (see `read_front`), then `BadMap` at the first
/// line behind it that goes on to no state.
///
/// A state is the text of an image (see `parse_image`), and behind it one line `receiver N`, where N is a decimal number below 65536 and
/// one space parts the two; nothing stands behind that line. Without it N is 0. `Memory` is want of memory, and says nothing of the text.
pub fn parse_state(alloc: Global, text: &[u8]) -> Result<State, ImageFault>
    requires { length text.now < 4294967295 }
    ensures value { Gives (λ s. s) result (state_of text.now) }
    ensures meaning { IsMeaningOf (lines text.now) result }
{
    read_state(alloc, text)
}
