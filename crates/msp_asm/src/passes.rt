//! The two passes over a text: its labels, then its words.
ghost use Rattle.std.specs.Prelude.{◌≡◌, ◌<◌, IfOk, Some, length};
ghost use Rattle.image_text.specs.address_space.Limits.{fram_first, fram_words};
ghost use Rattle.image_text.specs.Reading.{empty};
ghost use Rattle.asm_line.specs.Pieces.{lines_left};
ghost use Rattle.asm_line.specs.Views.{located};
ghost use Rattle.msp_asm.specs.Labels.{label_at};
ghost use Rattle.msp_asm.specs.Assembled.{no_labels, labels_of, placed, Gives};

use crate::fault::AsmFault;
use crate::labels::{Labels, Place, note};
use crate::placing::line_into;
use crate::words::after;
use asm_line::{Piece, cut_line, line_of};
use image_text::address_space::{FRAM_FIRST, FRAM_WORDS};
use std::alloc::{AllocError, Global};
use std::collections::BTreeMap;

#[tactic(auto, unfolding(image_text::specs::Reading::empty))]
fn empty_words(alloc: Global, n: usize) -> Result<Vec<Option<u16>>, AllocError>
    ensures value { IfOk result (λ v. v.items ≡ empty n) }
    ensures len { IfOk result (λ v. length v.items ≡ n) }
{
    vec![in alloc; None; n]
}

/// The first pass: the labels of a text.
pub fn labels_of<'a>(alloc: Global, text: Piece<'a>) -> Result<Labels<'a>, AsmFault>
    requires { length text.text.now < 4294967295 }
    ensures { Gives label_at result (labels_of no_labels 1 fram_first (lines_left (Some (located text.entry)))) }
{
    let mut labels = BTreeMap::new(alloc);
    let mut address = FRAM_FIRST;
    let mut n = 1usize;
    let mut left = Some(text);
    while let Some(rest) = left {
        let (line, behind) = cut_line(rest);
        let Some(meaning) = line_of(line) else {
            return Err(AsmFault::BadLine { line: n as u32 });
        };
        let place = Place {
            address,
            line: n as u32,
        };
        note(&mut labels, meaning.label, place)?;
        address = after(address, &meaning.statement);
        n += 1;
        left = behind;
    }
    Ok(labels)
}

/// The second pass: the words of a text, each at its place in the FRAM.
pub fn words_of<'a>(
    alloc: Global,
    text: Piece<'a>,
    labels: &Labels<'a>,
) -> Result<Vec<Option<u16>>, AsmFault>
    requires { length text.text.now < 4294967295 }
    ensures value { Gives (λ v. v.items) result
        (placed (label_at labels.now) 1 fram_first (empty fram_words) (lines_left (Some (located text.entry)))) }
    ensures len { IfOk result (λ v. length v.items ≡ fram_words) }
{
    let mut memory = empty_words(alloc, FRAM_WORDS)?;
    let mut words = Vec::new(alloc);
    let mut address = FRAM_FIRST;
    let mut n = 1usize;
    let mut left = Some(text);
    while let Some(rest) = left {
        let (line, behind) = cut_line(rest);
        let Some(meaning) = line_of(line) else {
            return Err(AsmFault::BadLine { line: n as u32 });
        };
        line_into(labels, n as u32, address, &meaning, &mut words, &mut memory)?;
        address = after(address, &meaning.statement);
        n += 1;
        left = behind;
    }
    Ok(memory)
}
