//! Texts assembled to images.
ghost use Rattle.std.specs.Prelude.{◌≡◌, ◌<◌, length, IfOk, None};
ghost use Rattle.msp_asm.specs.Assembled.{assembled, all_words, Gives};
ghost use Rattle.asm_line.specs.Views.{located};

use crate::fault::AsmFault;
use crate::passes::{labels_of, words_of};
use asm_line::Piece;
use image_text::Image;
use std::alloc::{AllocError, Global};

fn whole(text: &[u8]) -> Piece<'_>
    ensures { located result ≡ record { at = 0; text = text.now } }
{
    Piece { text, at: 0 }
}

// The words of the FRAM; those that aren't given are 0.
fn all_words(alloc: Global, memory: &[Option<u16>]) -> Result<Vec<u16>, AllocError>
    ensures value { IfOk result (λ v. v.items ≡ all_words memory.now) }
    ensures len { IfOk result (λ v. length v.items ≡ length memory.now) }
{
    let mut words = Vec::new(alloc);
    for w in memory {
        words.push(w.unwrap_or(0))?;
    }
    Ok(words)
}

/// The image of an assembler text, or its first fault: the least line that is none (`BadLine`), or else the first fault of
/// the least line that has one, in the order of `AsmFault`.
///
/// A line is `[label:] [operation operands] [; comment]`, ended by LF or CRLF. The first address is 0x4400, and words that
/// aren't given are 0; the image has no map. `Memory` is want of memory, and says nothing of the text.
pub fn assemble(alloc: Global, text: &[u8]) -> Result<Image, AsmFault>
    requires { length text.now < 4294967295 }
    ensures value { Gives (λ image. image.words) result (assembled text.now) }
    ensures no_map { IfOk result (λ image. image.map ≡ None) }
{
    let whole = whole(text);
    let labels = labels_of(alloc, whole)?;
    let memory = words_of(alloc, whole, &labels)?;
    Ok(Image::of(all_words(alloc, memory.as_slice())?))
}
