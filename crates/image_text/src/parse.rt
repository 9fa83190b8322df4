//! Texts read as images.
ghost use Rattle.std.specs.Prelude.{◌≡◌, ◌<◌, ◌+◌, ◌*◌, length, IfOk, unwrap_or, Some, None, Ok};
ghost use Rattle.image_map.specs.address_space.Limits.{fram_words};
ghost use Rattle.image_map.specs.Reading.{map_lines};
ghost use Rattle.text_parts.specs.Lines.{lines};
ghost use Rattle.image_text.specs.Read as read;
ghost use Rattle.image_text.specs.Read.{IsFrontRead};
ghost use Rattle.image_text.specs.Reading.{Gives, words_of, are_blank, whole_map, image_behind, finish, front_of, image_of};
ghost use Rattle.image_text.specs.Meaning.{IsMeaningOf};

use crate::builder::ImageBuilder;
use crate::fault::ImageFault;
use crate::image::Image;
use alp_words::from_bytes;
use image_map::address_space::FRAM_WORDS;
use image_map::{Map, MapText, read_map};
use std::alloc::{AllocError, Global};
use text_parts::{cut_line, is_blank_line};

/// An image that a text begins with, up to its `q`.
#[derive(Drop)]
pub struct ImageFront<'a> {
    /// Its words, without a map.
    pub image: Image,
    /// What stands behind the line with `q`.
    pub rest: &'a [u8],
    /// The number of the line behind it.
    pub line: u32,
}

// The word of two bytes, those that aren't given 0.
fn word_from(low: Option<u8>, high: Option<u8>) -> u16
    ensures { result ≡ unwrap_or low 0 + 256 * unwrap_or high 0 }
{
    from_bytes([low.unwrap_or(0), high.unwrap_or(0)])
}

// The words of the FRAM's bytes; a byte that isn't given is 0.
fn words_of(alloc: Global, memory: &[Option<u8>]) -> Result<Vec<u16>, AllocError>
    requires { length memory.now ≡ 48128 }
    ensures value { IfOk result (λ v. v.items ≡ words_of memory.now) }
    ensures len { IfOk result (λ v. length v.items ≡ fram_words) }
{
    let mut words = Vec::new(alloc);
    for i in 0..FRAM_WORDS {
        words.push(word_from(memory[2 * i], memory[2 * i + 1]))?;
    }
    Ok(words)
}

// Whether a text has only blank lines.
fn are_blank(text: &[u8]) -> bool
    ensures { result ≡ are_blank (lines text.now) }
{
    let mut rest = text;
    while let Some((line, behind)) = cut_line(rest) {
        if !is_blank_line(line) {
            return false;
        }
        rest = behind;
    }
    true
}

// The map that all lines from line `n` on are.
fn whole_map(alloc: Global, text: &[u8], n: u32) -> Result<Map, ImageFault>
    requires { n + length text.now < 4294967296 }
    ensures value { Gives (λ m. m) result (whole_map (map_lines n (lines text.now))) }
    ensures task { IfOk result (λ m. 0 < length m.tasks) }
{
    let MapText { map, rest, line } = read_map(alloc, text, n)?;
    if cut_line(rest).is_some() {
        return Err(ImageFault::BadMap { line });
    }
    Ok(map)
}

// The image with the map that lines from line `n` on say, if they aren't all blank.
fn with_lines(alloc: Global, image: Image, text: &[u8], n: u32) -> Result<Image, ImageFault>
    requires room { n + length text.now < 4294967296 }
    requires map { image.map ≡ None }
    ensures { Gives (λ i. i) result (image_behind n image.words (lines text.now)) }
{
    if are_blank(text) {
        return Ok(image);
    }
    Ok(image.with_map(whole_map(alloc, text, n)?))
}

// The image of the bytes, without a map, where `rest` stands behind its `q`, from line `n` on.
fn finish<'a>(
    alloc: Global,
    memory: &[Option<u8>],
    rest: &'a [u8],
    n: u32,
) -> Result<ImageFront<'a>, ImageFault>
    requires room { n + length rest.now < 4294967296 }
    requires len { length memory.now ≡ 48128 }
    ensures value { Gives read.read_front result (finish n memory.now (lines rest.now)) }
    ensures no_map { IfOk result (λ f. f.image.map ≡ None) }
    ensures room { IfOk result (λ f. f.line + length f.rest.now < 4294967296) }
{
    if memory[48126].is_none() || memory[48127].is_none() {
        return Err(ImageFault::NoReset);
    }
    Ok(ImageFront {
        image: Image::of(words_of(alloc, memory)?),
        rest,
        line: n,
    })
}

/// The image, without a map, that a TI-TXT text says up to its `q`, and what stands behind; or the first fault there: the one of the
/// least line, and within a line `BadLine`, then `OutsideFram`, then `Twice`; behind all of these `NoReset`.
///
/// LF and CRLF end a line. A line is blank, or `@` and 1 to 8 hexadecimal digits, the address of the next byte, or bytes of
/// two hexadecimal digits with blanks between, or `q` in either case. Bytes that aren't given are 0.
/// `Memory` is want of memory, and says nothing of the text.
pub fn read_front(alloc: Global, text: &[u8]) -> Result<ImageFront<'_>, ImageFault>
    requires { length text.now < 4294967295 }
    ensures value { Gives read.read_front result (front_of (lines text.now)) }
    ensures meaning { IsFrontRead (lines text.now) result }
    ensures no_map { IfOk result (λ f. f.image.map ≡ None) }
    ensures room { IfOk result (λ f. f.line + length f.rest.now < 4294967296) }
{
    let mut builder = ImageBuilder::new(alloc)?;
    let mut n = 1;
    let mut rest = text;
    while let Some((line, behind)) = cut_line(rest) {
        let goes_on = builder.add_line(line, n)?;
        n += 1;
        if !goes_on {
            return finish(alloc, builder.memory.as_slice(), behind, n);
        }
        rest = behind;
    }
    Err(ImageFault::BadLine { line: n })
}

// What a text says as an image.
fn read_image(alloc: Global, text: &[u8]) -> Result<Image, ImageFault>
    requires { length text.now < 4294967295 }
    ensures { Gives (λ image. image) result (image_of text.now) }
{
    let ImageFront { image, rest, line } = read_front(alloc, text)?;
    with_lines(alloc, image, rest, line)
}

/// The image that a TI-TXT text is, or its first fault: that of what stands up to its `q` (see `read_front`), then `BadMap`.
///
/// Behind `q` all lines are blank, or the lines of a map stand at once (see `read_map`), and nothing behind them.
/// `Memory` is want of memory, and says nothing of the text.
pub fn parse_image(alloc: Global, text: &[u8]) -> Result<Image, ImageFault>
    requires { length text.now < 4294967295 }
    ensures value { Gives (λ image. image) result (image_of text.now) }
    ensures meaning { IsMeaningOf (lines text.now) result }
{
    read_image(alloc, text)
}
