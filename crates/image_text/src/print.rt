//! Images written as texts.
ghost use Rattle.std.specs.Prelude.{◌≡◌, ◌≤◌, ◌<◌, ◌+◌, ◌*◌, ◌^◌, ◌++◌, ◌∷◌, [], All, List, ℕ, None, option_map, Ok, OnOk, IfOk, MatchOption, map, length};
ghost use Rattle.image_map.specs.address_space.Limits.{fram_words};
ghost use Rattle.text_parts.specs.Groups.{groups};
ghost use Rattle.text_parts.specs.Hex.{upper_hex};
ghost use Rattle.text_parts.specs.Printed.{spaced, printed};
ghost use Rattle.image_text.specs.Text.{is_shown, sections, section_lines, lines_of_sections, text_of, upper_hex4, bytes_in, pair_text, tail_text, map_part};
ghost use Rattle.image_text.specs.Sections.{hidden_len, shown_len, IsReadBack, AreSections};
ghost use Rattle.image_text.specs.ImageValue.{HasTask};
ghost use Rattle.image_text.specs.Reading.{image_of};

use crate::image::Image;
use alp_words::to_bytes;
use image_map::address_space::FRAM_FIRST;
use image_map::{Map, push_map};
use std::alloc::{AllocError, Global};
use text_parts::{cut_group, upper_hex};

// Whether a word is printed: it isn't 0, or it is the last one.
fn is_shown(place: usize, w: u16) -> bool
    ensures { result ≡ is_shown place w }
{
    w != 0 || place == 24063
}

fn hidden_len(place: usize, words: &[u16]) -> usize
    requires { place + length words.now < 2 ^ 64 }
    ensures value { result ≡ hidden_len place words.now }
    ensures within { result ≤ length words.now }
{
    for (i, w) in words.iter().enumerate() {
        if is_shown(place + i, *w) {
            return i;
        }
    }
    words.len()
}

fn shown_len(place: usize, words: &[u16]) -> usize
    requires { place + length words.now < 2 ^ 64 }
    ensures value { result ≡ shown_len place words.now }
    ensures within { result ≤ length words.now }
{
    for (i, w) in words.iter().enumerate() {
        if !is_shown(place + i, *w) {
            return i;
        }
    }
    words.len()
}

/// The place and the words of the first section that is printed, and what stands behind it; `place` is that of the first word.
/// Places are counted in words from 0x4400 on.
pub fn cut_section(place: usize, words: &[u16]) -> Option<(usize, &[u16], &[u16])>
    requires { place + length words.now < 2 ^ 64 }
    ensures cut { MatchOption result (sections place words.now ≡ []) (λ cut.
        sections place words.now ≡ record { place = cut.0; words = cut.1.now } ∷ sections (cut.0 + length cut.1.now) cut.2.now) }
    ensures shorter { MatchOption result (sections place words.now ≡ []) (λ cut.
        (0 < length cut.1.now) × (place ≤ cut.0) × (cut.0 + length cut.1.now + length cut.2.now ≡ place + length words.now)) }
{
    let hidden = hidden_len(place, words);
    let rest = &words[hidden..];
    if rest.is_empty() {
        return None;
    }
    let len = shown_len(place + hidden, rest);
    Some((place + hidden, &rest[..len], &rest[len..]))
}

#[tactic(auto, unfolding(crate::specs::Text::upper_hex4))]
fn push_address(out: &mut Vec<u8>, address: u16) -> Result<(), AllocError>
    ensures { OnOk result (out.new.items ≡ out.old.items ++ (64 ∷ upper_hex4 address) ++ 10 ∷ []) }
{
    let [a, b] = upper_hex((address / 256) as u8);
    let [c, d] = upper_hex((address % 256) as u8);
    out.extend_from_slice(&[b'@', a, b, c, d, b'\n'])
}

fn push_pair(out: &mut Vec<u8>, w: u16) -> Result<(), AllocError>
    ensures { OnOk result (out.new.items ≡ out.old.items ++ pair_text w) }
{
    let [low, high] = to_bytes(w);
    let [a, b] = upper_hex(low);
    let [c, d] = upper_hex(high);
    out.extend_from_slice(&[a, b, b' ', c, d])
}

#[tactic(auto, unfolding(crate::specs::Text::tail_text))]
fn push_tail(out: &mut Vec<u8>, words: &[u16]) -> Result<(), AllocError>
    ensures { OnOk result (out.new.items ≡ out.old.items ++ tail_text words.now) }
{
    for w in words {
        out.push(b' ')?;
        push_pair(out, *w)?;
    }
    Ok(())
}

fn push_pairs(out: &mut Vec<u8>, words: &[u16]) -> Result<(), AllocError>
    ensures { OnOk result (out.new.items ≡ out.old.items ++ spaced (map upper_hex (bytes_in words.now))) }
{
    let [first, rest @ ..] = words else {
        return Ok(());
    };
    push_pair(out, *first)?;
    push_tail(out, rest)
}

fn push_line(out: &mut Vec<u8>, words: &[u16]) -> Result<(), AllocError>
    ensures { OnOk result (out.new.items ≡ out.old.items ++ (spaced (map upper_hex (bytes_in words.now)) ++ 10 ∷ [])) }
{
    push_pairs(out, words)?;
    out.extend_from_slice(b"\n")
}

#[tactic(auto, unfolding(text_parts::specs::Printed::printed))]
fn push_words(out: &mut Vec<u8>, words: &[u16]) -> Result<(), AllocError>
    ensures { OnOk result (out.new.items ≡ out.old.items ++ printed (map (map upper_hex) (map bytes_in (groups 8 words.now)))) }
{
    let mut rest = words;
    while let Some((line, behind)) = cut_group(8, rest) {
        push_line(out, line)?;
        rest = behind;
    }
    Ok(())
}

fn push_section(out: &mut Vec<u8>, place: usize, words: &[u16]) -> Result<(), AllocError>
    requires { place < fram_words }
    ensures { OnOk result (out.new.items ≡ out.old.items ++ printed (section_lines (record { place = place; words = words.now }))) }
{
    push_address(out, (FRAM_FIRST as usize + 2 * place) as u16)?;
    push_words(out, words)
}

fn push_sections(out: &mut Vec<u8>, words: &[u16]) -> Result<(), AllocError>
    requires { length words.now ≡ fram_words }
    ensures text { OnOk result (out.new.items ≡ out.old.items ++ text_of words.now) }
    ensures ranges { All (λ w. w < 2 ^ 16) words.now }
{
    let mut place = 0;
    let mut rest = words;
    while let Some((at, section, behind)) = cut_section(place, rest) {
        push_section(out, at, section)?;
        place = at + section.len();
        rest = behind;
    }
    out.extend_from_slice(b"q\n")
}

// Writes the lines of a map, if there is one.
fn push_map_part(out: &mut Vec<u8>, map: Option<&Map>) -> Result<(), AllocError>
    requires { HasTask (option_map (λ m. m.now) map) }
    ensures text { OnOk result (out.new.items ≡ out.old.items ++ printed (map_part (option_map (λ m. m.now) map.entry))) }
    ensures reads_back { OnOk result (IsReadBack (option_map (λ m. m.now) map.entry)) }
{
    match map {
        None => Ok(()),
        Some(map) => push_map(out, map),
    }
}

/// The TI-TXT text of an image: for each section of words that aren't 0, as long as can be, `@` and its address, then
/// lines of 16 bytes, the last shorter; then `q`. The word at 0xFFFE is printed always. Behind it stand the lines of
/// the map, if there is one. The text reads back as the image.
pub fn print_image(alloc: Global, image: &Image) -> Result<Vec<u8>, AllocError>
    ensures text { IfOk result (λ v. v.items ≡ text_of image.now.words ++ printed (map_part image.now.map)) }
    ensures reads_back { IfOk result (λ v. image_of v.items ≡ Ok image.now) }
    ensures sections { AreSections 0 image.now.words (sections 0 image.now.words) }
{
    let mut out = Vec::new(alloc);
    push_sections(&mut out, image.words())?;
    push_map_part(&mut out, image.map())?;
    Ok(out)
}
