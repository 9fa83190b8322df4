//! Images written as assembler texts.
ghost use Rattle.std.specs.Prelude.{◌≡◌, ◌≢◌, ◌<◌, ◌≤◌, ◌+◌, ◌*◌, ◌^◌, ◌++◌, [], List, ℕ, All, zero, length, true, false, Some, Ok, IfSome, IfNone, OnOk};
ghost use Rattle.std.specs.Prelude.{OnErr, slice_index, slice_index_or};
ghost use Rattle.msp_isa.specs.declared.instructions.Instr.{Instr};
ghost use Rattle.image_text.specs.address_space.Limits.{fram_end, fram_words};
ghost use Rattle.msp_isa.specs.Encoding.{encoding, IsInstruction, IsPrefix};
ghost use Rattle.msp_asm.specs.Written.{instr_text};
ghost use Rattle.msp_asm.specs.Alone.{line_alone};
ghost use Rattle.msp_asm.specs.Disassembly.{Stands, IsNext, AreLinesOf, IsSectionOf, IsTextOf, instr_line, word_line, org_line};
ghost use Rattle.msp_asm.specs.Assembled.{assembled};

use crate::alone::line_alone;
use crate::written::{Text, push_instr, push_number, push_text};
use alp_io::{Failed, Sink, write_all};
use arrayvec::ArrayVec;
use image_text::address_space::FRAM_FIRST;
use image_text::{Image, cut_section};
use msp_decode::decode;
use msp_encode::encode;
use msp_isa::Instr;

fn word_or_zero(words: &[u16], i: usize) -> u16
    ensures { result ≡ slice_index words.now i }
{
    if i < words.len() { words[i] } else { 0 }
}

// The instruction that the words begin with, if all of its words are there.
fn first_instr(words: &[u16]) -> Option<Instr>
    requires { 0 < length words.now }
    ensures found { IfSome result (λ i. IsInstruction i × IsPrefix (encoding i) words.now) }
    ensures none { IfNone result ((i : Instr) → IsInstruction i → IsPrefix (encoding i) words.now → ⊥) }
{
    match decode(words[0], word_or_zero(words, 1), word_or_zero(words, 2)) {
        Ok((instr, len)) => {
            if len <= words.len() {
                Some(instr)
            } else {
                None
            }
        }
        Err(_) => None,
    }
}

// Whether an instruction's line gives its words back.
fn is_given_back(address: u16, instr: &Instr) -> bool
    requires { IsInstruction instr.now }
    ensures same { result ≡ true → line_alone address (instr_text address instr.now) ≡ Some (encoding instr.now) }
    ensures other { result ≡ false → line_alone address (instr_text address instr.now) ≢ Some (encoding instr.now) }
{
    let mut text = ArrayVec::new();
    push_instr(&mut text, address, *instr);
    match line_alone(address, text.as_slice()) {
        Some(words) => words.as_slice() == encode(instr).as_slice(),
        None => false,
    }
}

// The instruction that stands at an address.
fn standing(address: u16, words: &[u16]) -> Option<Instr>
    requires { 0 < length words.now }
    ensures found { IfSome result (Stands address words.now) }
    ensures none { IfNone result ((i : Instr) → Stands address words.now i → ⊥) }
{
    let instr = first_instr(words)?;
    if is_given_back(address, &instr) {
        Some(instr)
    } else {
        None
    }
}

// The line of what stands at an address, and how many words it takes.
#[tactic(auto, unfolding(crate::specs::Disassembly::instr_line, crate::specs::Disassembly::word_line))]
fn next_line(address: u16, words: &[u16]) -> (Text, usize)
    requires { 0 < length words.now }
    ensures next { IsNext address words.now result.0.items result.1 }
    ensures some { 1 ≤ result.1 }
    ensures within { result.1 ≤ length words.now }
{
    let mut text = ArrayVec::new();
    match standing(address, words) {
        Some(instr) => {
            push_instr(&mut text, address, instr);
            push_text(&mut text, b"\n");
            (text, instr.words())
        }
        None => {
            push_text(&mut text, b".word ");
            push_number(&mut text, words[0]);
            push_text(&mut text, b"\n");
            (text, 1)
        }
    }
}

// Writes the lines of a section's words, of which the first stands at an address.
fn write_lines<S: Sink>(sink: &mut S, address: usize, words: &[u16]) -> Result<(), Failed>
    requires { address + 2 * length words.now ≤ fram_end }
    ensures whole { OnOk result (IsWritten (AreLinesOf address 0 words.now) (S.contents sink.old) (S.contents sink.new)) }
    ensures part { OnErr result (IsCut (AreLinesOf address 0 words.now) (S.contents sink.old) (S.contents sink.new)) }
    ensures cause { HasCause (S.faults sink.old) (S.faults sink.new) result }
{
    let mut at = address;
    let mut rest = words;
    while !rest.is_empty() {
        let (line, taken) = next_line(at as u16, rest);
        write_all(sink, line.as_slice())?;
        at += 2 * taken;
        rest = &rest[taken..];
    }
    Ok(())
}

ghost use Rattle.alp_io.specs.Count.{HasCause};
ghost use Rattle.msp_asm.specs.Writing.{IsWritten, IsCut};

#[tactic(auto, unfolding(crate::specs::Disassembly::org_line))]
fn org_text(address: u16) -> Text
    ensures { result.items ≡ org_line address }
{
    let mut text = ArrayVec::new();
    push_text(&mut text, b".org ");
    push_number(&mut text, address);
    push_text(&mut text, b"\n");
    text
}

// Writes a section: the words from a place of the FRAM on, counted in words.
fn write_section<S: Sink>(sink: &mut S, place: usize, words: &[u16]) -> Result<(), Failed>
    requires fits { place + length words.now ≤ fram_words }
    requires some { 0 < length words.now }
    ensures whole { OnOk result (IsWritten (IsSectionOf place words.now) (S.contents sink.old) (S.contents sink.new)) }
    ensures part { OnErr result (IsCut (IsSectionOf place words.now) (S.contents sink.old) (S.contents sink.new)) }
    ensures cause { HasCause (S.faults sink.old) (S.faults sink.new) result }
{
    let address = FRAM_FIRST as usize + 2 * place;
    write_all(sink, org_text(address as u16).as_slice())?;
    write_lines(sink, address, words)
}

// Words are below 65536.
fn are_words(words: &[u16])
    ensures { All (λ w. w < 2 ^ 16) words.now }
{}

/// Writes the assembler text of an image: for each section that `print_image` prints `.org` and its address, then its
/// instructions and words, a line each. The text assembles to the image's words. The only cause of `Failed` is the sink,
/// which then gained a proper prefix of the text. Nothing here takes memory.
pub fn disassemble<S: Sink>(image: &Image, sink: &mut S) -> Result<(), Failed>
    ensures whole { OnOk result (IsWritten (IsTextOf image.now.words) (S.contents sink.old) (S.contents sink.new)) }
    ensures part { OnErr result (IsCut (IsTextOf image.now.words) (S.contents sink.old) (S.contents sink.new)) }
    ensures cause { HasCause (S.faults sink.old) (S.faults sink.new) result }
    ensures assembles { (text : List ℕ) → IsTextOf image.now.words text → assembled text ≡ Ok image.now.words }
{
    let words = image.words();
    are_words(words);
    let mut place = 0;
    let mut rest = words;
    while let Some((at, section, behind)) = cut_section(place, rest) {
        write_section(sink, at, section)?;
        place = at + section.len();
        rest = behind;
    }
    Ok(())
}
