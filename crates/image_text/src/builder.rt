//! An image that is built line by line.
ghost use Rattle.std.specs.Prelude.{◌≡◌, ◌<◌, ◌≤◌, ◌+◌, length, vec_len, MatchBool, Some, None, IfOk};
ghost use Rattle.image_text.specs.Memory.{put_once};
ghost use Rattle.image_text.specs.Reading.{empty};

use crate::fault::ImageFault;
use crate::line::{add_bytes, address_of};
use image_map::address_space::{FRAM_END, FRAM_FIRST};
use std::alloc::{AllocError, Global};
use text_parts::{is_blank, next_field};

/// The bytes that lines gave, each at its place in the FRAM, and the address of the next one.
#[derive(Drop)]
pub struct ImageBuilder {
    pub next: Option<u32>,
    pub memory: Vec<Option<u8>>,
    /// The bytes of the line that is read.
    pub line: Vec<u8>,
}

#[tactic(auto, unfolding(crate::specs::Reading::empty))]
fn no_bytes(alloc: Global, n: usize) -> Result<Vec<Option<u8>>, AllocError>
    ensures value { IfOk result (λ v. v.items ≡ empty n) }
    ensures len { IfOk result (λ v. length v.items ≡ n) }
{
    vec![in alloc; None; n]
}

// Puts bytes from a place on, and says whether none of the places was taken.
fn put_once(memory: &mut Vec<Option<u8>>, from: usize, bytes: &[u8]) -> bool
    requires room { from + length bytes.now ≤ vec_len memory.old }
    ensures fine { MatchBool result (put_once from bytes.now memory.old.items ≡ Some memory.new.items) (put_once from bytes.now memory.old.items ≡ None) }
    ensures same { vec_len memory.new ≡ vec_len memory.old }
{
    let mut i = from;
    for b in bytes {
        if memory[i].is_some() {
            return false;
        }
        memory[i] = Some(*b);
        i += 1;
    }
    true
}

fn begins_blank(line: &[u8]) -> bool
    ensures { result ≡ begins_blank line.now }
{
    match line {
        [] => true,
        [b, ..] => is_blank(*b),
    }
}

ghost use Rattle.text_parts.specs.Fields.{begins_blank};

impl ImageBuilder {
    ghost use Rattle.std.specs.Prelude.{◌≡◌, vec_len, Some, None, IfOk};
    ghost use Rattle.text_parts.specs.Fields.{fields};
    ghost use Rattle.image_text.specs.Line.{bytes_said, line_says};
    ghost use Rattle.image_text.specs.Memory.{place, step};
    ghost use Rattle.image_text.specs.Builder.{placed};
    ghost use Rattle.image_text.specs.Reading.{empty, Gives};

    /// No byte, and no address.
    pub fn new(alloc: Global) -> Result<ImageBuilder, AllocError>
        ensures value { IfOk result (λ b. placed b ≡ record { next = None; memory = empty 48128 }) }
        ensures len { IfOk result (λ b. vec_len b.memory ≡ 48128) }
    {
        Ok(ImageBuilder {
            next: None,
            memory: no_bytes(alloc, 48128)?,
            line: Vec::new(alloc),
        })
    }

    // Puts the bytes of line `n` at the next address.
    fn place(&mut self, n: u32) -> Result<bool, ImageFault>
        requires { vec_len self.old.memory ≡ 48128 }
        ensures len { vec_len self.new.memory ≡ 48128 }
        ensures value { Gives (λ on. (on, placed self.new)) result (place n (placed self.old) self.old.line.items self.old.next) }
    {
        let Some(address) = self.next else {
            return Err(ImageFault::BadLine { line: n });
        };
        let len = self.line.len() as u64;
        let first = FRAM_FIRST as u32;
        if address < first || address as u64 + len > FRAM_END as u64 {
            return Err(ImageFault::OutsideFram { line: n });
        }
        let from = (address - first) as usize;
        if !put_once(&mut self.memory, from, self.line.as_slice()) {
            return Err(ImageFault::Twice { line: n });
        }
        self.next = Some((address as u64 + len) as u32);
        Ok(true)
    }

    fn add_bytes(&mut self, line: &[u8], n: u32) -> Result<bool, ImageFault>
        requires { vec_len self.old.memory ≡ 48128 }
        ensures len { vec_len self.new.memory ≡ 48128 }
        ensures value { Gives (λ on. (on, placed self.new)) result (step n (placed self.old) (bytes_said (fields line.now))) }
    {
        self.line.clear();
        if !add_bytes(line, &mut self.line)? {
            return Err(ImageFault::BadLine { line: n });
        }
        self.place(n)
    }

    /// Takes line `n`, and says whether more bytes may follow.
    #[tactic(auto, unfolding(crate::specs::Line::line_says))]
    pub fn add_line(&mut self, line: &[u8], n: u32) -> Result<bool, ImageFault>
        requires { vec_len self.old.memory ≡ 48128 }
        ensures len { vec_len self.new.memory ≡ 48128 }
        ensures value { Gives (λ on. (on, placed self.new)) result (step n (placed self.old) (line_says line.now)) }
    {
        let Some((field, rest)) = next_field(line) else {
            return Ok(true);
        };
        if begins_blank(line) {
            return Err(ImageFault::BadLine { line: n });
        }
        if next_field(rest).is_some() {
            return self.add_bytes(line, n);
        }
        match field {
            [b'@', digits @ ..] => match address_of(digits) {
                Some(a) => {
                    self.next = Some(a);
                    Ok(true)
                }
                None => Err(ImageFault::BadLine { line: n }),
            },
            [b'q' | b'Q'] => Ok(false),
            _ => self.add_bytes(line, n),
        }
    }
}
