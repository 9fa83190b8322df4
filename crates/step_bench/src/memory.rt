//! A memory that serves as a bus: RAM from 1C00 to 23FF and FRAM from 4400 to FFFF.

ghost use Rattle.std.specs.Prelude.{◌≡◌, ◌≤◌, ◌<◌, ℕ, List, length};
ghost use Rattle.std.proofs.Common.{refl};
ghost use Rattle.step_bench.specs.Memory.{is_memory, is_word, word_at, byte_at, with_word, with_byte, memory_bus};

use msp_step::{Bus, Refused, Width};
use std::alloc::{AllocError, Global};
use std::marker::Model;

/// The 32768 words of the address space; those outside RAM and FRAM are never seen.
#[derive(Drop)]
pub struct Memory {
    words: Vec<u16>,
}

impl Model for Memory {
    ghost Value = { List ℕ };

    ghost view = { λ m. m.words.items };

    ghost invariant = { λ m. length m.words.items ≡ 0x8000 };
}

fn is_memory(address: u16) -> bool
    ensures { result ≡ is_memory address }
{
    0x1c00 <= address && address < 0x2400 || address >= 0x4400
}

fn is_word(address: u16) -> bool
    ensures { result ≡ is_word address }
{
    address % 2 == 0 && is_memory(address)
}

impl Memory {
    /// A memory of zeros but for a program at 4400 and the reset vector, which names that address.
    pub fn holding(alloc: Global, program: &[u16]) -> Result<Memory, AllocError>
        requires { length program.now ≤ 0x5DFF }
    {
        let mut words = vec![in alloc; 0; 0x2200]?;
        words.extend_from_slice(program)?;
        words.resize(0x7fff, 0)?;
        words.push(0x4400)?;
        Ok(Memory { words })
    }

    /// The word of which the byte at an address is one.
    fn word(&self, address: u16) -> u16
        ensures { result ≡ word_at self.now address }
    {
        self.words[usize::from(address / 2)]
    }

    fn put(&mut self, address: u16, value: u16)
        ensures { self.new ≡ with_word self.old address value }
    {
        self.words[usize::from(address / 2)] = value;
    }

    fn byte(&self, address: u16) -> u16
        ensures value { result ≡ byte_at self.now address }
        ensures below { result < 0x100 }
    {
        if address % 2 == 0 {
            self.word(address) % 0x100
        } else {
            self.word(address) / 0x100
        }
    }

    fn put_byte(&mut self, address: u16, value: u16)
        ensures { self.new ≡ with_byte self.old address value }
    {
        let old = self.word(address);
        let new = if address % 2 == 0 {
            old / 0x100 * 0x100 + value % 0x100
        } else {
            old % 0x100 + 0x100 * (value % 0x100)
        };
        self.put(address, new);
    }
}

impl Bus for Memory {
    ghost model = { memory_bus };

    fn fetch(&self, address: u16) -> Result<u16, Refused> {
        if is_word(address) {
            Ok(self.word(address))
        } else {
            Err(Refused::Bus)
        }
    }

    fn read(&mut self, address: u16, width: Width) -> Result<u16, Refused> {
        match width {
            Width::Word => self.fetch(address),
            Width::Byte => {
                if is_memory(address) {
                    Ok(self.byte(address))
                } else {
                    Err(Refused::Bus)
                }
            }
        }
    }

    fn write(&mut self, address: u16, width: Width, value: u16) -> Result<(), Refused> {
        match width {
            Width::Word => {
                if is_word(address) {
                    self.put(address, value);
                    Ok(())
                } else {
                    Err(Refused::Bus)
                }
            }
            Width::Byte => {
                if is_memory(address) {
                    self.put_byte(address, value);
                    Ok(())
                } else {
                    Err(Refused::Bus)
                }
            }
        }
    }

    ghost reads_keep_memory = { λ s a w. refl };
}
