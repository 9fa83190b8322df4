//! Reads lines of an instruction's words in hexadecimal, with its assembler text behind a semicolon, and prints for each the
//! words that the decoded instruction encodes to, its cycles, and the instruction.
#![tactic(auto)]

use msp_cycles::cycles;
use msp_decode::decode;
use msp_encode::encode;
use std::io;
use std::str::SplitWhitespace;

/// The next word of a line, 0 behind its last.
fn next_word(words: &mut SplitWhitespace) -> u16 {
    let Some(digits) = words.next() else {
        return 0;
    };
    u16::from_str_radix(digits, 16).unwrap_or(0)
}

fn main(rt: HostRuntime) -> io::Result<()> {
    for line in rt.lines(rt.alloc()) {
        let line = line?;
        let mut words = line.as_str().split_whitespace();
        let w0 = next_word(&mut words);
        let w1 = next_word(&mut words);
        let w2 = next_word(&mut words);
        match decode(w0, w1, w2) {
            Ok((instruction, _)) => {
                let encoded = encode(&instruction);
                let count = cycles(&instruction);
                println!(rt; "{:?} {count} {instruction:?}", encoded.as_slice())?;
            }
            Err(illegal) => println!(rt; "{illegal:?}")?,
        }
    }
    Ok(())
}
