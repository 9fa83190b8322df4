//! Assembler texts: assembled to images, and written for images.
#![tactic(auto)]

mod alone;
mod assembler;
mod disassembler;
mod fault;
mod faults;
mod labels;
mod laws;
mod passes;
mod placing;
mod words;
mod written;

pub use assembler::assemble;
pub use disassembler::disassemble;
pub use fault::AsmFault;
pub use laws::{
    images_have_one_text, images_have_texts, labels_stand_first, lines_alone, lines_are_the_text_s,
};
