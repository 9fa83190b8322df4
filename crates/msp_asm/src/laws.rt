//! Laws of the definitions, as contracts of functions that do nothing.
ghost use Rattle.std.specs.Prelude.{◌≡◌, ℕ, List, map, Some, Ok};
ghost use Rattle.image_text.specs.address_space.Limits.{fram_first};
ghost use Rattle.asm_line.specs.Lines.{LineMeaning, line_of};
ghost use Rattle.asm_line.specs.Pieces.{Located};
ghost use Rattle.msp_asm.specs.Labels.{Table};
ghost use Rattle.msp_asm.specs.Assembled.{labels_of, no_labels, lines_in};
ghost use Rattle.msp_asm.specs.Alone.{meaning_alone};
ghost use Rattle.msp_asm.specs.Disassembly.{IsTextOf};
ghost use Rattle.msp_asm.specs.Laws.{GivesWords, first_with, AreLines};

use crate::disassembler::disassemble;
use alp_io::NullSink;
use image_text::Image;

/// What a line with an instruction says alone, it says under any labels: it has no fault, and gives these words.
pub fn lines_alone()
    ensures { (a : ℕ) (m : LineMeaning) (ws : List ℕ) → meaning_alone a m ≡ Some ws → GivesWords a m ws }
{}

/// Each label stands for the first line that has it, and for the address at which that line stands.
#[tactic(auto, using(crate::proofs::FirstLabels::labels_first))]
pub fn labels_stand_first()
    ensures { (ls : List Located) (ms : List LineMeaning) (f : Table) (name : List ℕ) → map line_of ls ≡ map Some ms
        → labels_of no_labels 1 fram_first ls ≡ Ok f → f name ≡ first_with name 1 fram_first ms }
{}

/// The words of an image have one text.
#[tactic(auto, using(crate::proofs::Listing::one_text))]
pub fn images_have_one_text()
    ensures { (words text other : List ℕ) → IsTextOf words text → IsTextOf words other → text ≡ other }
{}

/// Each image has a text.
pub fn images_have_texts(image: &Image)
    ensures { (text : List ℕ) × IsTextOf image.now.words text }
{
    let mut sink = NullSink;
    let _ = disassemble(image, &mut sink);
}

/// The lines of an assembler text are those of any text, with or without an empty one behind them.
#[tactic(auto, using(crate::proofs::SameLines::same_lines))]
pub fn lines_are_the_text_s()
    ensures { (text : List ℕ) → AreLines text (map (λ l. l.text) (lines_in text)) }
{}
