//! The source that is generated from a number.
ghost use Rattle.std.specs.Prelude.{◌≡◌, ◌<◌, ◌≤◌, ◌++◌, IfOk, OnOk, decimal, flat_map, length};
ghost use Rattle.source_generator.specs.Draws.{draws, behind};
ghost use Rattle.source_generator.specs.Source.{
  template,
  letter_text,
  filled,
  statement_text,
  scalar_text,
  scalar_texts,
  task_head,
  task_end,
  task_text,
  task_texts,
  generated_text,
};

use crate::generator::Generator;
use alp_text::print_u64;
use std::alloc::{AllocError, Global};

fn push_number(out: &mut Vec<u8>, number: u16) -> Result<(), AllocError>
    ensures { OnOk result (out.new.items ≡ out.old.items ++ decimal number) }
{
    out.extend_from_slice(print_u64(number as u64).as_bytes())
}

// The statement that a draw chooses, with its letters still open.
fn template(kind: u16) -> &'static [u8]
    requires { kind < 6 }
    ensures { result.now ≡ template kind }
{
    match kind {
        0 => b"xA = xB + sense();",
        1 => b"aC[xA] = xB;",
        2 => b"xA = aC[xB % 32] ^ D;",
        3 => b"if (xA < xB) { xA = D; } else { emit(xB); }",
        4 => b"for (i = 0; i < 8; i++) { aC[i] = aC[i] + xB; }",
        _ => b"emit(xA * xB);",
    }
}

// What stands for a byte of a template.
#[tactic(auto, unfolding(crate::specs::Source::letter_text))]
fn push_letter(out: &mut Vec<u8>, draw: u16, letter: u8) -> Result<(), AllocError>
    ensures { OnOk result (out.new.items ≡ out.old.items ++ letter_text draw letter) }
{
    match letter {
        b'A' => push_number(out, draw / 6 % 8),
        b'B' => push_number(out, draw / 48 % 8),
        b'C' => push_number(out, draw / 384 % 2),
        b'D' => push_number(out, draw),
        _ => out.extend_from_slice(&[letter]),
    }
}

fn push_filled(out: &mut Vec<u8>, draw: u16, text: &[u8]) -> Result<(), AllocError>
    ensures { OnOk result (out.new.items ≡ out.old.items ++ filled draw text.now) }
{
    for letter in text {
        push_letter(out, draw, *letter)?;
    }
    Ok(())
}

#[tactic(auto, unfolding(crate::specs::Source::statement_text))]
fn push_statement(out: &mut Vec<u8>, draw: u16) -> Result<(), AllocError>
    ensures { OnOk result (out.new.items ≡ out.old.items ++ statement_text draw) }
{
    out.extend_from_slice(b"  ")?;
    push_filled(out, draw, template(draw % 6))?;
    out.extend_from_slice(b"\n")
}

#[tactic(auto, unfolding(crate::specs::Source::scalar_text))]
fn push_scalar(out: &mut Vec<u8>, number: u16, value: u16) -> Result<(), AllocError>
    ensures { OnOk result (out.new.items ≡ out.old.items ++ scalar_text number value) }
{
    out.extend_from_slice(b"shared unsigned x")?;
    push_number(out, number)?;
    out.extend_from_slice(b" = ")?;
    push_number(out, value)?;
    out.extend_from_slice(b";\n")?;
    Ok(())
}

// Eight scalars, each with a draw.
fn push_scalars(out: &mut Vec<u8>, generator: &mut Generator) -> Result<(), AllocError>
    ensures text { OnOk result (out.new.items ≡ out.old.items ++ scalar_texts 0 (draws 8 generator.old.state)) }
    ensures state { OnOk result (generator.new.state ≡ behind 8 generator.old.state) }
{
    for number in 0..8u16 {
        push_scalar(out, number, generator.draw())?;
    }
    Ok(())
}

#[tactic(auto, unfolding(crate::specs::Source::task_head))]
fn push_task_head(out: &mut Vec<u8>, number: u16) -> Result<(), AllocError>
    ensures { OnOk result (out.new.items ≡ out.old.items ++ task_head number) }
{
    out.extend_from_slice(b"task t")?;
    push_number(out, number)?;
    out.extend_from_slice(b" {\n  unsigned i;\n")
}

#[tactic(auto, unfolding(crate::specs::Source::task_end))]
fn push_task_end(out: &mut Vec<u8>, number: u16, draw: u16) -> Result<(), AllocError>
    requires { number < 16 }
    ensures { OnOk result (out.new.items ≡ out.old.items ++ task_end number draw) }
{
    out.extend_from_slice(b"  transition_to(t")?;
    push_number(out, (number + 1 + draw % 3) % 16)?;
    out.extend_from_slice(b");\n}\n")?;
    Ok(())
}

// Six statements, each from a draw.
fn push_statements(out: &mut Vec<u8>, generator: &mut Generator) -> Result<(), AllocError>
    ensures text { OnOk result (out.new.items ≡ out.old.items ++ flat_map statement_text (draws 6 generator.old.state)) }
    ensures state { OnOk result (generator.new.state ≡ behind 6 generator.old.state) }
{
    for _statement in 0..6u16 {
        push_statement(out, generator.draw())?;
    }
    Ok(())
}

#[tactic(auto, unfolding(crate::specs::Source::task_text))]
fn push_task(out: &mut Vec<u8>, number: u16, generator: &mut Generator) -> Result<(), AllocError>
    requires { number < 16 }
    ensures text { OnOk result (out.new.items ≡ out.old.items ++ task_text number generator.old.state) }
    ensures state { OnOk result (generator.new.state ≡ behind 7 generator.old.state) }
{
    push_task_head(out, number)?;
    push_statements(out, generator)?;
    push_task_end(out, number, generator.draw())
}

fn push_tasks(out: &mut Vec<u8>, generator: &mut Generator) -> Result<(), AllocError>
    ensures { OnOk result (out.new.items ≡ out.old.items ++ task_texts 16 0 generator.old.state) }
{
    for number in 0..16u16 {
        push_task(out, number, generator)?;
    }
    Ok(())
}

/// The source that is generated from a number, of at most 65536 bytes. Fails where memory is refused.
#[tactic(auto, unfolding(crate::specs::Source::generated_text))]
pub fn generated_source(alloc: Global, number: u32) -> Result<Vec<u8>, AllocError>
    ensures text { IfOk result (λ text. text.items ≡ generated_text number) }
    ensures short { IfOk result (λ text. length text.items ≤ 65536) }
{
    let mut generator = Generator::new(number);
    let mut out = Vec::new(alloc);
    push_scalars(&mut out, &mut generator)?;
    out.extend_from_slice(b"shared unsigned a0[32];\nshared unsigned a1[32];\n")?;
    push_tasks(&mut out, &mut generator)?;
    out.extend_from_slice(b"entry t0;\n")?;
    Ok(out)
}
