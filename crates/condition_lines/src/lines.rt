//! The lines of the `if`s of a text.

ghost use Rattle.std.specs.Prelude.{◌≡◌, ◌++◌, ◌-◌, ◌<◌, ◌≤◌, ◌^◌, IfOk, OnOk, false, length};
ghost use Rattle.task_lex.specs.Faults.{line_of};
ghost use Rattle.task_lex.specs.Spans.{InOrder};
ghost use Rattle.condition_lines.specs.Lines.{if_lines, is_else, is_if, line_if, lines_from};

use std::alloc::{AllocError, Global};
use task_lex::{Kind, LexFault, Token, lex};

fn is_if(kind: Kind) -> bool
    ensures { result ≡ is_if kind }
{
    matches!(kind, Kind::If)
}

fn is_else(kind: Kind) -> bool
    ensures { result ≡ is_else kind }
{
    matches!(kind, Kind::Else)
}

// The line of a place, from the line of one before it.
#[tactic(auto, using(crate::proofs::Counted::line_stays, crate::proofs::Counted::line_ends, crate::proofs::Counted::line_low))]
fn line_behind(source: &[u8], from: usize, line: u32, to: usize) -> u32
    requires short { length source.now < 2 ^ 32 - 1 }
    requires order { from ≤ to }
    requires within { to ≤ length source.now }
    requires before { line ≡ line_of source.now from }
    ensures { result ≡ line_of source.now to }
{
    let mut line = line;
    for i in from..to {
        if source[i] == b'\n' {
            line += 1;
        }
    }
    line
}

// One line more where there is one.
fn push_if(lines: &mut Vec<u32>, some: bool, line: u32) -> Result<(), AllocError>
    ensures { OnOk result (lines.new.items ≡ lines.old.items ++ line_if some line) }
{
    if some {
        lines.push(line)?;
    }
    Ok(())
}

// The lines of the `if`s among the tokens of a text.
fn lines_of(alloc: Global, source: &[u8], tokens: &[Token]) -> Result<Vec<u32>, AllocError>
    requires short { length source.now < 2 ^ 32 - 1 }
    requires order { InOrder 0 (length source.now) tokens.now }
    ensures { IfOk result (λ lines. lines.items ≡ lines_from source.now false tokens.now) }
{
    let mut lines = Vec::new(alloc);
    let mut at = 0;
    let mut line = 1;
    let mut behind_else = false;
    for token in tokens {
        let from = token.span.from as usize;
        let to = token.span.to as usize;
        line = line_behind(source, at, line, from);
        push_if(&mut lines, is_if(token.kind) && !behind_else, line)?;
        behind_else = is_else(token.kind);
        line = line_behind(source, from, line, to);
        at = to;
    }
    Ok(lines)
}

/// The line of each `if` of a text that doesn't stand right behind an `else`, from 1, in the order of the text; none of a text without tokens.
///
/// # Errors
/// `AllocError` where memory was refused.
pub fn if_lines(alloc: Global, source: &[u8]) -> Result<Vec<u32>, AllocError>
    requires { length source.now < 2 ^ 32 - 1 }
    ensures { IfOk result (λ lines. lines.items ≡ if_lines source.now) }
{
    match lex(alloc, source) {
        Ok(tokens) => lines_of(alloc, source, &tokens),
        Err(LexFault::Memory) => Err(AllocError),
        Err(_) => Ok(Vec::new(alloc)),
    }
}
