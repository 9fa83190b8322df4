//! Texts that are accepted.

ghost use Rattle.std.specs.Prelude.{◌≡◌, ◌<◌, ◌^◌, ◌-◌, length, map, All, IfOk, IfErr};
ghost use Rattle.source_values.specs.alp_text.declared.lines.Span.{Span};
ghost use Rattle.task_ast.specs.Paths.{CheckedProgram};
ghost use Rattle.task_ast.specs.Tree.{Program};
ghost use Rattle.task_ast.specs.View.{program_of};
ghost use Rattle.cost_bound.specs.declared.allowance.Allow.{Allow};
ghost use Rattle.task_lex.specs.Lex.{lexed, tokens};
ghost use Rattle.task_lex.specs.Faults.{line_of};
ghost use Rattle.task_lex.specs.Spans.{InOrder, IsBounded};
ghost use Rattle.task_parse.specs.Grammar.{IsProgram};
ghost use Rattle.task_check.specs.Answers.{IsAccepted};
ghost use Rattle.source_values.specs.Running.{IsRunnable};
ghost use Rattle.source_meaning.specs.Props.{IsRunnable-prop};
ghost use Rattle.source_meaning.specs.Acceptance.{Parses, Checks, task_lines, IsAcceptedText, IsRefusedText};

use crate::fault::SourceFault;
use cost_bound::{Allow, allow, one_answer as one_allowance};
use std::alloc::Global;
use task_ast::Tree;
use task_check::{CheckFault, Checked, check};
use task_lex::{LexFault, Token, lex};
use task_parse::{ParseFault, parse};

/// An accepted source: its text, the source with its names looked up, and its allowance.
#[derive(Drop)]
pub struct Accepted {
    text: Vec<u8>,
    checked: Checked,
    allow: Allow,
    pub ghost runnable: { IsRunnable (program_of checked.source) } by { IsRunnable-prop (program_of checked.source) },
    pub ghost short: { length text.items < 2 ^ 32 - 1 },
}

impl Accepted {
    /// The source with its names looked up.
    pub fn checked(&self) -> &Checked
        ensures { result.now ≡ self.now.checked }
    {
        &self.checked
    }

    /// What it may cost.
    pub fn allow(&self) -> &Allow
        ensures { result.now ≡ self.now.allow }
    {
        &self.allow
    }

    /// The text.
    pub fn source(&self) -> &[u8]
        ensures { result.now ≡ self.now.text.items }
    {
        &self.text
    }
}

fn tokens_of(alloc: Global, text: &[u8]) -> Result<Vec<Token>, SourceFault>
    requires { length text.now < 2 ^ 32 - 1 }
    ensures tokens { IfOk result (λ v. lexed text.now ≡ tokens v.items) }
    ensures order { IfOk result (λ v. InOrder 0 (length text.now) v.items) }
    ensures bounded { IfOk result (λ v. IsBounded 0 0 v.items) }
    ensures refused { IfErr result (λ f. IsRefusedText text.now f) }
{
    match lex(alloc, text) {
        Ok(tokens) => Ok(tokens),
        Err(LexFault::Memory) => Err(SourceFault::Memory),
        Err(fault) => Err(SourceFault::Lex(fault)),
    }
}

fn tree_of(alloc: Global, text: &[u8]) -> Result<Tree, SourceFault>
    requires { length text.now < 2 ^ 32 - 1 }
    ensures parses { IfOk result (λ tree. Parses text.now (program_of tree)) }
    ensures only { IfOk result (λ tree. (other : Program Span Span Span) → Parses text.now other → other ≡ program_of tree) }
    ensures refused { IfErr result (λ f. IsRefusedText text.now f) }
{
    let tokens = tokens_of(alloc, text)?;
    match parse(alloc, text, &tokens) {
        Ok(tree) => Ok(tree),
        Err(ParseFault::Memory) => Err(SourceFault::Memory),
        Err(ParseFault::Syntax { line }) => Err(SourceFault::Syntax { line }),
    }
}

fn checked_of(alloc: Global, text: &[u8]) -> Result<Checked, SourceFault>
    requires { length text.now < 2 ^ 32 - 1 }
    ensures checks { IfOk result (λ c. Checks text.now (program_of c.source)) }
    ensures only { IfOk result (λ c. (other : CheckedProgram) → Checks text.now other → other ≡ program_of c.source) }
    ensures lines { IfOk result (λ c. c.task_lines.items ≡ task_lines text.now (program_of c.source)) }
    ensures refused { IfErr result (λ f. IsRefusedText text.now f) }
{
    let tree = tree_of(alloc, text)?;
    match check(alloc, text, tree) {
        Ok(checked) => Ok(checked),
        Err(CheckFault::Memory) => Err(SourceFault::Memory),
        Err(fault) => Err(SourceFault::Check(fault)),
    }
}

/// Takes a text through all passes: the source with its names looked up and its allowance, which are the only ones that the
/// text has; or the refusal of the first pass that refuses it, at its first place. Want of memory stands alone.
pub fn accept(alloc: Global, text: &[u8]) -> Result<Accepted, SourceFault>
    requires { length text.now < 2 ^ 32 - 1 }
    ensures text { IfOk result (λ a. a.text.items ≡ text.now) }
    ensures accepted { IfOk result (λ a. IsAcceptedText text.now (program_of a.checked.source) a.allow) }
    ensures only { IfOk result (λ a. (program : CheckedProgram) (allow : Allow)
        → IsAcceptedText text.now program allow → (program ≡ program_of a.checked.source) × (allow ≡ a.allow)) }
    ensures refused { IfErr result (λ f. IsRefusedText text.now f) }
{
    let checked = checked_of(alloc, text)?;
    // The law, that a source has one allowance.
    one_allowance();
    match allow(&checked) {
        Err(over) => Err(SourceFault::Over(over)),
        Ok(allow) => Ok(Accepted {
            text: text.to_vec(alloc)?,
            checked,
            allow,
        }),
    }
}
