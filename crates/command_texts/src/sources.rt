//! A source text, read for a command.
ghost use Rattle.std.specs.Prelude.{◌≡◌, ◌≤◌, IfOk, IfErr, Ok, length, option_map, Some};
ghost use Rattle.command_answers.specs.task_ast.View.{program_of};
ghost use Rattle.cost_bound.specs.declared.allowance.Allow.{Allow};
ghost use Rattle.command_answers.specs.source_values.Runs.{CheckedProgram};
ghost use Rattle.source_meaning.specs.Acceptance.{IsAcceptedText};
ghost use Rattle.command_texts.specs.Sources as told;
ghost use Rattle.command_texts.specs.Sources.{IsSourceText, RefusesSource};
ghost use Rattle.command_answers.specs.Outcomes.{FailsRefused};
ghost use Rattle.command_answers.specs.Views.{refusal_of};

use command_answers::{Detail, Failure, Refusal, named, plain};
use cost_bound::Over;
use source_meaning::{Accepted, SourceFault, accept};
use std::alloc::Global;
use task_check::{CheckFault, Kept};
use task_lex::LexFault;

fn numbered<'t>(line: u32, kind: &'static str, n: u64) -> Refusal<'t>
    ensures { refusal_of result ≡ told.numbered line kind.now n }
{
    Refusal {
        line,
        kind,
        detail: Detail::Number(n),
    }
}

fn lex_refusal<'t>(fault: LexFault) -> Option<Refusal<'t>>
    ensures { option_map refusal_of result ≡ told.lex_refusal fault }
{
    match fault {
        LexFault::BadByte { line } => Some(plain(line, "BadByte")),
        LexFault::BadNumber { line } => Some(plain(line, "BadNumber")),
        LexFault::BadName { line } => Some(plain(line, "BadName")),
        LexFault::TooDeep { line } => Some(plain(line, "TooDeep")),
        LexFault::TooWide { line } => Some(plain(line, "TooWide")),
        LexFault::Memory => None,
    }
}

fn use_refusal<'t>(text: &'t [u8], line: u32, kept: Kept) -> Refusal<'t>
    ensures { refusal_of result ≡ told.use_refusal text.now line kept }
{
    match kept {
        Kept::Name(span) => named(text, line, "WrongUse", span),
        Kept::Number(n) => numbered(line, "WrongUse", n as u64),
        Kept::Nothing => plain(line, "WrongUse"),
    }
}

fn check_refusal<'t>(text: &'t [u8], fault: CheckFault) -> Option<Refusal<'t>>
    ensures { option_map refusal_of result ≡ told.check_refusal text.now fault }
{
    match fault {
        CheckFault::RepeatedName { line, name } => Some(named(text, line, "RepeatedName", name)),
        CheckFault::UnknownName { line, name } => Some(named(text, line, "UnknownName", name)),
        CheckFault::WrongUse { line, kept } => Some(use_refusal(text, line, kept)),
        CheckFault::BadLength { line, name } => Some(named(text, line, "BadLength", name)),
        CheckFault::BadLoop { line, name } => Some(named(text, line, "BadLoop", name)),
        CheckFault::Unassigned { line, name } => Some(named(text, line, "Unassigned", name)),
        CheckFault::NoReturn { line, name } => Some(named(text, line, "NoReturn", name)),
        CheckFault::NoTransition { line, name } => Some(named(text, line, "NoTransition", name)),
        CheckFault::TooMany { line } => Some(plain(line, "TooMany")),
        CheckFault::Memory => None,
    }
}

fn over_refusal<'t>(over: Over) -> Refusal<'t>
    ensures { refusal_of result ≡ told.over_refusal over }
{
    match over {
        Over::TooManyEmits {
            line,
            name: _,
            count,
        } => numbered(line, "TooManyEmits", count),
        Over::BoundTooLarge { number } => numbered(0, "BoundTooLarge", number),
        Over::TooLarge { number } => numbered(0, "TooLarge", number),
        Over::StackTooLarge { number } => numbered(0, "StackTooLarge", number),
    }
}

fn source_refusal<'t>(text: &'t [u8], fault: SourceFault) -> Option<Refusal<'t>>
    ensures { option_map refusal_of result ≡ told.source_refusal text.now fault }
{
    match fault {
        SourceFault::Lex(fault) => lex_refusal(fault),
        SourceFault::Syntax { line } => Some(plain(line, "Syntax")),
        SourceFault::Check(fault) => check_refusal(text, fault),
        SourceFault::Over(over) => Some(over_refusal(over)),
        SourceFault::Memory => None,
    }
}

fn failure_of<'t>(file: &'t str, text: &'t [u8], fault: SourceFault) -> Failure<'t>
    ensures { FailsRefused file.now (λ r. told.source_refusal text.now fault ≡ Some r) result }
{
    match source_refusal(text, fault) {
        Some(refusal) => Failure::Refused { file, refusal },
        None => Failure::Memory,
    }
}

/// The source that the text of a named file is.
///
/// # Errors
/// `Refused` with the refusal of the first pass that refuses the text; `Memory` where memory was refused.
pub fn source_of<'t>(alloc: Global, file: &'t str, text: &'t [u8]) -> Result<Accepted, Failure<'t>>
    requires { length text.now ≤ 1048576 }
    ensures text { IfOk result (λ a. a.text.items ≡ text.now) }
    ensures accepted { IfOk result (λ a. IsAcceptedText text.now (program_of a.checked.source) a.allow) }
    ensures only { IfOk result (λ a. (program : CheckedProgram) (allow : Allow)
        → IsAcceptedText text.now program allow → (program ≡ program_of a.checked.source) × (allow ≡ a.allow)) }
    ensures said { IfOk result (λ a. IsSourceText text.now (program_of a.checked.source)) }
    ensures refused { IfErr result (FailsRefused file.now (RefusesSource text.now)) }
{
    match accept(alloc, text) {
        Ok(accepted) => Ok(accepted),
        Err(fault) => Err(failure_of(file, text, fault)),
    }
}
