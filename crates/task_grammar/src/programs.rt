//! Declarations and whole programs.

ghost use Rattle.std.specs.Prelude.{◌≡◌, ◌≤◌, ◌<◌, [], length, map, IfOk};
ghost use Rattle.task_ast.specs.View.{function_of, task_of, program_of};
ghost use Rattle.task_grammar.specs.Grammar as grammar;
ghost use Rattle.task_grammar.specs.Reading as reading;
ghost use Rattle.task_grammar.specs.Programs as spec;
ghost use Rattle.task_grammar.specs.Gives.{Gives};

use crate::fault::Stop;
use crate::statement::{block, typed};
use crate::tokens::{kind_of, long_worth, take};
use alp_text::Span;
use std::alloc::Global;
use task_ast::{
    Extent, FunctionDeclaration, Parameter, SharedDeclaration, TaskDeclaration, Tree, WordType,
};
use task_lex::{Kind, Token};

fn negated(n: u16) -> u16
    ensures { result ≡ grammar.negated n }
{
    ((65536 - u32::from(n)) % 65536) as u16
}

// The initial value of a scalar, behind its `=`.
fn initial<'a>(tokens: &'a [Token]) -> Result<(Extent, &'a [Token]), Stop<'a>>
    ensures value { Gives (λ x. reading.done x.0 x.1.now)
        (spec.valued_by (reading.kind_of tokens.now) tokens.now) result }
    ensures shorter { IfOk result (λ x. length x.1.now < length tokens.now) }
{
    match kind_of(tokens) {
        Some(Kind::Minus) => {
            let (_, rest) = take(Kind::Minus, tokens)?;
            let (number, rest) = take(Kind::Number, rest)?;
            Ok((Extent::Scalar(negated(number.value)), rest))
        }
        _ => {
            let (number, rest) = take(Kind::Number, tokens)?;
            Ok((Extent::Scalar(number.value), rest))
        }
    }
}

// What stands behind a shared name.
#[tactic(auto, unfolding(crate::specs::Programs::extents))]
fn extent<'a>(tokens: &'a [Token]) -> Result<(Extent, &'a [Token]), Stop<'a>>
    ensures value { Gives (λ x. reading.done x.0 x.1.now) (spec.extents tokens.now) result }
    ensures shorter { IfOk result (λ x. length x.1.now ≤ length tokens.now) }
{
    match kind_of(tokens) {
        Some(Kind::OpenSquare) => {
            let (_, rest) = take(Kind::OpenSquare, tokens)?;
            let (number, rest) = take(Kind::Number, rest)?;
            let (_, rest) = take(Kind::CloseSquare, rest)?;
            Ok((Extent::Array(number.value), rest))
        }
        Some(Kind::Assign) => {
            let (_, rest) = take(Kind::Assign, tokens)?;
            initial(rest)
        }
        _ => Ok((Extent::Scalar(0), tokens)),
    }
}

fn long_negated(n: u32) -> u32
    ensures { result ≡ grammar.long_negated n }
{
    ((4294967296 - u64::from(n)) % 4294967296) as u32
}

// A number or a long number.
#[tactic(auto, unfolding(crate::specs::Programs::worth))]
fn worth<'a>(tokens: &'a [Token]) -> Result<(u32, &'a [Token]), Stop<'a>>
    ensures value { Gives (λ x. reading.done x.0 x.1.now) (spec.worth tokens.now) result }
    ensures shorter { IfOk result (λ x. length x.1.now < length tokens.now) }
{
    match kind_of(tokens) {
        Some(Kind::LongNumber) => {
            let (number, rest) = take(Kind::LongNumber, tokens)?;
            Ok((long_worth(number), rest))
        }
        _ => {
            let (number, rest) = take(Kind::Number, tokens)?;
            Ok((u32::from(number.value), rest))
        }
    }
}

// The initial value of a long, behind its `=`.
fn long_initial<'a>(tokens: &'a [Token]) -> Result<(Extent, &'a [Token]), Stop<'a>>
    ensures value { Gives (λ x. reading.done x.0 x.1.now)
        (spec.long_valued_by (reading.kind_of tokens.now) tokens.now) result }
    ensures shorter { IfOk result (λ x. length x.1.now < length tokens.now) }
{
    match kind_of(tokens) {
        Some(Kind::Minus) => {
            let (_, rest) = take(Kind::Minus, tokens)?;
            let (value, rest) = worth(rest)?;
            Ok((Extent::Long(long_negated(value)), rest))
        }
        _ => {
            let (value, rest) = worth(tokens)?;
            Ok((Extent::Long(value), rest))
        }
    }
}

// What stands behind the name of a long.
#[tactic(auto, unfolding(crate::specs::Programs::long_extents))]
fn long_extent<'a>(tokens: &'a [Token]) -> Result<(Extent, &'a [Token]), Stop<'a>>
    ensures value { Gives (λ x. reading.done x.0 x.1.now) (spec.long_extents tokens.now) result }
    ensures shorter { IfOk result (λ x. length x.1.now ≤ length tokens.now) }
{
    match kind_of(tokens) {
        Some(Kind::Assign) => {
            let (_, rest) = take(Kind::Assign, tokens)?;
            long_initial(rest)
        }
        _ => Ok((Extent::Long(0), tokens)),
    }
}

// A long: `long` stands behind `unsigned` alone.
fn long_behind<'a>(
    word_type: WordType,
    tokens: &'a [Token],
) -> Result<(SharedDeclaration, &'a [Token]), Stop<'a>>
    ensures value { Gives (λ x. reading.done x.0 x.1.now) (spec.long_behind word_type tokens.now) result }
    ensures shorter { IfOk result (λ x. length x.1.now < length tokens.now) }
{
    match word_type {
        WordType::Unsigned => {
            let (_, rest) = take(Kind::Long, tokens)?;
            let (name, rest) = take(Kind::Name, rest)?;
            let (extent, rest) = long_extent(rest)?;
            let (_, rest) = take(Kind::Semicolon, rest)?;
            Ok((declaration(WordType::Long, name, extent), rest))
        }
        WordType::Int | WordType::Long => Err(Stop::Syntax(tokens)),
    }
}

fn declaration(word_type: WordType, name: Token, extent: Extent) -> SharedDeclaration
    ensures { result ≡ grammar.shared_from word_type name extent }
{
    SharedDeclaration {
        word_type,
        name: name.span,
        extent,
    }
}

// A declaration behind its type.
fn shared_behind<'a>(
    word_type: WordType,
    tokens: &'a [Token],
) -> Result<(SharedDeclaration, &'a [Token]), Stop<'a>>
    ensures value { Gives (λ x. reading.done x.0 x.1.now)
        (spec.shared_by (reading.kind_of tokens.now) word_type tokens.now) result }
    ensures shorter { IfOk result (λ x. length x.1.now < length tokens.now) }
{
    match kind_of(tokens) {
        Some(Kind::Long) => long_behind(word_type, tokens),
        _ => {
            let (name, rest) = take(Kind::Name, tokens)?;
            let (extent, rest) = extent(rest)?;
            let (_, rest) = take(Kind::Semicolon, rest)?;
            Ok((declaration(word_type, name, extent), rest))
        }
    }
}

#[tactic(auto, unfolding(crate::specs::Programs::shared))]
fn shared_one<'a>(tokens: &'a [Token]) -> Result<(SharedDeclaration, &'a [Token]), Stop<'a>>
    ensures value { Gives (λ x. reading.done x.0 x.1.now) (spec.shared tokens.now) result }
    ensures shorter { IfOk result (λ x. length x.1.now < length tokens.now) }
{
    let (_, rest) = take(Kind::Shared, tokens)?;
    let (word_type, rest) = typed(rest)?;
    shared_behind(word_type, rest)
}

// `type name`
#[tactic(auto, unfolding(crate::specs::Programs::parameter))]
fn parameter<'a>(tokens: &'a [Token]) -> Result<(Parameter<Span>, &'a [Token]), Stop<'a>>
    ensures value { Gives (λ x. reading.done x.0 x.1.now) (spec.parameter tokens.now) result }
    ensures shorter { IfOk result (λ x. length x.1.now < length tokens.now) }
{
    let (word_type, rest) = typed(tokens)?;
    let (name, rest) = take(Kind::Name, rest)?;
    let parameter = Parameter {
        word_type,
        name: name.span,
    };
    Ok((parameter, rest))
}

// `, type name`
#[tactic(auto, unfolding(crate::specs::Programs::further))]
fn further<'a>(tokens: &'a [Token]) -> Result<(Parameter<Span>, &'a [Token]), Stop<'a>>
    ensures value { Gives (λ x. reading.done x.0 x.1.now) (spec.further tokens.now) result }
    ensures shorter { IfOk result (λ x. length x.1.now < length tokens.now) }
{
    let (_, rest) = take(Kind::Comma, tokens)?;
    parameter(rest)
}

// One parameter or more.
#[tactic(auto, using(crate::proofs::ProgramComplete::further_is), unfolding(crate::specs::Programs::some_parameters))]
fn some_parameters<'a>(
    alloc: Global,
    tokens: &'a [Token],
) -> Result<(Vec<Parameter<Span>>, &'a [Token]), Stop<'a>>
    ensures value { Gives (λ x. reading.done x.0.items x.1.now) (spec.some_parameters tokens.now) result }
    ensures shorter { IfOk result (λ x. length x.1.now ≤ length tokens.now) }
{
    let (first, mut rest) = parameter(tokens)?;
    let mut found = Vec::new(alloc);
    found.push(first)?;
    'parameters: while matches!(kind_of(rest), Some(Kind::Comma)) {
        let (item, next) = further(rest)?;
        found.push(item)?;
        rest = next;
    }
    Ok((found, rest))
}

// What stands between the brackets of a function.
#[tactic(auto, unfolding(crate::specs::Programs::parameters))]
fn parameters<'a>(
    alloc: Global,
    tokens: &'a [Token],
) -> Result<(Vec<Parameter<Span>>, &'a [Token]), Stop<'a>>
    ensures value { Gives (λ x. reading.done x.0.items x.1.now) (spec.parameters tokens.now) result }
    ensures shorter { IfOk result (λ x. length x.1.now ≤ length tokens.now) }
{
    match kind_of(tokens) {
        Some(Kind::Close) => Ok((Vec::new(alloc), tokens)),
        _ => some_parameters(alloc, tokens),
    }
}

#[tactic(auto, unfolding(crate::specs::Programs::function))]
fn function_one<'a>(
    alloc: Global,
    tokens: &'a [Token],
) -> Result<(FunctionDeclaration<Span, Span, Span>, &'a [Token]), Stop<'a>>
    ensures value { Gives (λ x. reading.done (function_of x.0) x.1.now) (spec.function tokens.now) result }
    ensures shorter { IfOk result (λ x. length x.1.now < length tokens.now) }
{
    let (word_type, rest) = typed(tokens)?;
    let (name, rest) = take(Kind::Name, rest)?;
    let (_, rest) = take(Kind::Open, rest)?;
    let (parameters, rest) = parameters(alloc, rest)?;
    let (_, rest) = take(Kind::Close, rest)?;
    let (body, rest) = block(alloc, rest)?;
    let declaration = FunctionDeclaration {
        word_type,
        name: name.span,
        parameters,
        body,
    };
    Ok((declaration, rest))
}

#[tactic(auto, unfolding(crate::specs::Programs::task))]
fn task_one<'a>(
    alloc: Global,
    tokens: &'a [Token],
) -> Result<(TaskDeclaration<Span, Span, Span>, &'a [Token]), Stop<'a>>
    ensures value { Gives (λ x. reading.done (task_of x.0) x.1.now) (spec.task tokens.now) result }
    ensures shorter { IfOk result (λ x. length x.1.now < length tokens.now) }
{
    let (_, rest) = take(Kind::Task, tokens)?;
    let (name, rest) = take(Kind::Name, rest)?;
    let (body, rest) = block(alloc, rest)?;
    let declaration = TaskDeclaration {
        name: name.span,
        body,
    };
    Ok((declaration, rest))
}

#[tactic(auto, using(crate::proofs::ProgramComplete::shareds_is))]
fn shareds<'a>(
    alloc: Global,
    tokens: &'a [Token],
) -> Result<(Vec<SharedDeclaration>, &'a [Token]), Stop<'a>>
    ensures { Gives (λ x. reading.done x.0.items x.1.now)
        (spec.many spec.is_shared spec.shared [] tokens.now) result }
{
    let mut found = Vec::new(alloc);
    let mut rest = tokens;
    'shared: while matches!(kind_of(rest), Some(Kind::Shared)) {
        let (item, next) = shared_one(rest)?;
        found.push(item)?;
        rest = next;
    }
    Ok((found, rest))
}

#[tactic(auto, using(crate::proofs::ProgramComplete::functions_is, crate::proofs::Views::function_push))]
fn functions<'a>(
    alloc: Global,
    tokens: &'a [Token],
) -> Result<(Vec<FunctionDeclaration<Span, Span, Span>>, &'a [Token]), Stop<'a>>
    ensures { Gives (λ x. reading.done (map function_of x.0.items) x.1.now)
        (spec.many spec.is_function spec.function [] tokens.now) result }
{
    let mut found = Vec::new(alloc);
    let mut rest = tokens;
    'functions: while matches!(kind_of(rest), Some(Kind::Unsigned | Kind::Int)) {
        let (item, next) = function_one(alloc, rest)?;
        found.push(item)?;
        rest = next;
    }
    Ok((found, rest))
}

// One task or more.
#[tactic(auto, using(crate::proofs::ProgramComplete::tasks_is, crate::proofs::Views::task_push), unfolding(crate::specs::Programs::tasks))]
fn tasks<'a>(
    alloc: Global,
    tokens: &'a [Token],
) -> Result<(Vec<TaskDeclaration<Span, Span, Span>>, &'a [Token]), Stop<'a>>
    ensures { Gives (λ x. reading.done (map task_of x.0.items) x.1.now) (spec.tasks tokens.now) result }
{
    let (first, mut rest) = task_one(alloc, tokens)?;
    let mut found = Vec::new(alloc);
    found.push(first)?;
    'tasks: while matches!(kind_of(rest), Some(Kind::Task)) {
        let (item, next) = task_one(alloc, rest)?;
        found.push(item)?;
        rest = next;
    }
    Ok((found, rest))
}

/// A whole program: nothing stands behind it.
#[tactic(auto, unfolding(crate::specs::Programs::program))]
pub fn program<'a>(alloc: Global, tokens: &'a [Token]) -> Result<Tree, Stop<'a>>
    ensures { Gives (λ tree. reading.done (program_of tree) []) (spec.program tokens.now) result }
{
    let (shared, rest) = shareds(alloc, tokens)?;
    let (functions, rest) = functions(alloc, rest)?;
    let (tasks, rest) = tasks(alloc, rest)?;
    let (_, rest) = take(Kind::Entry, rest)?;
    let (name, rest) = take(Kind::Name, rest)?;
    let (_, rest) = take(Kind::Semicolon, rest)?;
    match rest.first() {
        Some(_) => Err(Stop::Syntax(rest)),
        None => Ok(Tree {
            shared,
            functions,
            tasks,
            entry: name.span,
        }),
    }
}
