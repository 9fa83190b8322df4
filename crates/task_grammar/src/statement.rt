//! Statements and blocks.

ghost use Rattle.std.specs.Prelude.{◌≡◌, ◌≤◌, ◌<◌, [], ◌∷◌, length, drop, map, IfOk, IfSome, Some, None};
ghost use Rattle.task_grammar.specs.Grammar as grammar;
ghost use Rattle.task_ast.specs.View.{expression_of, statement_of, tested_of, block_view, last_view};
ghost use Rattle.task_grammar.specs.Reading as reading;
ghost use Rattle.task_grammar.specs.Statements as spec;
ghost use Rattle.task_grammar.specs.Gives.{Gives};
ghost use Rattle.task_grammar.specs.Nesting.{nesting};

use crate::expression::expression;
use crate::fault::Stop;
use crate::operators::type_of;
use crate::tokens::{after, kind_of, take};
use alp_text::Span;
use std::alloc::Global;
use task_ast::{Arm, Expr, Stmt, WordType};
use task_lex::{Kind, Token};

// `= value ;`
#[tactic(auto, unfolding(crate::specs::Statements::given))]
fn given<'a>(
    alloc: Global,
    tokens: &'a [Token],
) -> Result<(Expr<Span, Span>, &'a [Token]), Stop<'a>>
    ensures value { Gives (λ x. reading.done (expression_of x.0) x.1.now) (spec.given tokens.now) result }
    ensures shorter { IfOk result (λ x. length x.1.now < length tokens.now) }
    ensures nests { IfOk result (λ x. nesting x.1.now ≤ nesting tokens.now) }
{
    let (_, rest) = take(Kind::Assign, tokens)?;
    let (value, rest) = expression(alloc, rest)?;
    let (_, rest) = take(Kind::Semicolon, rest)?;
    Ok((value, rest))
}

#[tactic(auto, unfolding(crate::specs::Statements::assigned))]
fn assigned<'a>(
    alloc: Global,
    tokens: &'a [Token],
) -> Result<(Stmt<Span, Span, Span>, &'a [Token]), Stop<'a>>
    ensures value { Gives (λ x. reading.done (statement_of x.0) x.1.now) (spec.assigned tokens.now) result }
    ensures shorter { IfOk result (λ x. length x.1.now < length tokens.now) }
    ensures nests { IfOk result (λ x. nesting x.1.now ≤ nesting tokens.now) }
{
    let (name, rest) = take(Kind::Name, tokens)?;
    match kind_of(rest) {
        Some(Kind::OpenSquare) => {
            let (_, rest) = take(Kind::OpenSquare, rest)?;
            let (index, rest) = expression(alloc, rest)?;
            let (_, rest) = take(Kind::CloseSquare, rest)?;
            let (value, rest) = given(alloc, rest)?;
            Ok((Stmt::Store(name.span, index, value), rest))
        }
        _ => {
            let (value, rest) = given(alloc, rest)?;
            Ok((Stmt::Assign(name.span, value), rest))
        }
    }
}

#[tactic(auto, unfolding(crate::specs::Statements::emitted))]
fn emitted<'a>(
    alloc: Global,
    tokens: &'a [Token],
) -> Result<(Stmt<Span, Span, Span>, &'a [Token]), Stop<'a>>
    ensures value { Gives (λ x. reading.done (statement_of x.0) x.1.now) (spec.emitted tokens.now) result }
    ensures shorter { IfOk result (λ x. length x.1.now < length tokens.now) }
    ensures nests { IfOk result (λ x. nesting x.1.now ≤ nesting tokens.now) }
{
    let (_, rest) = take(Kind::Emit, tokens)?;
    let (_, rest) = take(Kind::Open, rest)?;
    let (value, rest) = expression(alloc, rest)?;
    let (_, rest) = take(Kind::Close, rest)?;
    let (_, rest) = take(Kind::Semicolon, rest)?;
    Ok((Stmt::Emit(value), rest))
}

// `return value ;`
#[tactic(auto, unfolding(crate::specs::Statements::returned))]
fn returned<'a>(
    alloc: Global,
    tokens: &'a [Token],
) -> Result<(Stmt<Span, Span, Span>, &'a [Token]), Stop<'a>>
    ensures value { Gives (λ x. reading.done (statement_of x.0) x.1.now) (spec.returned tokens.now) result }
    ensures shorter { IfOk result (λ x. length x.1.now < length tokens.now) }
    ensures nests { IfOk result (λ x. nesting x.1.now ≤ nesting tokens.now) }
{
    let (keyword, rest) = take(Kind::Return, tokens)?;
    let (value, rest) = expression(alloc, rest)?;
    let (_, rest) = take(Kind::Semicolon, rest)?;
    Ok((Stmt::Return(keyword.span, value), rest))
}

#[tactic(auto, unfolding(crate::specs::Statements::transition))]
fn transition<'a>(tokens: &'a [Token]) -> Result<(Stmt<Span, Span, Span>, &'a [Token]), Stop<'a>>
    ensures value { Gives (λ x. reading.done (statement_of x.0) x.1.now) (spec.transition tokens.now) result }
    ensures shorter { IfOk result (λ x. length x.1.now < length tokens.now) }
    ensures nests { IfOk result (λ x. nesting x.1.now ≤ nesting tokens.now) }
{
    let (keyword, rest) = take(Kind::TransitionTo, tokens)?;
    let (_, rest) = take(Kind::Open, rest)?;
    let (name, rest) = take(Kind::Name, rest)?;
    let (_, rest) = take(Kind::Close, rest)?;
    let (_, rest) = take(Kind::Semicolon, rest)?;
    Ok((Stmt::TransitionTo(keyword.span, name.span), rest))
}

#[tactic(auto, using(crate::proofs::Nesting::nests_behind_type))]
fn type_in_front(tokens: &[Token]) -> Option<WordType>
    ensures value { result ≡ reading.meaning grammar.type_of (reading.kind_of tokens.now) }
    ensures nests { IfSome result (λ of. nesting (drop 1 tokens.now) ≡ nesting tokens.now) }
{
    match kind_of(tokens) {
        Some(kind) => type_of(kind),
        None => None,
    }
}

/// A type.
#[tactic(auto, unfolding(crate::specs::Statements::typed))]
pub fn typed<'a>(tokens: &'a [Token]) -> Result<(WordType, &'a [Token]), Stop<'a>>
    ensures value { Gives (λ x. reading.done x.0 x.1.now) (spec.typed tokens.now) result }
    ensures shorter { IfOk result (λ x. length x.1.now < length tokens.now) }
    ensures nests { IfOk result (λ x. nesting x.1.now ≤ nesting tokens.now) }
{
    match type_in_front(tokens) {
        Some(of) => Ok((of, after(tokens))),
        None => Err(Stop::Syntax(tokens)),
    }
}

#[tactic(auto, unfolding(crate::specs::Statements::declared))]
fn declared<'a>(
    alloc: Global,
    tokens: &'a [Token],
) -> Result<(Stmt<Span, Span, Span>, &'a [Token]), Stop<'a>>
    ensures value { Gives (λ x. reading.done (statement_of x.0) x.1.now) (spec.declared tokens.now) result }
    ensures shorter { IfOk result (λ x. length x.1.now < length tokens.now) }
    ensures nests { IfOk result (λ x. nesting x.1.now ≤ nesting tokens.now) }
{
    let (of, rest) = typed(tokens)?;
    let (name, rest) = take(Kind::Name, rest)?;
    match kind_of(rest) {
        Some(Kind::Assign) => {
            let (value, rest) = given(alloc, rest)?;
            Ok((Stmt::Declare(of, name.span, Some(value)), rest))
        }
        _ => {
            let (_, rest) = take(Kind::Semicolon, rest)?;
            Ok((Stmt::Declare(of, name.span, None), rest))
        }
    }
}

// Whether the next token begins a statement.
fn begins(kind: Option<Kind>) -> bool
    ensures { result ≡ spec.begins kind }
{
    matches!(
        kind,
        Some(
            Kind::Unsigned
                | Kind::Int
                | Kind::Name
                | Kind::If
                | Kind::For
                | Kind::Emit
                | Kind::Return
                | Kind::TransitionTo
        )
    )
}

// `if (condition) block`
#[cycle(block)]
#[tactic(auto, unfolding(crate::specs::Statements::arm))]
fn arm<'a>(
    alloc: Global,
    tokens: &'a [Token],
) -> Result<(Arm<Span, Span, Span>, &'a [Token]), Stop<'a>>
    ensures value { Gives (λ x. reading.done (tested_of x.0) x.1.now) (spec.arm spec.block tokens.now) result }
    ensures shorter { IfOk result (λ x. length x.1.now < length tokens.now) }
    ensures nests { IfOk result (λ x. nesting x.1.now ≤ nesting tokens.now) }
{
    let (_, rest) = take(Kind::If, tokens)?;
    let (_, rest) = take(Kind::Open, rest)?;
    let (condition, rest) = expression(alloc, rest)?;
    let (_, rest) = take(Kind::Close, rest)?;
    let (block, rest) = block(alloc, rest)?;
    Ok((Arm { condition, block }, rest))
}

// The `else if`s after the first arm, and the last block.
#[cycle(block)]
#[tactic(auto, using(crate::proofs::StatementComplete::elses_is, crate::proofs::Views::tested_push), unfolding(crate::specs::Statements::else_turn))]
fn elses<'a>(
    alloc: Global,
    first: Arm<Span, Span, Span>,
    tokens: &'a [Token],
) -> Result<
    (
        Vec<Arm<Span, Span, Span>>,
        Option<Vec<Stmt<Span, Span, Span>>>,
        &'a [Token],
    ),
    Stop<'a>,
>
    ensures value { Gives (λ x. reading.done (map tested_of x.0.items, last_view x.1) x.2.now)
        (spec.elses spec.block (tested_of first ∷ []) tokens.now) result }
    ensures shorter { IfOk result (λ x. length x.2.now ≤ length tokens.now) }
    ensures nests { IfOk result (λ x. nesting x.2.now ≤ nesting tokens.now) }
{
    let mut arms = Vec::new(alloc);
    arms.push(first)?;
    let mut rest = tokens;
    'arms: while matches!(kind_of(rest), Some(Kind::Else)) {
        let (_, next) = take(Kind::Else, rest)?;
        match kind_of(next) {
            Some(Kind::If) => {
                let (arm, next) = arm(alloc, next)?;
                arms.push(arm)?;
                rest = next;
            }
            _ => {
                let (block, next) = block(alloc, next)?;
                arms.shrink_to_fit();
                return Ok((arms, Some(block), next));
            }
        }
    }
    arms.shrink_to_fit();
    Ok((arms, None, rest))
}

#[cycle(block)]
#[tactic(auto, unfolding(crate::specs::Statements::choice))]
fn choice<'a>(
    alloc: Global,
    tokens: &'a [Token],
) -> Result<(Stmt<Span, Span, Span>, &'a [Token]), Stop<'a>>
    ensures value { Gives (λ x. reading.done (statement_of x.0) x.1.now) (spec.choice spec.block tokens.now) result }
    ensures shorter { IfOk result (λ x. length x.1.now < length tokens.now) }
    ensures nests { IfOk result (λ x. nesting x.1.now ≤ nesting tokens.now) }
{
    let (first, rest) = arm(alloc, tokens)?;
    let (arms, last, rest) = elses(alloc, first, rest)?;
    Ok((Stmt::If(arms, last), rest))
}

#[cycle(block)]
#[tactic(auto, unfolding(crate::specs::Statements::looped))]
fn looped<'a>(
    alloc: Global,
    tokens: &'a [Token],
) -> Result<(Stmt<Span, Span, Span>, &'a [Token]), Stop<'a>>
    ensures value { Gives (λ x. reading.done (statement_of x.0) x.1.now) (spec.looped spec.block tokens.now) result }
    ensures shorter { IfOk result (λ x. length x.1.now < length tokens.now) }
    ensures nests { IfOk result (λ x. nesting x.1.now ≤ nesting tokens.now) }
{
    let (_, rest) = take(Kind::For, tokens)?;
    let (_, rest) = take(Kind::Open, rest)?;
    let (variable, rest) = take(Kind::Name, rest)?;
    let (_, rest) = take(Kind::Assign, rest)?;
    let (from, rest) = take(Kind::Number, rest)?;
    let (_, rest) = take(Kind::Semicolon, rest)?;
    let (tested, rest) = take(Kind::Name, rest)?;
    let (_, rest) = take(Kind::Less, rest)?;
    let (below, rest) = take(Kind::Number, rest)?;
    let (_, rest) = take(Kind::Semicolon, rest)?;
    let (stepped, rest) = take(Kind::Name, rest)?;
    let (_, rest) = take(Kind::PlusPlus, rest)?;
    let (_, rest) = take(Kind::Close, rest)?;
    let (body, rest) = block(alloc, rest)?;
    let statement = Stmt::For {
        variable: variable.span,
        from: from.value,
        tested: tested.span,
        below: below.value,
        stepped: stepped.span,
        body,
    };
    Ok((statement, rest))
}

#[cycle(block)]
#[tactic(auto, unfolding(crate::specs::Statements::statement))]
fn statement<'a>(
    alloc: Global,
    tokens: &'a [Token],
) -> Result<(Stmt<Span, Span, Span>, &'a [Token]), Stop<'a>>
    ensures value { Gives (λ x. reading.done (statement_of x.0) x.1.now) (spec.statement spec.block tokens.now) result }
    ensures shorter { IfOk result (λ x. length x.1.now < length tokens.now) }
    ensures nests { IfOk result (λ x. nesting x.1.now ≤ nesting tokens.now) }
{
    match kind_of(tokens) {
        Some(Kind::Unsigned | Kind::Int) => declared(alloc, tokens),
        Some(Kind::Name) => assigned(alloc, tokens),
        Some(Kind::If) => choice(alloc, tokens),
        Some(Kind::For) => looped(alloc, tokens),
        Some(Kind::Emit) => emitted(alloc, tokens),
        Some(Kind::Return) => returned(alloc, tokens),
        Some(Kind::TransitionTo) => transition(tokens),
        _ => Err(Stop::Syntax(tokens)),
    }
}

#[cycle(block)]
#[tactic(auto, using(crate::proofs::StatementComplete::statement_by_statement), unfolding(crate::specs::Statements::statement_turn))]
fn statements<'a>(
    alloc: Global,
    tokens: &'a [Token],
) -> Result<(Vec<Stmt<Span, Span, Span>>, &'a [Token]), Stop<'a>>
    ensures value { Gives (λ x. reading.done (map statement_of x.0.items) x.1.now)
        (spec.statements spec.block [] tokens.now) result }
    ensures shorter { IfOk result (λ x. length x.1.now ≤ length tokens.now) }
    ensures nests { IfOk result (λ x. nesting x.1.now ≤ nesting tokens.now) }
{
    let mut found = Vec::new(alloc);
    let mut rest = tokens;
    'statements: while begins(kind_of(rest)) {
        let (item, next) = statement(alloc, rest)?;
        found.push(item)?;
        rest = next;
    }
    found.shrink_to_fit();
    Ok((found, rest))
}

/// Statements in braces, and the tokens behind them.
#[cycle(block)]
#[tactic(auto, using(crate::proofs::StatementSame::block_is), unfolding(crate::specs::Statements::braced))]
pub fn block<'a>(
    alloc: Global,
    tokens: &'a [Token],
) -> Result<(Vec<Stmt<Span, Span, Span>>, &'a [Token]), Stop<'a>>
    ensures value { Gives (λ x. reading.done (block_view x.0.items) x.1.now) (spec.block tokens.now) result }
    ensures shorter { IfOk result (λ x. length x.1.now < length tokens.now) }
    ensures nests { IfOk result (λ x. nesting x.1.now ≤ nesting tokens.now) }
{
    let (_, rest) = take(Kind::OpenBrace, tokens)?;
    let (all, rest) = statements(alloc, rest)?;
    let (_, rest) = take(Kind::CloseBrace, rest)?;
    Ok((all, rest))
}
