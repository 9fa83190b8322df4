//! Expressions.

ghost use Rattle.std.specs.Prelude.{◌≡◌, ◌+◌, ◌-◌, ◌≤◌, ◌<◌, length, drop, IfOk, IfSome};
ghost use Rattle.task_ast.specs.Tree as node;
ghost use Rattle.task_ast.specs.View.{expression_of, values_of};
ghost use Rattle.task_grammar.specs.Grammar as grammar;
ghost use Rattle.task_grammar.specs.Reading as reading;
ghost use Rattle.task_grammar.specs.Expressions as spec;
ghost use Rattle.task_grammar.specs.Gives.{Gives};
ghost use Rattle.task_grammar.specs.Nesting.{nesting, row_length};

use crate::fault::Stop;
use crate::operators::{Infix, infix_at, prefix_of};
use crate::tokens::{after, kind_of, long_worth, place_of, take};
use alp_text::Span;
use std::alloc::{AllocError, Global};
use task_ast::{
    Args, Expr, Literal, PlacedOperator, ShiftOperator, ShortCircuitOperator, UnaryOperator,
};
use task_lex::{Kind, Token};

// The precedence of the operators that bind least.
const WEAKEST: u8 = 10;

fn element_node(
    alloc: Global,
    name: Token,
    index: Expr<Span, Span>,
) -> Result<Expr<Span, Span>, AllocError>
    ensures { IfOk result (λ e. expression_of e ≡ node.element name.span (expression_of index)) }
{
    Ok(Expr::Element(name.span, Box::new(alloc, index)?))
}

// A value in front of further ones.
fn value_node(
    alloc: Global,
    first: Expr<Span, Span>,
    more: Args<Span, Span>,
) -> Result<Args<Span, Span>, AllocError>
    ensures { IfOk result (λ v. values_of v ≡ node.value (expression_of first) (values_of more)) }
{
    Ok(Args::Value(Box::new(alloc, first)?, Box::new(alloc, more)?))
}

fn unary_node(
    alloc: Global,
    op: UnaryOperator,
    inner: Expr<Span, Span>,
) -> Result<Expr<Span, Span>, AllocError>
    ensures { IfOk result (λ e. expression_of e ≡ node.unary op (expression_of inner)) }
{
    Ok(Expr::Unary(op, Box::new(alloc, inner)?))
}

fn binary_node(
    alloc: Global,
    op: PlacedOperator,
    left: Expr<Span, Span>,
    right: Expr<Span, Span>,
) -> Result<Expr<Span, Span>, AllocError>
    ensures { IfOk result (λ e. expression_of e ≡ node.binary op (expression_of left) (expression_of right)) }
{
    Ok(Expr::Binary(op, Box::new(alloc, left)?, Box::new(alloc, right)?))
}

fn short_circuit_node(
    alloc: Global,
    op: ShortCircuitOperator,
    left: Expr<Span, Span>,
    right: Expr<Span, Span>,
) -> Result<Expr<Span, Span>, AllocError>
    ensures { IfOk result (λ e. expression_of e ≡ node.short_circuit op (expression_of left) (expression_of right)) }
{
    Ok(Expr::ShortCircuit(op, Box::new(alloc, left)?, Box::new(alloc, right)?))
}

fn shift_node(
    alloc: Global,
    op: ShiftOperator,
    left: Expr<Span, Span>,
    count: Literal,
) -> Result<Expr<Span, Span>, AllocError>
    ensures { IfOk result (λ e. expression_of e ≡ node.shift op (expression_of left) count) }
{
    Ok(Expr::Shift(op, Box::new(alloc, left)?, count))
}

#[tactic(auto, using(crate::proofs::Nesting::nests_behind_prefix, crate::proofs::Nesting::row_behind_prefix))]
fn prefix_in_front(tokens: &[Token]) -> Option<UnaryOperator>
    ensures value { result ≡ reading.meaning grammar.prefix_of (reading.kind_of tokens.now) }
    ensures nests { IfSome result (λ op. nesting (drop 1 tokens.now) ≡ nesting tokens.now) }
    ensures row { IfSome result (λ op. row_length tokens.now ≡ row_length (drop 1 tokens.now) + 1) }
{
    match kind_of(tokens) {
        Some(kind) => prefix_of(kind),
        None => None,
    }
}

// An operand with the operators in front of it.
#[cycle(expression)]
#[tactic(auto, using(crate::proofs::ExpressionSame::unary_is), unfolding(crate::specs::Expressions::prefixed))]
fn unary<'a>(
    alloc: Global,
    tokens: &'a [Token],
) -> Result<(Expr<Span, Span>, &'a [Token]), Stop<'a>>
    ensures value { Gives (λ x. reading.done (expression_of x.0) x.1.now) (spec.unary tokens.now) result }
    ensures shorter { IfOk result (λ x. length x.1.now < length tokens.now) }
    ensures nests { IfOk result (λ x. nesting x.1.now ≤ nesting tokens.now) }
    ensures row { IfOk result (λ x. row_length x.1.now ≤ row_length tokens.now) }
{
    match prefix_in_front(tokens) {
        Some(op) => {
            let (inner, rest) = unary(alloc, after(tokens))?;
            Ok((unary_node(alloc, op, inner)?, rest))
        }
        None => primary(alloc, tokens),
    }
}

// A number.
#[tactic(auto, unfolding(crate::specs::Expressions::number))]
fn number<'a>(tokens: &'a [Token]) -> Result<(Expr<Span, Span>, &'a [Token]), Stop<'a>>
    ensures value { Gives (λ x. reading.done (expression_of x.0) x.1.now) (spec.number tokens.now) result }
    ensures shorter { IfOk result (λ x. length x.1.now < length tokens.now) }
    ensures nests { IfOk result (λ x. nesting x.1.now ≤ nesting tokens.now) }
    ensures row { IfOk result (λ x. row_length x.1.now ≤ row_length tokens.now) }
{
    let (number, rest) = take(Kind::Number, tokens)?;
    Ok((Expr::Number(number.value), rest))
}

// A number of two words.
#[tactic(auto, unfolding(crate::specs::Expressions::long_number))]
fn long_number<'a>(tokens: &'a [Token]) -> Result<(Expr<Span, Span>, &'a [Token]), Stop<'a>>
    ensures value { Gives (λ x. reading.done (expression_of x.0) x.1.now) (spec.long_number tokens.now) result }
    ensures shorter { IfOk result (λ x. length x.1.now < length tokens.now) }
    ensures nests { IfOk result (λ x. nesting x.1.now ≤ nesting tokens.now) }
    ensures row { IfOk result (λ x. row_length x.1.now ≤ row_length tokens.now) }
{
    let (number, rest) = take(Kind::LongNumber, tokens)?;
    Ok((Expr::LongNumber(long_worth(number)), rest))
}

// `sense()`
#[tactic(auto, unfolding(crate::specs::Expressions::sense))]
fn sensed<'a>(tokens: &'a [Token]) -> Result<(Expr<Span, Span>, &'a [Token]), Stop<'a>>
    ensures value { Gives (λ x. reading.done (expression_of x.0) x.1.now) (spec.sense tokens.now) result }
    ensures shorter { IfOk result (λ x. length x.1.now < length tokens.now) }
    ensures nests { IfOk result (λ x. nesting x.1.now ≤ nesting tokens.now) }
    ensures row { IfOk result (λ x. row_length x.1.now ≤ row_length tokens.now) }
{
    let (_, rest) = take(Kind::Sense, tokens)?;
    let (_, rest) = take(Kind::Open, rest)?;
    let (_, rest) = take(Kind::Close, rest)?;
    Ok((Expr::Sense, rest))
}

// `next_event()`
#[tactic(auto, unfolding(crate::specs::Expressions::next_event))]
fn next_event<'a>(tokens: &'a [Token]) -> Result<(Expr<Span, Span>, &'a [Token]), Stop<'a>>
    ensures value { Gives (λ x. reading.done (expression_of x.0) x.1.now) (spec.next_event tokens.now) result }
    ensures shorter { IfOk result (λ x. length x.1.now < length tokens.now) }
    ensures nests { IfOk result (λ x. nesting x.1.now ≤ nesting tokens.now) }
    ensures row { IfOk result (λ x. row_length x.1.now ≤ row_length tokens.now) }
{
    let (_, rest) = take(Kind::NextEvent, tokens)?;
    let (_, rest) = take(Kind::Open, rest)?;
    let (_, rest) = take(Kind::Close, rest)?;
    Ok((Expr::NextEvent, rest))
}

// A number, a name with an index, with values or alone, `sense()`, `next_event()`, or an expression in brackets.
#[cycle(expression)]
#[tactic(auto, unfolding(crate::specs::Expressions::primary, crate::specs::Expressions::bracketed))]
fn primary<'a>(
    alloc: Global,
    tokens: &'a [Token],
) -> Result<(Expr<Span, Span>, &'a [Token]), Stop<'a>>
    ensures value { Gives (λ x. reading.done (expression_of x.0) x.1.now)
        (spec.primary spec.expression tokens.now) result }
    ensures shorter { IfOk result (λ x. length x.1.now < length tokens.now) }
    ensures nests { IfOk result (λ x. nesting x.1.now ≤ nesting tokens.now) }
    ensures row { IfOk result (λ x. row_length x.1.now ≤ row_length tokens.now) }
{
    match kind_of(tokens) {
        Some(Kind::Number) => number(tokens),
        Some(Kind::LongNumber) => long_number(tokens),
        Some(Kind::Name) => named(alloc, tokens),
        Some(Kind::Sense) => sensed(tokens),
        Some(Kind::NextEvent) => next_event(tokens),
        Some(Kind::Open) => {
            let (_, rest) = take(Kind::Open, tokens)?;
            let (inner, rest) = up_to(alloc, WEAKEST, rest)?;
            let (_, rest) = take(Kind::Close, rest)?;
            Ok((inner, rest))
        }
        _ => Err(Stop::Syntax(tokens)),
    }
}

#[cycle(expression)]
#[tactic(auto, unfolding(crate::specs::Expressions::named))]
fn named<'a>(
    alloc: Global,
    tokens: &'a [Token],
) -> Result<(Expr<Span, Span>, &'a [Token]), Stop<'a>>
    ensures value { Gives (λ x. reading.done (expression_of x.0) x.1.now)
        (spec.named spec.expression tokens.now) result }
    ensures shorter { IfOk result (λ x. length x.1.now < length tokens.now) }
    ensures nests { IfOk result (λ x. nesting x.1.now ≤ nesting tokens.now) }
    ensures row { IfOk result (λ x. row_length x.1.now ≤ row_length tokens.now) }
{
    let (name, rest) = take(Kind::Name, tokens)?;
    match kind_of(rest) {
        Some(Kind::OpenSquare) => {
            let (_, rest) = take(Kind::OpenSquare, rest)?;
            let (index, rest) = up_to(alloc, WEAKEST, rest)?;
            let (_, rest) = take(Kind::CloseSquare, rest)?;
            Ok((element_node(alloc, name, index)?, rest))
        }
        Some(Kind::Open) => {
            let (_, rest) = take(Kind::Open, rest)?;
            let (given, rest) = values(alloc, rest)?;
            let (_, rest) = take(Kind::Close, rest)?;
            Ok((Expr::Call(name.span, given), rest))
        }
        _ => Ok((Expr::Name(name.span), rest)),
    }
}

// What stands between the brackets of a call.
#[cycle(expression)]
#[tactic(auto, unfolding(crate::specs::Expressions::values))]
fn values<'a>(
    alloc: Global,
    tokens: &'a [Token],
) -> Result<(Args<Span, Span>, &'a [Token]), Stop<'a>>
    ensures value { Gives (λ x. reading.done (values_of x.0) x.1.now)
        (spec.values spec.expression tokens.now) result }
    ensures shorter { IfOk result (λ x. length x.1.now ≤ length tokens.now) }
    ensures nests { IfOk result (λ x. nesting x.1.now ≤ nesting tokens.now) }
    ensures row { IfOk result (λ x. row_length x.1.now ≤ row_length tokens.now) }
{
    match kind_of(tokens) {
        Some(Kind::Close) => Ok((Args::End, tokens)),
        _ => {
            let (first, rest) = up_to(alloc, WEAKEST, tokens)?;
            let (more, rest) = more_values(alloc, rest)?;
            Ok((value_node(alloc, first, more)?, rest))
        }
    }
}

// Further values of a call, each behind a comma.
#[cycle(expression)]
#[tactic(auto, using(crate::proofs::ExpressionSame::more_values_is))]
fn more_values<'a>(
    alloc: Global,
    tokens: &'a [Token],
) -> Result<(Args<Span, Span>, &'a [Token]), Stop<'a>>
    ensures value { Gives (λ x. reading.done (values_of x.0) x.1.now)
        (spec.more_values spec.expression tokens.now) result }
    ensures shorter { IfOk result (λ x. length x.1.now ≤ length tokens.now) }
    ensures nests { IfOk result (λ x. nesting x.1.now ≤ nesting tokens.now) }
    ensures row { IfOk result (λ x. row_length x.1.now ≤ row_length tokens.now) }
{
    match kind_of(tokens) {
        Some(Kind::Comma) => {
            let (_, rest) = take(Kind::Comma, tokens)?;
            let (next, rest) = up_to(alloc, WEAKEST, rest)?;
            let (more, rest) = more_values(alloc, rest)?;
            Ok((value_node(alloc, next, more)?, rest))
        }
        _ => Ok((Args::End, tokens)),
    }
}

// An expression whose operators outside brackets are of the precedence or tighter.
#[cycle(expression)]
#[tactic(auto, unfolding(crate::specs::Expressions::climb_turn), using(crate::proofs::ExpressionSame::up_to_is))]
fn up_to<'a>(
    alloc: Global,
    precedence: u8,
    tokens: &'a [Token],
) -> Result<(Expr<Span, Span>, &'a [Token]), Stop<'a>>
    requires { precedence ≤ 10 }
    ensures value { Gives (λ x. reading.done (expression_of x.0) x.1.now)
        (spec.up_to spec.unary precedence tokens.now) result }
    ensures shorter { IfOk result (λ x. length x.1.now < length tokens.now) }
    ensures nests { IfOk result (λ x. nesting x.1.now ≤ nesting tokens.now) }
    ensures row { IfOk result (λ x. row_length x.1.now ≤ row_length tokens.now) }
{
    if precedence == 0 {
        return unary(alloc, tokens);
    }
    let (mut left, mut rest) = up_to(alloc, precedence - 1, tokens)?;
    'operators: while let Some(op) = operator_in_front(precedence, rest) {
        let place = place_of(rest);
        let (whole, next) = joined(alloc, precedence, left, place, op, after(rest))?;
        left = whole;
        rest = next;
    }
    Ok((left, rest))
}

fn operator_in_front(precedence: u8, tokens: &[Token]) -> Option<Infix>
    ensures value { result ≡ reading.meaning (spec.infix_at precedence) (reading.kind_of tokens.now) }
    ensures nests { IfSome result (λ op. nesting (drop 1 tokens.now) ≡ nesting tokens.now) }
    ensures row { IfSome result (λ op. row_length tokens.now ≡ row_length (drop 1 tokens.now) + 1) }
{
    match kind_of(tokens) {
        Some(kind) => infix_at(precedence, kind),
        None => None,
    }
}

// The right side of an operator, a number for a shift, put together with the left one.
#[cycle(expression)]
fn joined<'a>(
    alloc: Global,
    precedence: u8,
    left: Expr<Span, Span>,
    place: Span,
    op: Infix,
    tokens: &'a [Token],
) -> Result<(Expr<Span, Span>, &'a [Token]), Stop<'a>>
    requires some { 0 < precedence }
    requires most { precedence ≤ 10 }
    ensures value { Gives (λ x. reading.done (expression_of x.0) x.1.now)
        (spec.joined_with (spec.up_to spec.unary (precedence - 1)) (expression_of left) place op tokens.now) result }
    ensures shorter { IfOk result (λ x. length x.1.now < length tokens.now) }
    ensures nests { IfOk result (λ x. nesting x.1.now ≤ nesting tokens.now) }
    ensures row { IfOk result (λ x. row_length x.1.now ≤ row_length tokens.now) }
{
    match op {
        Infix::Binary(op) => {
            let (right, rest) = up_to(alloc, precedence - 1, tokens)?;
            let op = PlacedOperator {
                operator: op,
                span: place,
            };
            Ok((binary_node(alloc, op, left, right)?, rest))
        }
        Infix::ShortCircuit(op) => {
            let (right, rest) = up_to(alloc, precedence - 1, tokens)?;
            Ok((short_circuit_node(alloc, op, left, right)?, rest))
        }
        Infix::Shift(op) => {
            let (number, rest) = take(Kind::Number, tokens)?;
            let count = Literal {
                value: number.value,
                span: number.span,
            };
            Ok((shift_node(alloc, op, left, count)?, rest))
        }
    }
}

/// An expression, and the tokens behind it.
pub fn expression<'a>(
    alloc: Global,
    tokens: &'a [Token],
) -> Result<(Expr<Span, Span>, &'a [Token]), Stop<'a>>
    ensures value { Gives (λ x. reading.done (expression_of x.0) x.1.now) (spec.expression tokens.now) result }
    ensures shorter { IfOk result (λ x. length x.1.now < length tokens.now) }
    ensures nests { IfOk result (λ x. nesting x.1.now ≤ nesting tokens.now) }
{
    up_to(alloc, WEAKEST, tokens)
}
