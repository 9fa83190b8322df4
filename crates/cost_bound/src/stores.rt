//! How often a task stores to each shared array.
ghost use Rattle.std.specs.Prelude.{◌≡◌, ◌<◌, ◌+◌, ◌*◌, ℕ, List, [], map, Option, max, slice_index, if◌then◌else◌};
ghost use Rattle.task_ast.specs.Tree.{choice_of};
ghost use Rattle.task_ast.specs.Paths.{CheckedBlock};
ghost use Rattle.task_ast.specs.View.{expression_of, values_of, statement_of, tested_of, block_view};
ghost use Rattle.cost_bound.specs.Counts.{is_shared, is_store_to, called_stores, expression_count, values_count, conditions_count};
ghost use Rattle.cost_bound.specs.Counts.{statement_count, choice_count, block_count};
ghost use Rattle.cost_bound.specs.Rooms.{AreCapped, HaveGrown};
ghost use Rattle.cost_bound.specs.Machine.{known_of};

use crate::SHARED;
use crate::function_summaries::FunctionSummary;
use task_ast::{Args, Arm, Expr, FunctionName, Stmt, TaskName, Variable, VariableName};

fn count_store(name: &VariableName, counts: &mut [u64; SHARED])
    ensures { HaveGrown counts.old counts.new (λ i. if is_shared i name.now.variable then 1 else 0) }
{
    if let Variable::Shared(number) = name.variable {
        let number = number as usize;
        if number < SHARED {
            counts[number] = counts[number].saturating_add(1);
        }
    }
}

// Adds so many turns, each of which stores so often.
fn add_turns(counts: &mut [u64; SHARED], turns: u16, turn: &[u64; SHARED])
    ensures { HaveGrown counts.old counts.new (λ i. turns * slice_index turn.now i) }
{
    for i in 0..SHARED {
        counts[i] = counts[i].saturating_add((turns as u64).saturating_mul(turn[i]));
    }
}

// The greater of the two counts for each array.
fn raise(counts: &mut [u64; SHARED], other: &[u64; SHARED])
    ensures { (i : ℕ) → i < 256
        → slice_index counts.new i ≡ max (slice_index other.now i) (slice_index counts.old i) }
{
    for i in 0..SHARED {
        counts[i] = other[i].max(counts[i]);
    }
}

// Adds what a call of the function counts: nothing, where there is no such function.
fn count_call(functions: &[FunctionSummary], name: &FunctionName, counts: &mut [u64; SHARED])
    ensures { HaveGrown counts.old counts.new (λ i. slice_index (called_stores (known_of functions.now) i) name.now.function) }
{
    let number = name.function as usize;
    if number < functions.len() {
        add_turns(counts, 1, &functions[number].stores);
    }
}

// Adds what the calls of the expression count.
#[cycle(expressions)]
fn count_in_expression(
    functions: &[FunctionSummary],
    e: &Expr<VariableName, FunctionName>,
    counts: &mut [u64; SHARED],
)
    ensures { HaveGrown counts.old counts.new (λ i. expression_count (called_stores (known_of functions.now) i) (expression_of e.now)) }
{
    match e {
        Expr::Number(_) | Expr::LongNumber(_) | Expr::Name(_) | Expr::Sense | Expr::NextEvent => {}
        Expr::Call(name, values) => {
            count_in_values(functions, values, counts);
            count_call(functions, name, counts);
        }
        Expr::Element(_, inner) | Expr::Unary(_, inner) | Expr::Shift(_, inner, _) => {
            count_in_expression(functions, inner, counts)
        }
        Expr::Binary(_, a, b) | Expr::ShortCircuit(_, a, b) => {
            count_in_expression(functions, a, counts);
            count_in_expression(functions, b, counts);
        }
    }
}

#[cycle(expressions)]
fn count_in_values(
    functions: &[FunctionSummary],
    values: &Args<VariableName, FunctionName>,
    counts: &mut [u64; SHARED],
)
    ensures { HaveGrown counts.old counts.new (λ i. values_count (called_stores (known_of functions.now) i) (values_of values.now)) }
{
    match values {
        Args::End => {}
        Args::Value(e, more) => {
            count_in_expression(functions, e, counts);
            count_in_values(functions, more, counts);
        }
    }
}

// Adds what the calls in the conditions count.
fn count_in_conditions(
    functions: &[FunctionSummary],
    arms: &[Arm<VariableName, TaskName, FunctionName>],
    counts: &mut [u64; SHARED],
)
    ensures { (last : Option CheckedBlock)
        → HaveGrown counts.old counts.new
        (λ i. conditions_count (called_stores (known_of functions.now) i) (choice_of (map tested_of arms.now) last)) }
{
    for i in (0..arms.len()).rev() {
        count_in_expression(functions, &arms[i].condition, counts);
    }
}

#[cycle(stores)]
fn count_in_statement(
    functions: &[FunctionSummary],
    s: &Stmt<VariableName, TaskName, FunctionName>,
    counts: &mut [u64; SHARED],
)
    ensures { HaveGrown counts.old counts.new
        (λ i. statement_count (called_stores (known_of functions.now) i) (is_store_to i) (statement_of s.now)) }
{
    match s {
        Stmt::Declare(_, _, None) | Stmt::TransitionTo(_, _) => {}
        Stmt::Declare(_, _, Some(value))
        | Stmt::Assign(_, value)
        | Stmt::Emit(value)
        | Stmt::Return(_, value) => count_in_expression(functions, value, counts),
        Stmt::Store(name, index, value) => {
            count_in_expression(functions, index, counts);
            count_in_expression(functions, value, counts);
            count_store(name, counts);
        }
        Stmt::If(arms, last) => {
            count_in_conditions(functions, arms, counts);
            match last {
                None => count_in_choice(functions, arms, [0; SHARED], counts),
                Some(block) => {
                    let last = store_counts(functions, block);
                    count_in_choice(functions, arms, last, counts);
                }
            }
        }
        Stmt::For {
            from,
            below,
            body,
            ..
        } => {
            let turn = store_counts(functions, body);
            add_turns(counts, below.saturating_sub(*from), &turn);
        }
    }
}

// Adds the stores of the arm that stores most to each array; the last block's are the greatest so far.
#[cycle(stores)]
fn count_in_choice(
    functions: &[FunctionSummary],
    arms: &[Arm<VariableName, TaskName, FunctionName>],
    last: [u64; SHARED],
    counts: &mut [u64; SHARED],
)
    ensures { (b : Option CheckedBlock)
        → AreCapped last (λ i. choice_count (called_stores (known_of functions.now) i) (is_store_to i) (choice_of [] b))
        → HaveGrown counts.old counts.new
        (λ i. choice_count (called_stores (known_of functions.now) i) (is_store_to i) (choice_of (map tested_of arms.now) b)) }
{
    let mut greatest = last;
    for i in (0..arms.len()).rev() {
        let here = store_counts(functions, &arms[i].block);
        raise(&mut greatest, &here);
    }
    add_turns(counts, 1, &greatest);
}

/// How often the block may store to each shared array, by the array's number; 2^64 - 1 where it is more.
#[cycle(stores)]
#[tactic(auto, using(crate::proofs::Walks::none_counted))]
pub fn store_counts(
    functions: &[FunctionSummary],
    body: &[Stmt<VariableName, TaskName, FunctionName>],
) -> [u64; SHARED]
    ensures { AreCapped result (λ i. block_count (called_stores (known_of functions.now) i) (is_store_to i) (block_view body.now)) }
{
    let mut counts = [0; SHARED];
    for i in (0..body.len()).rev() {
        count_in_statement(functions, &body[i], &mut counts);
    }
    counts
}
