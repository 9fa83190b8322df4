//! What expressions, statements and functions do.

ghost use Rattle.std.specs.Prelude.{◌≡◌, ◌+◌, ◌-◌, ◌≤◌, ◌<◌, ℕ, List, [], ◌++◌, length, map, take, IfSome, OnSome, Option, None};
ghost use Rattle.std.specs.Prelude.{slice_index, slice_index_or};
ghost use Rattle.std.specs.Option.{option_map};
ghost use Rattle.task_ast.specs.Paths.{CheckedBlock};
ghost use Rattle.task_ast.specs.Tree as tree;
ghost use Rattle.task_ast.specs.View.{expression_of, values_of, statement_of, tested_of, block_view};
ghost use Rattle.source_values.specs.Values.{new_locals, type_of, value_of, words_of, meaning_in};
ghost use Rattle.source_values.specs.Numbers.{number_type};
ghost use Rattle.source_values.specs.Statements.{run_statement, run_choice, run_block, expression_emits, values_emits, statement_emits, conditions_emit};
ghost use Rattle.source_values.specs.Statements.{choice_emits, block_emits};
ghost use Rattle.source_values.specs.declared.statements.End.TheVariants as end;
ghost use Rattle.source_values.specs.View.{attempt_in, evaluated_in, meanings_of, counts_of, waiting_in, placed, placed_words, given_in, leaves, task_of_end};
ghost use Rattle.source_values.specs.View.{word_of_end};
ghost use Rattle.source_values.specs.View.{outcome_of, chosen_outcome, ChosenEmits};

use crate::frame::Frame;
use crate::numbers::{Number, binary_number, number_of, shifted_number, unary_number};
use crate::scratch::Scratch;
use crate::values::{Value, is_settled, sense, truth};
use std::mem;
use task_ast::types::literal_type;
use task_ast::{Args, Arm, Expr, FunctionDeclaration, FunctionName, Stmt, TaskName, VariableName};

/// How statements end: behind the last one, at a transition to a task, or at a `return` with a word.
#[derive(Clone, Copy)]
pub enum End {
    GoesOn,
    ToTask(u32),
    Returns(u16),
}

impl End {
    // Whether what stands behind doesn't run.
    fn leaves(self) -> bool
        ensures { result ≡ leaves self }
    {
        match self {
            End::GoesOn => false,
            End::ToTask(_) | End::Returns(_) => true,
        }
    }

    /// The task of a transition.
    pub fn task(self) -> Option<u32>
        ensures { result ≡ task_of_end self }
    {
        match self {
            End::ToTask(task) => Some(task),
            End::GoesOn | End::Returns(_) => None,
        }
    }

    // The word of a `return`.
    fn word(self) -> Option<u16>
        ensures { result ≡ word_of_end self }
    {
        match self {
            End::Returns(word) => Some(word),
            End::GoesOn | End::ToTask(_) => None,
        }
    }
}

/// What statements leave: how they end, and the readings left.
#[derive(Clone, Copy)]
pub struct Ran<'r> {
    pub end: End,
    pub left: &'r [u16],
}

impl<'r> Ran<'r> {
    fn on(left: &'r [u16]) -> Ran<'r>
        ensures end { result.end ≡ end.GoesOn }
        ensures left { result.left.now ≡ left.now }
    {
        Ran {
            end: End::GoesOn,
            left,
        }
    }
}

/// What the conditions of an `if` leave: the block behind the first that holds ran, or none holds.
#[derive(Clone, Copy)]
pub enum Chosen<'r> {
    Behind(Ran<'r>),
    NoneHolds(&'r [u16]),
}

// The value of an expression over these words and no answers, with its type, where these functions are known. None where the readings
// run out. Calls take the frames, one for each function of a chain.
#[cycle(run)]
fn evaluate<'r>(
    functions: &[FunctionDeclaration<VariableName, TaskName, FunctionName>],
    e: &Expr<VariableName, FunctionName>,
    scratch: &mut Scratch,
    frames: &mut [Frame],
    readings: &'r [u16],
) -> Option<Value<'r>>
    requires frames { length functions.now ≤ length frames.old }
    requires emits { length scratch.old.emitted.items + expression_emits (counts_of functions.now) (expression_of e.now) ≤ 256 }
    ensures value { option_map (evaluated_in scratch.new) result
        ≡ value_of (meanings_of functions.now) (expression_of e.now) (attempt_in scratch.old readings.now) }
    ensures word_type { IfSome result (λ x. number_type x.number ≡ type_of (expression_of e.now)) }
    ensures emitted { OnSome result (length scratch.new.emitted.items
        ≤ length scratch.old.emitted.items + expression_emits (counts_of functions.now) (expression_of e.now)) }
    ensures same_base { scratch.new.shared.base ≡ scratch.old.shared.base }
{
    match e {
        Expr::Number(n) => Some(Value {
            number: number_of(literal_type(*n), *n),
            left: readings,
        }),
        Expr::LongNumber(n) => Some(Value {
            number: Number::Long(*n),
            left: readings,
        }),
        Expr::Name(x) => Some(Value {
            number: scratch.scalar(x),
            left: readings,
        }),
        Expr::Element(x, index) => {
            let i = evaluate(functions, index, scratch, frames, readings)?;
            Some(Value {
                number: number_of(x.word_type, scratch.word(x.variable, i.number.value())),
                left: i.left,
            })
        }
        Expr::Sense => sense(readings),
        // There are no answers: it is 0.
        Expr::NextEvent => Some(Value {
            number: Number::Unsigned(0),
            left: readings,
        }),
        Expr::Call(f, values) => call(functions, f, values, scratch, frames, readings),
        Expr::Unary(op, operand) => {
            let x = evaluate(functions, operand, scratch, frames, readings)?;
            Some(Value {
                number: unary_number(*op, x.number),
                left: x.left,
            })
        }
        Expr::Binary(op, a, b) => {
            let x = evaluate(functions, a, scratch, frames, readings)?;
            let y = evaluate(functions, b, scratch, frames, x.left)?;
            Some(Value {
                number: binary_number(op.operator, x.number, y.number),
                left: y.left,
            })
        }
        Expr::Shift(op, operand, count) => {
            let x = evaluate(functions, operand, scratch, frames, readings)?;
            Some(Value {
                number: shifted_number(*op, x.number, count.value),
                left: x.left,
            })
        }
        Expr::ShortCircuit(op, a, b) => {
            let x = evaluate(functions, a, scratch, frames, readings)?;
            if is_settled(*op, x.number) {
                return Some(truth(x));
            }
            let y = evaluate(functions, b, scratch, frames, x.left)?;
            Some(truth(y))
        }
    }
}

// The value of a call. None where the readings run out, and where the function isn't known.
#[cycle(run)]
fn call<'r>(
    functions: &[FunctionDeclaration<VariableName, TaskName, FunctionName>],
    f: &FunctionName,
    values: &Args<VariableName, FunctionName>,
    scratch: &mut Scratch,
    frames: &mut [Frame],
    readings: &'r [u16],
) -> Option<Value<'r>>
    requires frames { length functions.now ≤ length frames.old }
    requires emits { length scratch.old.emitted.items + expression_emits (counts_of functions.now) (tree.call f.now (values_of values.now)) ≤ 256 }
    ensures value { option_map (evaluated_in scratch.new) result
        ≡ value_of (meanings_of functions.now) (tree.call f.now (values_of values.now)) (attempt_in scratch.old readings.now) }
    ensures word_type { IfSome result (λ x. number_type x.number ≡ f.now.word_type) }
    ensures emitted { OnSome result (length scratch.new.emitted.items
        ≤ length scratch.old.emitted.items + expression_emits (counts_of functions.now) (tree.call f.now (values_of values.now))) }
    ensures same_base { scratch.new.shared.base ≡ scratch.old.shared.base }
{
    let k = f.function as usize;
    if functions.len() <= k {
        return None;
    }
    let left = words(functions, values, 0, scratch, frames, readings)?;
    let (word, left) = run_function(functions, k, scratch, frames, left)?;
    Some(Value {
        number: number_of(f.word_type, word),
        left,
    })
}

// Evaluates the values of a call from left to right, and then puts them into the first frame from a number on, where all else is 0: a
// call among them has taken that frame and given it back. None where the readings run out.
#[cycle(run)]
fn words<'r>(
    functions: &[FunctionDeclaration<VariableName, TaskName, FunctionName>],
    values: &Args<VariableName, FunctionName>,
    from: usize,
    scratch: &mut Scratch,
    frames: &mut [Frame],
    readings: &'r [u16],
) -> Option<&'r [u16]>
    requires frames { length functions.now ≤ length frames.old }
    requires some_frame { 0 < length frames.old }
    requires emits { length scratch.old.emitted.items + values_emits (counts_of functions.now) (values_of values.now) ≤ 256 }
    ensures words { option_map (waiting_in scratch.new frames.new) result
        ≡ option_map (placed_words from) (words_of (meanings_of functions.now) (values_of values.now) (attempt_in scratch.old readings.now)) }
    ensures emitted { OnSome result (length scratch.new.emitted.items
        ≤ length scratch.old.emitted.items + values_emits (counts_of functions.now) (values_of values.now)) }
    ensures same_base { scratch.new.shared.base ≡ scratch.old.shared.base }
{
    match values {
        Args::End => {
            frames[0].clear();
            Some(readings)
        }
        Args::Value(e, more) => {
            let x = evaluate(functions, e, scratch, frames, readings)?;
            let left = words(functions, more, local_behind(from), scratch, frames, x.left)?;
            frames[0].set(from, x.number.word());
            Some(left)
        }
    }
}

// Runs a function whose locals wait in the first frame, and gives its word. None where the readings run out, and where it ends without a
// `return`.
#[cycle(run)]
fn run_function<'r>(
    functions: &[FunctionDeclaration<VariableName, TaskName, FunctionName>],
    k: usize,
    scratch: &mut Scratch,
    frames: &mut [Frame],
    readings: &'r [u16],
) -> Option<(u16, &'r [u16])>
    requires known { k < length functions.now }
    requires frames { length functions.now ≤ length frames.old }
    requires emits { length scratch.old.emitted.items + slice_index (counts_of functions.now) k ≤ 256 }
    ensures value { (words : List ℕ) → slice_index_or frames.old 0 [] ≡ take 256 (words ++ new_locals)
        → option_map (given_in scratch.new) result ≡ meaning_in (meanings_of functions.now) k words (attempt_in scratch.old readings.now) }
    ensures emitted { OnSome result (length scratch.new.emitted.items
        ≤ length scratch.old.emitted.items + slice_index (counts_of functions.now) k) }
    ensures same_base { scratch.new.shared.base ≡ scratch.old.shared.base }
{
    let (own, rest) = frames.split_first_mut()?;
    mem::swap(&mut scratch.locals, own);
    let ran = run_block(&functions[..k], &functions[k].body, scratch, rest, readings);
    mem::swap(own, &mut scratch.locals);
    let ran = ran?;
    let word = ran.end.word()?;
    Some((word, ran.left))
}

// Runs one statement. None where the readings run out.
#[cycle(run)]
fn run_statement<'r>(
    functions: &[FunctionDeclaration<VariableName, TaskName, FunctionName>],
    statement: &Stmt<VariableName, TaskName, FunctionName>,
    scratch: &mut Scratch,
    frames: &mut [Frame],
    readings: &'r [u16],
) -> Option<Ran<'r>>
    requires frames { length functions.now ≤ length frames.old }
    requires emits { length scratch.old.emitted.items + statement_emits (counts_of functions.now) (statement_of statement.now) ≤ 256 }
    ensures outcome { run_statement (meanings_of functions.now) (statement_of statement.now) (attempt_in scratch.old readings.now)
        ≡ outcome_of result scratch.new }
    ensures emitted { OnSome result (length scratch.new.emitted.items
        ≤ length scratch.old.emitted.items + statement_emits (counts_of functions.now) (statement_of statement.now)) }
    ensures same_base { scratch.new.shared.base ≡ scratch.old.shared.base }
{
    match statement {
        Stmt::Declare(_, _, None) => Some(Ran::on(readings)),
        Stmt::Declare(_, x, Some(e)) | Stmt::Assign(x, e) => {
            let value = evaluate(functions, e, scratch, frames, readings)?;
            scratch.assign(x, value.number);
            Some(Ran::on(value.left))
        }
        Stmt::Store(x, index, e) => {
            let i = evaluate(functions, index, scratch, frames, readings)?;
            let value = evaluate(functions, e, scratch, frames, i.left)?;
            scratch.set(x.variable, i.number.value(), value.number.word());
            Some(Ran::on(value.left))
        }
        Stmt::If(arms, last) => match run_arms(functions, arms, scratch, frames, readings)? {
            Chosen::Behind(ran) => Some(ran),
            Chosen::NoneHolds(left) => match last {
                None => Some(Ran::on(left)),
                Some(block) => run_block(functions, block, scratch, frames, left),
            },
        },
        Stmt::For {
            variable,
            from,
            below,
            body,
            ..
        } => {
            let mut left = readings;
            for k in *from..*below {
                scratch.set(variable.variable, 0, k);
                let ran = run_block(functions, body, scratch, frames, left)?;
                if ran.end.leaves() {
                    return Some(ran);
                }
                left = ran.left;
            }
            scratch.set(variable.variable, 0, greater(*from, *below));
            Some(Ran::on(left))
        }
        Stmt::Emit(e) => {
            let value = evaluate(functions, e, scratch, frames, readings)?;
            scratch.emitted.push(value.number.word());
            Some(Ran::on(value.left))
        }
        Stmt::Return(_, e) => {
            let value = evaluate(functions, e, scratch, frames, readings)?;
            Some(Ran {
                end: End::Returns(value.number.word()),
                left: value.left,
            })
        }
        Stmt::TransitionTo(_, t) => Some(Ran {
            end: End::ToTask(t.task),
            left: readings,
        }),
    }
}

// Runs the block behind the first condition that holds, if one does. None where the readings run out.
#[cycle(run)]
fn run_arms<'r>(
    functions: &[FunctionDeclaration<VariableName, TaskName, FunctionName>],
    arms: &[Arm<VariableName, TaskName, FunctionName>],
    scratch: &mut Scratch,
    frames: &mut [Frame],
    readings: &'r [u16],
) -> Option<Chosen<'r>>
    requires frames { length functions.now ≤ length frames.old }
    requires emits { length scratch.old.emitted.items + (conditions_emit (counts_of functions.now) (tree.choice_of (map tested_of arms.now) None)
        + choice_emits (counts_of functions.now) (tree.choice_of (map tested_of arms.now) None)) ≤ 256 }
    ensures outcome { (last : Option CheckedBlock)
        → run_choice (meanings_of functions.now) (tree.choice_of (map tested_of arms.now) last) (attempt_in scratch.old readings.now)
        ≡ chosen_outcome (meanings_of functions.now) result last scratch.new }
    ensures emitted { ChosenEmits result (length scratch.old.emitted.items) (length scratch.new.emitted.items)
        (conditions_emit (counts_of functions.now) (tree.choice_of (map tested_of arms.now) None))
        (choice_emits (counts_of functions.now) (tree.choice_of (map tested_of arms.now) None)) }
    ensures same_base { scratch.new.shared.base ≡ scratch.old.shared.base }
{
    let mut left = readings;
    for arm in arms {
        let x = evaluate(functions, &arm.condition, scratch, frames, left)?;
        if x.number.holds() {
            let ran = run_block(functions, &arm.block, scratch, frames, x.left)?;
            return Some(Chosen::Behind(ran));
        }
        left = x.left;
    }
    Some(Chosen::NoneHolds(left))
}

/// Runs statements up to the first transition or `return`, where these functions are known. None where the readings run out. Calls take
/// the frames, one for each function of a chain.
#[cycle(run)]
pub fn run_block<'r>(
    functions: &[FunctionDeclaration<VariableName, TaskName, FunctionName>],
    body: &[Stmt<VariableName, TaskName, FunctionName>],
    scratch: &mut Scratch,
    frames: &mut [Frame],
    readings: &'r [u16],
) -> Option<Ran<'r>>
    requires frames { length functions.now ≤ length frames.old }
    requires emits { length scratch.old.emitted.items + block_emits (counts_of functions.now) (block_view body.now) ≤ 256 }
    ensures outcome { run_block (meanings_of functions.now) (block_view body.now) (attempt_in scratch.old readings.now) ≡ outcome_of result scratch.new }
    ensures emitted { OnSome result (length scratch.new.emitted.items
        ≤ length scratch.old.emitted.items + block_emits (counts_of functions.now) (block_view body.now)) }
    ensures same_base { scratch.new.shared.base ≡ scratch.old.shared.base }
{
    let mut left = readings;
    for statement in body {
        let ran = run_statement(functions, statement, scratch, frames, left)?;
        if ran.end.leaves() {
            return Some(ran);
        }
        left = ran.left;
    }
    Some(Ran::on(left))
}

// The number behind one of a local; 256 where there is none.
fn local_behind(n: usize) -> usize
    ensures { (words : List ℕ) → placed result words ≡ placed (n + 1) words }
{
    if n < 256 { n + 1 } else { 256 }
}

fn greater(a: u16, b: u16) -> u16
    ensures { result ≡ a + (b - a) }
{
    if a < b { b } else { a }
}
