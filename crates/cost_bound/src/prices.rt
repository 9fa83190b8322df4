//! The table of prices, one column at a time.
ghost use Rattle.std.specs.Prelude.{◌≡◌, ◌≤◌, ◌+◌, ◌*◌, ℕ, [], map, Option};
ghost use Rattle.task_ast.specs.Tree.{choice_of, choose};
ghost use Rattle.task_ast.specs.Paths.{CheckedBlock};
ghost use Rattle.task_ast.specs.View.{expression_of, values_of, statement_of, tested_of, block_view};
ghost use Rattle.task_ast.specs.Types.{by_width, type_of};
ghost use Rattle.cost_bound.specs.Table.{capped, body_price, called_price, operator_price, expression_price, values_price, statement_price, block_price};
ghost use Rattle.cost_bound.specs.Table.{conditions_price, blocks_price, blocks_together, turns_together, words_column};
ghost use Rattle.cost_bound.specs.Machine.{summary_of, known_of};

use crate::function_summaries::FunctionSummary;
use task_ast::types::{binary_type, joined_type, literal_type, unary_type};
use task_ast::{
    Args, Arm, BinaryOperator, Expr, FunctionName, Stmt, TaskName, VariableName, WordType,
};

/// What a column counts of a function's body at each call of the function.
#[derive(Clone, Copy)]
pub enum Body {
    Cycles,
    Emits,
    /// The body stands elsewhere, and counts there.
    Nothing,
}

/// One column of the table of prices: what each kind of node costs, its parts aside.
#[derive(Clone, Copy)]
pub struct Column {
    /// A number, a scalar, a reading.
    pub leaf: u64,
    /// `next_event()`.
    pub next_event: u64,
    /// An operator without a row of its own.
    pub operator: u64,
    /// What of these is long or has a long part.
    pub long: u64,
    pub shift: u64,
    /// A shift of a long.
    pub long_shift: u64,
    pub multiply: u64,
    /// `/` and `%`.
    pub divide: u64,
    /// An element of an array that is read.
    pub element: u64,
    /// A call.
    pub call: u64,
    /// Each value of a call.
    pub call_value: u64,
    /// The body of the function that is called.
    pub body: Body,
    /// A declaration with a value, an assignment to a scalar, a `return`.
    pub assign: u64,
    /// An assignment to a long.
    pub long_assign: u64,
    /// An assignment to an element of an array.
    pub store: u64,
    pub emit: u64,
    pub transition: u64,
    pub choose: u64,
    /// Each condition of an `if`.
    pub condition: u64,
    /// What a long condition costs more.
    pub long_condition: u64,
    /// All blocks of an `if` count, or else the greatest.
    pub all_blocks: bool,
    pub repeat: u64,
    /// Each turn of a `for`.
    pub turn: u64,
    /// Each turn of a `for` counts, or else one.
    pub each_turn: bool,
}

pub fn plus(a: u64, b: u64) -> u64
    ensures { result ≡ capped (a + b) }
{
    a.saturating_add(b)
}

pub fn times(n: u16, a: u64) -> u64
    ensures { result ≡ capped (n * a) }
{
    (n as u64).saturating_mul(a)
}

fn blocks_together(column: &Column, a: u64, b: u64) -> u64
    ensures { result ≡ capped (blocks_together column.now a b) }
{
    if column.all_blocks {
        plus(a, b)
    } else {
        plus(a.max(b), 0)
    }
}

fn turns_together(column: &Column, turns: u16, turn: u64) -> u64
    ensures { result ≡ capped (turns_together column.now turns turn) }
{
    if column.each_turn {
        times(turns, turn)
    } else {
        plus(turn, 0)
    }
}

// One of two prices, by the width of a type.
fn by_width(word_type: WordType, one: u64, two: u64) -> u64
    ensures { result ≡ by_width word_type one two }
{
    match word_type {
        WordType::Long => two,
        WordType::Int | WordType::Unsigned => one,
    }
}

fn operator_price(column: &Column, op: BinaryOperator, operands: WordType) -> u64
    ensures { result ≡ operator_price column.now op operands }
{
    match op {
        BinaryOperator::Multiply => column.multiply,
        BinaryOperator::Divide | BinaryOperator::Remainder => column.divide,
        BinaryOperator::Add
        | BinaryOperator::Subtract
        | BinaryOperator::Less
        | BinaryOperator::LessEqual
        | BinaryOperator::Greater
        | BinaryOperator::GreaterEqual
        | BinaryOperator::Equal
        | BinaryOperator::NotEqual
        | BinaryOperator::And
        | BinaryOperator::Xor
        | BinaryOperator::Or => by_width(operands, column.operator, column.long),
    }
}

fn body_price(body: Body, function: &FunctionSummary) -> u64
    ensures { result ≡ body_price body (summary_of function.now) }
{
    match body {
        Body::Cycles => function.cycles,
        Body::Emits => function.emits,
        Body::Nothing => 0,
    }
}

// What the body of a function costs at a call of it: nothing, where there is no such function.
fn called_price(functions: &[FunctionSummary], column: &Column, number: u32) -> u64
    ensures { result ≡ called_price (known_of functions.now) column.now number }
{
    let number = number as usize;
    if number < functions.len() {
        body_price(column.body, &functions[number])
    } else {
        0
    }
}

// What an expression costs in a column, and its type, which its parts' types tell on the way.
#[cycle(expressions)]
fn priced(
    functions: &[FunctionSummary],
    column: &Column,
    e: &Expr<VariableName, FunctionName>,
) -> (u64, WordType)
    ensures price { result.0 ≡ capped (expression_price (known_of functions.now) column.now (expression_of e.now)) }
    ensures typed { result.1 ≡ type_of (expression_of e.now) }
{
    match e {
        Expr::Number(n) => (plus(column.leaf, 0), literal_type(*n)),
        Expr::LongNumber(_) => (plus(column.long, 0), WordType::Long),
        Expr::Name(x) => {
            let price = by_width(x.word_type, column.leaf, column.long);
            (plus(price, 0), x.word_type)
        }
        Expr::Element(x, index) => {
            let (index, _) = priced(functions, column, index);
            (plus(column.element, index), x.word_type)
        }
        Expr::Sense => (plus(column.leaf, 0), WordType::Unsigned),
        Expr::NextEvent => (plus(column.next_event, 0), WordType::Unsigned),
        Expr::Call(function, values) => {
            let given = values_price(functions, column, values);
            let body = called_price(functions, column, function.function);
            (plus(column.call, plus(given, body)), function.word_type)
        }
        Expr::Unary(op, inner) => {
            let (price, of) = priced(functions, column, inner);
            let own = by_width(of, column.operator, column.long);
            (plus(own, price), unary_type(*op, of))
        }
        Expr::Binary(op, a, b) => {
            let (left, of) = priced(functions, column, a);
            let (right, with) = priced(functions, column, b);
            let own = operator_price(column, op.operator, joined_type(of, with));
            let word_type = binary_type(op.operator, of, with);
            (plus(own, plus(left, right)), word_type)
        }
        Expr::Shift(_, left, _) => {
            let (price, of) = priced(functions, column, left);
            let own = by_width(of, column.shift, column.long_shift);
            (plus(own, price), of)
        }
        Expr::ShortCircuit(_, a, b) => {
            let (left, of) = priced(functions, column, a);
            let (right, with) = priced(functions, column, b);
            let own = by_width(joined_type(of, with), column.operator, column.long);
            (plus(own, plus(left, right)), WordType::Int)
        }
    }
}

#[cycle(expressions)]
fn values_price(
    functions: &[FunctionSummary],
    column: &Column,
    values: &Args<VariableName, FunctionName>,
) -> u64
    ensures { result ≡ capped (values_price (known_of functions.now) column.now (values_of values.now)) }
{
    match values {
        Args::End => 0,
        Args::Value(e, more) => {
            let (price, _) = priced(functions, column, e);
            let rest = values_price(functions, column, more);
            plus(column.call_value, plus(price, rest))
        }
    }
}

/// What an expression costs in a column; 2^64 - 1 where it is more.
pub fn expression_price(
    functions: &[FunctionSummary],
    column: &Column,
    e: &Expr<VariableName, FunctionName>,
) -> u64
    ensures { result ≡ capped (expression_price (known_of functions.now) column.now (expression_of e.now)) }
{
    priced(functions, column, e).0
}

#[cycle(prices)]
fn statement_price(
    functions: &[FunctionSummary],
    column: &Column,
    s: &Stmt<VariableName, TaskName, FunctionName>,
) -> u64
    ensures { result ≡ capped (statement_price (known_of functions.now) column.now (statement_of s.now)) }
{
    match s {
        Stmt::Declare(_, _, None) => 0,
        Stmt::Declare(_, _, Some(value)) => plus(
            column.assign,
            expression_price(functions, column, value),
        ),
        Stmt::Assign(x, value) => plus(
            by_width(x.word_type, column.assign, column.long_assign),
            expression_price(functions, column, value),
        ),
        Stmt::Store(_, index, value) => plus(
            column.store,
            plus(
                expression_price(functions, column, index),
                expression_price(functions, column, value),
            ),
        ),
        Stmt::If(arms, None) => choice_price(functions, column, arms, 0),
        Stmt::If(arms, Some(last)) => {
            let last = block_price(functions, column, last);
            choice_price(functions, column, arms, last)
        }
        Stmt::For {
            from,
            below,
            body,
            ..
        } => {
            let turn = plus(column.turn, block_price(functions, column, body));
            plus(
                column.repeat,
                turns_together(column, below.saturating_sub(*from), turn),
            )
        }
        Stmt::Emit(value) => plus(column.emit, expression_price(functions, column, value)),
        Stmt::Return(_, value) => plus(column.assign, expression_price(functions, column, value)),
        Stmt::TransitionTo(_, _) => plus(column.transition, 0),
    }
}

// An `if`, of which the last block costs so much.
#[cycle(prices)]
fn choice_price(
    functions: &[FunctionSummary],
    column: &Column,
    arms: &[Arm<VariableName, TaskName, FunctionName>],
    last: u64,
) -> u64
    ensures { (b : Option CheckedBlock)
        → last ≡ capped (blocks_price (known_of functions.now) column.now (choice_of [] b))
        → result ≡ capped (statement_price (known_of functions.now) column.now (choose (choice_of (map tested_of arms.now) b))) }
{
    plus(
        column.choose,
        plus(
            conditions_price(functions, column, arms),
            blocks_price(functions, column, arms, last),
        ),
    )
}

fn conditions_price(
    functions: &[FunctionSummary],
    column: &Column,
    arms: &[Arm<VariableName, TaskName, FunctionName>],
) -> u64
    ensures { (last : Option CheckedBlock)
        → result ≡ capped (conditions_price (known_of functions.now) column.now (choice_of (map tested_of arms.now) last)) }
{
    let mut n = 0;
    for i in (0..arms.len()).rev() {
        let (price, of) = priced(functions, column, &arms[i].condition);
        let own = plus(column.condition, by_width(of, 0, column.long_condition));
        n = plus(plus(own, price), n);
    }
    n
}

// The blocks of an `if`, of which the last one costs so much.
#[cycle(prices)]
fn blocks_price(
    functions: &[FunctionSummary],
    column: &Column,
    arms: &[Arm<VariableName, TaskName, FunctionName>],
    last: u64,
) -> u64
    ensures { (b : Option CheckedBlock)
        → last ≡ capped (blocks_price (known_of functions.now) column.now (choice_of [] b))
        → result ≡ capped (blocks_price (known_of functions.now) column.now (choice_of (map tested_of arms.now) b)) }
{
    let mut n = last;
    for i in (0..arms.len()).rev() {
        n = blocks_together(column, block_price(functions, column, &arms[i].block), n);
    }
    n
}

/// What a block costs in a column; 2^64 - 1 where it is more.
#[cycle(prices)]
pub fn block_price(
    functions: &[FunctionSummary],
    column: &Column,
    body: &[Stmt<VariableName, TaskName, FunctionName>],
) -> u64
    ensures { result ≡ capped (block_price (known_of functions.now) column.now (block_view body.now)) }
{
    let mut n = 0;
    for i in (0..body.len()).rev() {
        n = plus(statement_price(functions, column, &body[i]), n);
    }
    n
}

/// The column of cycles.
pub const CYCLES: Column = Column {
    leaf: 40,
    next_event: 80,
    operator: 40,
    long: 80,
    shift: 100,
    long_shift: 400,
    multiply: 300,
    divide: 400,
    element: 60,
    call: 60,
    call_value: 0,
    body: Body::Cycles,
    assign: 40,
    long_assign: 80,
    store: 120,
    emit: 60,
    transition: 100,
    choose: 40,
    condition: 0,
    long_condition: 20,
    all_blocks: false,
    repeat: 40,
    turn: 40,
    each_turn: true,
};

/// The column that counts emits.
pub const EMITS: Column = Column {
    leaf: 0,
    next_event: 0,
    operator: 0,
    long: 0,
    shift: 0,
    long_shift: 0,
    multiply: 0,
    divide: 0,
    element: 0,
    call: 0,
    call_value: 0,
    body: Body::Emits,
    assign: 0,
    long_assign: 0,
    store: 0,
    emit: 1,
    transition: 0,
    choose: 0,
    condition: 0,
    long_condition: 0,
    all_blocks: false,
    repeat: 0,
    turn: 0,
    each_turn: true,
};

/// The column that counts how often `next_event()` stands in a text.
pub const EVENTS: Column = Column {
    leaf: 0,
    next_event: 1,
    operator: 0,
    long: 0,
    shift: 0,
    long_shift: 0,
    multiply: 0,
    divide: 0,
    element: 0,
    call: 0,
    call_value: 0,
    body: Body::Nothing,
    assign: 0,
    long_assign: 0,
    store: 0,
    emit: 0,
    transition: 0,
    choose: 0,
    condition: 0,
    long_condition: 0,
    all_blocks: true,
    repeat: 0,
    turn: 0,
    each_turn: false,
};

/// The column that counts the nodes of expressions.
pub const NODES: Column = Column {
    leaf: 1,
    next_event: 1,
    operator: 1,
    long: 1,
    shift: 1,
    long_shift: 1,
    multiply: 1,
    divide: 1,
    element: 1,
    call: 1,
    call_value: 0,
    body: Body::Nothing,
    assign: 0,
    long_assign: 0,
    store: 0,
    emit: 0,
    transition: 0,
    choose: 0,
    condition: 0,
    long_condition: 0,
    all_blocks: false,
    repeat: 0,
    turn: 0,
    each_turn: false,
};

/// The column of words, for a task that assigns so many shared scalars.
pub fn words_column(scalars: u64) -> Column
    requires few { scalars ≤ 512 }
    ensures { result ≡ words_column scalars }
{
    Column {
        leaf: 16,
        next_event: 40,
        operator: 16,
        long: 32,
        shift: 16,
        long_shift: 32,
        multiply: 16,
        divide: 16,
        element: 24,
        call: 24,
        call_value: 4,
        body: Body::Nothing,
        assign: 24,
        long_assign: 40,
        store: 60,
        emit: 24,
        transition: 40 + 16 * scalars,
        choose: 0,
        condition: 24,
        long_condition: 8,
        all_blocks: true,
        repeat: 24,
        turn: 0,
        each_turn: false,
    }
}
