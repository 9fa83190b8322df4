//! The tree of a source text. Over spans of the text it is what the parser makes ([`Tree`]); over variables, functions and tasks
//! by number it is what the checks leave ([`CheckedSource`]).
#![tactic(auto)]

mod names;
pub mod types;

use alp_text::Span;
pub use names::{CheckedSource, FunctionName, TaskName, Variable, VariableName};

/// The type of a number: a word of 16 bits without or with a sign, or two words, that is, 32 bits without a sign.
#[derive(Clone, Copy, Debug, PartialEq, Eq)]
pub enum WordType {
    Unsigned,
    Int,
    Long,
}

/// An operator in front of its operand: `-`, `~`, `!`.
#[derive(Clone, Copy)]
pub enum UnaryOperator {
    Negate,
    Complement,
    Not,
}

/// An operator that evaluates both sides: `* / % + - < <= > >= == != & ^ |`, in this order.
#[derive(Clone, Copy)]
pub enum BinaryOperator {
    Multiply,
    Divide,
    Remainder,
    Add,
    Subtract,
    Less,
    LessEqual,
    Greater,
    GreaterEqual,
    Equal,
    NotEqual,
    And,
    Xor,
    Or,
}

/// An operator that evaluates both sides as it stands in the text, with its place.
#[derive(Clone, Copy)]
pub struct PlacedOperator {
    pub operator: BinaryOperator,
    pub span: Span,
}

/// The direction of a shift: `<<`, `>>`.
#[derive(Clone, Copy)]
pub enum ShiftOperator {
    Left,
    Right,
}

/// An operator that evaluates its right side only where the left one leaves it open: `&&`, `||`.
#[derive(Clone, Copy)]
pub enum ShortCircuitOperator {
    And,
    Or,
}

/// A number as it stands in the text, with its place.
#[derive(Clone, Copy)]
pub struct Literal {
    pub value: u16,
    pub span: Span,
}

/// An expression over names of variables `V` and of functions `F`. Brackets make no node.
#[cycle(expression)]
#[derive(Drop)]
pub enum Expr<V, F> {
    Number(u16),
    /// A number of two words.
    LongNumber(u32),
    Name(V),
    /// An element of an array: its name and the index.
    Element(V, Box<Expr<V, F>>),
    /// The next reading.
    Sense,
    /// The next event.
    NextEvent,
    /// A call of a function: its name, and what it is given.
    Call(F, Args<V, F>),
    Unary(UnaryOperator, Box<Expr<V, F>>),
    Binary(PlacedOperator, Box<Expr<V, F>>, Box<Expr<V, F>>),
    /// A shift by a literal count.
    Shift(ShiftOperator, Box<Expr<V, F>>, Literal),
    ShortCircuit(ShortCircuitOperator, Box<Expr<V, F>>, Box<Expr<V, F>>),
}

/// The values that a call gives its function, in the text's order. They are a chain, as deep as there are values: a row of a source has
/// 256 tokens at most.
#[cycle(expression)]
#[derive(Drop)]
pub enum Args<V, F> {
    End,
    Value(Box<Expr<V, F>>, Box<Args<V, F>>),
}

/// A statement over names of variables `V`, of tasks `T` and of functions `F`.
#[cycle(ast)]
#[derive(Drop)]
pub enum Stmt<V, T, F> {
    /// The declaration of a local, with its initial value if one is written.
    Declare(WordType, V, Option<Expr<V, F>>),
    Assign(V, Expr<V, F>),
    /// An assignment to an element of an array: its name, the index, the value.
    Store(V, Expr<V, F>, Expr<V, F>),
    /// The conditions with their blocks, then the block of the last `else`.
    If(Vec<Arm<V, T, F>>, Option<Vec<Stmt<V, T, F>>>),
    /// `for (variable = from; tested < below; stepped++) body`.
    For {
        variable: V,
        from: u16,
        tested: V,
        below: u16,
        stepped: V,
        body: Vec<Stmt<V, T, F>>,
    },
    Emit(Expr<V, F>),
    /// `return value;`, with the place of its keyword.
    Return(Span, Expr<V, F>),
    /// `transition_to(task);`, with the place of its keyword.
    TransitionTo(Span, T),
}

/// A condition and the block under it.
#[cycle(ast)]
#[derive(Drop)]
pub struct Arm<V, T, F> {
    pub condition: Expr<V, F>,
    pub block: Vec<Stmt<V, T, F>>,
}

/// What a shared name stands for.
#[derive(Clone, Copy)]
pub enum Extent {
    /// One word, and the word that it starts with: 0 where none is written.
    Scalar(u16),
    /// Two words, the low one first, and the number that they start with: 0 where none is written.
    Long(u32),
    /// An array of so many words, which start at 0.
    Array(u16),
}

/// The declaration of a shared variable.
#[derive(Clone, Copy)]
pub struct SharedDeclaration {
    pub word_type: WordType,
    pub name: Span,
    pub extent: Extent,
}

/// A parameter of a function: a local whose value the call gives, as one word.
#[derive(Clone, Copy)]
pub struct Parameter<V> {
    pub word_type: WordType,
    pub name: V,
}

/// The declaration of a function: the type of what it gives, its name's place in the text, its parameters, and what it does.
#[derive(Drop)]
pub struct FunctionDeclaration<V, T, F> {
    pub word_type: WordType,
    pub name: Span,
    pub parameters: Vec<Parameter<V>>,
    pub body: Vec<Stmt<V, T, F>>,
}

/// The declaration of a task: its name's place in the text, and what it does.
#[derive(Drop)]
pub struct TaskDeclaration<V, T, F> {
    pub name: Span,
    pub body: Vec<Stmt<V, T, F>>,
}

/// A whole source: its declarations in the order of the text, and the name of the first task to run.
#[derive(Drop)]
pub struct Source<V, T, F> {
    pub shared: Vec<SharedDeclaration>,
    pub functions: Vec<FunctionDeclaration<V, T, F>>,
    pub tasks: Vec<TaskDeclaration<V, T, F>>,
    pub entry: T,
}

/// A source as the parser makes it: each name is a span of the text.
pub type Tree = Source<Span, Span, Span>;
