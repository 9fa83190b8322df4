//! The programs of expressions, which leave the expression's value on top of the stack, as one word or as a long, and the tests that
//! expressions are.
ghost use Rattle.std.specs.Prelude.{◌≡◌, ◌%◌, ◌/◌, [], OnOk, IfOk};
ghost use Rattle.array_versions.specs.Program.{joined, behind};
ghost use Rattle.array_versions.specs.Program as step;
ghost use Rattle.array_versions.specs.View.{program_of, test_of};
ghost use Rattle.array_versions.specs.declared.operations.LongOperation.TheVariants as with_longs;
ghost use Rattle.task_ast.specs.View.{expression_of, values_of};
ghost use Rattle.source_values.specs.Values.{type_of};
ghost use Rattle.task_ast.specs.declared.names.Variable.TheVariants.{Shared};
ghost use Rattle.lower.specs.View.{places_in, lowering_of};
ghost use Rattle.variable_places.specs.Places.{list_place};
ghost use Rattle.lower.specs.Lowered.{own_read};
ghost use Rattle.lower.specs.Lowered.{one, read_step, read_long, element_step, word_program, value_test, widening, name_lowering, long_words, long_program};
ghost use Rattle.lower.specs.Lowered.{unary_lowering, long_unary_lowering, operand_lowering, binary_lowering, answer, long_binary_lowering, sides_lowering};
ghost use Rattle.lower.specs.Lowered.{shift_lowering, sides_test, widened_type, lowering, as_word, as_test, as_bits, as_long, lowered_expression, lowered_long};
ghost use Rattle.lower.specs.Lowered.{Lowering, arguments, call_count, call_step, lowered_test};

use crate::operations::{
    BinaryMeaning, LongMeaning, LongQuestion, binary_meaning, long_meaning, long_shift,
    operand_type, shift_operation,
};
use array_versions::{
    ArrayPlace, BinaryOperation, Comparison, LongOperation, PlainOperation, UnaryOperation,
    WordProgram, WordTest,
};
use memory_map::{Logging, VariablePlace};
use std::alloc::{AllocError, Global};
use task_ast::types::{binary_type, joined_type, literal_type, unary_type};
use task_ast::{
    Args, BinaryOperator, Expr, FunctionName, ShiftOperator, ShortCircuitOperator, UnaryOperator,
    Variable, VariableName, WordType,
};
use variable_places::{TaskPlaces, array_place, high_address, low_word};

/// What an expression comes to.
#[derive(Drop)]
pub enum ExpressionProgram {
    /// A program that leaves the value on top of the stack.
    Word(WordProgram),
    /// The value is 1 where the test holds, else 0.
    Test(WordTest),
    /// A program that leaves two words; the value is the bits that are 1 in both.
    Bits(WordProgram),
    /// A program that leaves the value as a long on top of the stack.
    Long(WordProgram),
}

// A number of one word.
fn number(alloc: Global, n: u16) -> Result<ExpressionProgram, AllocError>
    ensures { IfOk result (λ l. lowering_of l ≡ as_word (one (step.number n))) }
{
    let mut program = WordProgram::new(alloc);
    program.number(n)?;
    Ok(ExpressionProgram::Word(program))
}

// A number as a long.
fn long_number(alloc: Global, n: u32) -> Result<ExpressionProgram, AllocError>
    ensures { IfOk result (λ l. lowering_of l ≡ as_long (step.step (step.number (n % 65536)) (one (step.number (n / 65536))))) }
{
    let mut program = WordProgram::new(alloc);
    program.number(low_word(n))?;
    program.number((n / 65536) as u16)?;
    Ok(ExpressionProgram::Long(program))
}

// The next reading.
fn reading(alloc: Global) -> Result<ExpressionProgram, AllocError>
    ensures { IfOk result (λ l. lowering_of l ≡ as_word (one step.sense)) }
{
    let mut program = WordProgram::new(alloc);
    program.sense()?;
    Ok(ExpressionProgram::Word(program))
}

// The next event, or 0.
fn event(alloc: Global) -> Result<ExpressionProgram, AllocError>
    ensures { IfOk result (λ l. lowering_of l ≡ as_word (one step.next_event)) }
{
    let mut program = WordProgram::new(alloc);
    program.next_event()?;
    Ok(ExpressionProgram::Word(program))
}

fn read(
    variable: Variable,
    places: &TaskPlaces<'_>,
    program: &mut WordProgram,
) -> Result<(), AllocError>
    ensures { OnOk result (program_of program.new
        ≡ behind (program_of program.old) (read_step (places_in places.now) variable)) }
{
    match variable {
        Variable::Shared(number) => program.load(places.address_of(number)),
        Variable::Local(number) => program.local(places.local_number(number)),
    }
}

// A variable as a long. A local has one word.
#[tactic(auto, using(array_versions::proofs::Interface::joined_assoc))]
fn read_long(
    variable: Variable,
    places: &TaskPlaces<'_>,
    program: &mut WordProgram,
) -> Result<(), AllocError>
    ensures { OnOk result (program_of program.new
        ≡ joined (program_of program.old) (read_long (places_in places.now) variable)) }
{
    match variable {
        Variable::Shared(number) => {
            let address = places.address_of(number);
            program.load(address)?;
            program.load(high_address(address))?;
        }
        Variable::Local(number) => {
            program.local(places.local_number(number))?;
            program.number(0)?;
        }
    }
    program.long(LongOperation::Join)
}

// A variable alone, by its type.
fn name(
    alloc: Global,
    word_type: WordType,
    variable: Variable,
    places: &TaskPlaces<'_>,
) -> Result<ExpressionProgram, AllocError>
    ensures { IfOk result (λ l. lowering_of l ≡ name_lowering (places_in places.now) word_type variable) }
{
    let mut program = WordProgram::new(alloc);
    match word_type {
        WordType::Long => {
            read_long(variable, places, &mut program)?;
            Ok(ExpressionProgram::Long(program))
        }
        WordType::Int | WordType::Unsigned => {
            read(variable, places, &mut program)?;
            Ok(ExpressionProgram::Word(program))
        }
    }
}

// Pops an index and pushes an element of an array that the task writes, as this attempt has the element: under undo it stands in
// its place.
fn read_own(
    array: &ArrayPlace,
    places: &TaskPlaces<'_>,
    program: &mut WordProgram,
) -> Result<(), AllocError>
    ensures { OnOk result (program_of program.new ≡ behind (program_of program.old)
        (own_read (places_in places.now).map.runtime.logging array.now (list_place (places_in places.now)))) }
{
    match places.layout.runtime().logging {
        Logging::Redo => program.versioned_read(array, &places.list_place()),
        Logging::Undo => program.element(array.elements, array.length),
    }
}

// Pops an index and pushes an element of the array of a number: where the task writes the array, as this attempt has the
// element.
fn read_array(
    number: u32,
    places: &TaskPlaces<'_>,
    program: &mut WordProgram,
) -> Result<(), AllocError>
    ensures { OnOk result (program_of program.new
        ≡ behind (program_of program.old) (element_step (places_in places.now) (Shared number))) }
{
    match places.variables.get(number as usize) {
        Some(
            VariablePlace::Array {
                elements,
                length,
                copies: Some(copies),
            },
        ) => read_own(&array_place(*elements, *length, *copies), places, program),
        Some(
            VariablePlace::Array {
                elements,
                length,
                copies: None,
            },
        ) => program.element(*elements, *length),
        Some(VariablePlace::Scalar { .. }) | None => program.element(0, 0),
    }
}

// Pops an index and pushes an element. The checks refuse an index on anything but an array.
fn read_element(
    variable: Variable,
    places: &TaskPlaces<'_>,
    program: &mut WordProgram,
) -> Result<(), AllocError>
    ensures { OnOk result (program_of program.new
        ≡ behind (program_of program.old) (element_step (places_in places.now) variable)) }
{
    match variable {
        Variable::Shared(number) => read_array(number, places, program),
        Variable::Local(_) => program.element(0, 0),
    }
}

// An element by the program of its index.
fn element(
    variable: Variable,
    index: WordProgram,
    places: &TaskPlaces<'_>,
) -> Result<ExpressionProgram, AllocError>
    ensures { IfOk result (λ l. lowering_of l
        ≡ as_word (behind (program_of index) (element_step (places_in places.now) variable))) }
{
    let mut program = index;
    read_element(variable, places, &mut program)?;
    Ok(ExpressionProgram::Word(program))
}

// The truth of a test as a word.
fn truth(alloc: Global, test: WordTest) -> Result<WordProgram, AllocError>
    ensures { IfOk result (λ p. program_of p ≡ one (step.truth (test_of test))) }
{
    let mut program = WordProgram::new(alloc);
    program.truth(test)?;
    Ok(program)
}

// The bits that are 1 in both of the two words that a program leaves.
fn common_bits(sides: WordProgram) -> Result<WordProgram, AllocError>
    ensures { IfOk result (λ p. program_of p ≡ word_program (as_bits (program_of sides))) }
{
    let mut program = sides;
    program.binary(BinaryOperation::Plain(PlainOperation::And))?;
    Ok(program)
}

// The program that leaves the value on top of the stack, as one word.
fn into_program(alloc: Global, e: ExpressionProgram) -> Result<WordProgram, AllocError>
    ensures { IfOk result (λ p. program_of p ≡ word_program (lowering_of e)) }
{
    match e {
        ExpressionProgram::Word(program) => Ok(program),
        ExpressionProgram::Test(test) => truth(alloc, test),
        ExpressionProgram::Bits(sides) => common_bits(sides),
        ExpressionProgram::Long(words) => {
            let mut program = words;
            program.long(LongOperation::LowWord)?;
            Ok(program)
        }
    }
}

// Makes a long of the word of this type that a program leaves: an int copies its sign.
#[tactic(auto, using(array_versions::proofs::Interface::joined_assoc))]
fn widened(word_type: WordType, word: WordProgram) -> Result<WordProgram, AllocError>
    ensures { IfOk result (λ p. program_of p ≡ joined (program_of word) (widening word_type)) }
{
    let mut program = word;
    match word_type {
        WordType::Int => program.long(LongOperation::Widen)?,
        WordType::Unsigned | WordType::Long => {
            program.number(0)?;
            program.long(LongOperation::Join)?;
        }
    }
    Ok(program)
}

// The program that leaves a long.
fn long_words(alloc: Global, e: ExpressionProgram) -> Result<WordProgram, AllocError>
    ensures { IfOk result (λ p. program_of p ≡ long_words (lowering_of e)) }
{
    match e {
        ExpressionProgram::Word(program) => widened(WordType::Long, program),
        ExpressionProgram::Test(test) => widened(WordType::Long, truth(alloc, test)?),
        ExpressionProgram::Bits(sides) => widened(WordType::Long, common_bits(sides)?),
        ExpressionProgram::Long(program) => Ok(program),
    }
}

// The program that leaves the value as a long, by its type.
fn into_long(
    alloc: Global,
    word_type: WordType,
    e: ExpressionProgram,
) -> Result<WordProgram, AllocError>
    ensures { IfOk result (λ p. program_of p ≡ long_program word_type (lowering_of e)) }
{
    match word_type {
        WordType::Long => long_words(alloc, e),
        WordType::Int | WordType::Unsigned => widened(word_type, into_program(alloc, e)?),
    }
}

// The test that the value isn't 0.
fn into_test(e: ExpressionProgram) -> Result<WordTest, AllocError>
    ensures { IfOk result (λ c. test_of c ≡ value_test (lowering_of e)) }
{
    match e {
        ExpressionProgram::Word(program) => Ok(WordTest::holds(program)),
        ExpressionProgram::Test(test) => Ok(test),
        ExpressionProgram::Bits(sides) => Ok(WordTest::compares(Comparison::CommonBit, sides)),
        ExpressionProgram::Long(words) => {
            let mut program = words;
            program.binary(BinaryOperation::Plain(PlainOperation::Or))?;
            Ok(WordTest::holds(program))
        }
    }
}

// An operation on a word.
fn calculated(
    alloc: Global,
    operation: UnaryOperation,
    e: ExpressionProgram,
) -> Result<ExpressionProgram, AllocError>
    ensures { IfOk result (λ l. lowering_of l
        ≡ as_word (behind (word_program (lowering_of e)) (step.unary operation))) }
{
    let mut program = into_program(alloc, e)?;
    program.unary(operation)?;
    Ok(ExpressionProgram::Word(program))
}

// `!`: the test that fails where the value isn't 0.
fn turned(alloc: Global, e: ExpressionProgram) -> Result<ExpressionProgram, AllocError>
    ensures { IfOk result (λ l. lowering_of l ≡ as_test (step.fails (value_test (lowering_of e)))) }
{
    let test = WordTest::fails(alloc, into_test(e)?)?;
    Ok(ExpressionProgram::Test(test))
}

// An operator in front of a word.
fn unary(
    alloc: Global,
    op: UnaryOperator,
    e: ExpressionProgram,
) -> Result<ExpressionProgram, AllocError>
    ensures { IfOk result (λ l. lowering_of l ≡ unary_lowering op (lowering_of e)) }
{
    match op {
        UnaryOperator::Negate => calculated(alloc, UnaryOperation::Negate, e),
        UnaryOperator::Complement => calculated(alloc, UnaryOperation::Complement, e),
        UnaryOperator::Not => turned(alloc, e),
    }
}

// An operation on two longs, behind the program of both.
fn long_calculated(
    operation: PlainOperation,
    sides: WordProgram,
) -> Result<ExpressionProgram, AllocError>
    ensures { IfOk result (λ l. lowering_of l ≡ as_long (behind (program_of sides) (step.long (with_longs.Calculate operation)))) }
{
    let mut program = sides;
    program.long(LongOperation::Calculate(operation))?;
    Ok(ExpressionProgram::Long(program))
}

// An operator in front of a long: `-` takes it from 0.
fn long_unary(
    alloc: Global,
    op: UnaryOperator,
    e: ExpressionProgram,
) -> Result<ExpressionProgram, AllocError>
    ensures { IfOk result (λ l. lowering_of l ≡ long_unary_lowering op (lowering_of e)) }
{
    match op {
        UnaryOperator::Negate => {
            let mut sides = WordProgram::new(alloc);
            sides.number(0)?;
            sides.number(0)?;
            append(&mut sides, long_words(alloc, e)?)?;
            long_calculated(PlainOperation::Subtract, sides)
        }
        UnaryOperator::Complement => {
            let mut program = long_words(alloc, e)?;
            program.long(LongOperation::Complement)?;
            Ok(ExpressionProgram::Long(program))
        }
        UnaryOperator::Not => turned(alloc, e),
    }
}

// An operator in front, by the type of the operand.
fn of_operand(
    alloc: Global,
    word_type: WordType,
    op: UnaryOperator,
    e: ExpressionProgram,
) -> Result<ExpressionProgram, AllocError>
    ensures { IfOk result (λ l. lowering_of l ≡ operand_lowering word_type op (lowering_of e)) }
{
    match word_type {
        WordType::Long => long_unary(alloc, op, e),
        WordType::Int | WordType::Unsigned => unary(alloc, op, e),
    }
}

// An operator of two sides, behind the program of both.
fn binary(
    alloc: Global,
    meaning: BinaryMeaning,
    sides: WordProgram,
) -> Result<ExpressionProgram, AllocError>
    ensures { IfOk result (λ l. lowering_of l ≡ binary_lowering meaning (program_of sides)) }
{
    match meaning {
        BinaryMeaning::Calculates(operation) => {
            let mut program = sides;
            program.binary(operation)?;
            Ok(ExpressionProgram::Word(program))
        }
        BinaryMeaning::CommonBits => Ok(ExpressionProgram::Bits(sides)),
        BinaryMeaning::Holds(comparison) => {
            Ok(ExpressionProgram::Test(WordTest::compares(comparison, sides)))
        }
        BinaryMeaning::Fails(comparison) => {
            let test = WordTest::fails(alloc, WordTest::compares(comparison, sides))?;
            Ok(ExpressionProgram::Test(test))
        }
    }
}

// Behind the program of two longs: a word that isn't 0 where the answer to a question is yes.
fn answer(question: LongQuestion, sides: WordProgram) -> Result<WordProgram, AllocError>
    ensures { IfOk result (λ p. program_of p ≡ answer question (program_of sides)) }
{
    let mut program = sides;
    match question {
        LongQuestion::Below => program.long(LongOperation::Below)?,
        LongQuestion::Above => program.long(LongOperation::Above)?,
        LongQuestion::Differ => {
            program.long(LongOperation::Calculate(PlainOperation::Xor))?;
            program.binary(BinaryOperation::Plain(PlainOperation::Or))?;
        }
    }
    Ok(program)
}

// An operator of two longs, behind the program of both.
fn long_binary(
    alloc: Global,
    meaning: LongMeaning,
    sides: WordProgram,
) -> Result<ExpressionProgram, AllocError>
    ensures { IfOk result (λ l. lowering_of l ≡ long_binary_lowering meaning (program_of sides)) }
{
    match meaning {
        LongMeaning::Calculates(operation) => long_calculated(operation, sides),
        LongMeaning::Holds(question) => {
            Ok(ExpressionProgram::Test(WordTest::holds(answer(question, sides)?)))
        }
        LongMeaning::Fails(question) => {
            let test = WordTest::fails(alloc, WordTest::holds(answer(question, sides)?))?;
            Ok(ExpressionProgram::Test(test))
        }
    }
}

// The type by which an expression of this type becomes long: a number of one word has no sign.
fn widened_type(e: &Expr<VariableName, FunctionName>, word_type: WordType) -> WordType
    requires { word_type ≡ type_of (expression_of e.now) }
    ensures { result ≡ widened_type (expression_of e.now) }
{
    match e {
        Expr::Number(_) => WordType::Unsigned,
        Expr::LongNumber(_)
        | Expr::Name(_)
        | Expr::Element(..)
        | Expr::Sense
        | Expr::NextEvent
        | Expr::Call(..)
        | Expr::Unary(..)
        | Expr::Binary(..)
        | Expr::Shift(..)
        | Expr::ShortCircuit(..) => word_type,
    }
}

// An operator of two sides, each with the type by which it becomes long, by the type of the operands that it takes.
fn of_sides(
    alloc: Global,
    operands: WordType,
    op: BinaryOperator,
    left: (ExpressionProgram, WordType),
    right: (ExpressionProgram, WordType),
) -> Result<ExpressionProgram, AllocError>
    ensures { IfOk result (λ l. lowering_of l
        ≡ sides_lowering operands op left.1 right.1 (lowering_of left.0) (lowering_of right.0)) }
{
    let (first, first_type) = left;
    let (second, second_type) = right;
    match operands {
        WordType::Long => {
            let mut sides = into_long(alloc, first_type, first)?;
            append(&mut sides, into_long(alloc, second_type, second)?)?;
            long_binary(alloc, long_meaning(op), sides)
        }
        WordType::Int | WordType::Unsigned => {
            let mut sides = into_program(alloc, first)?;
            append(&mut sides, into_program(alloc, second)?)?;
            binary(alloc, binary_meaning(op, operands), sides)
        }
    }
}

// A shift, by the type of its left side.
fn shifted(
    alloc: Global,
    word_type: WordType,
    op: ShiftOperator,
    e: ExpressionProgram,
    count: u16,
) -> Result<ExpressionProgram, AllocError>
    ensures { IfOk result (λ l. lowering_of l ≡ shift_lowering word_type op (lowering_of e) count) }
{
    match word_type {
        WordType::Long => {
            let mut program = long_words(alloc, e)?;
            program.long(long_shift(op, count))?;
            Ok(ExpressionProgram::Long(program))
        }
        WordType::Int | WordType::Unsigned => {
            let mut program = into_program(alloc, e)?;
            program.shift(shift_operation(op, word_type), count)?;
            Ok(ExpressionProgram::Word(program))
        }
    }
}

// `&&` or `||` of two tests.
fn both_or_either(
    alloc: Global,
    op: ShortCircuitOperator,
    left: WordTest,
    right: WordTest,
) -> Result<WordTest, AllocError>
    ensures { IfOk result (λ c. test_of c ≡ sides_test op (test_of left) (test_of right)) }
{
    match op {
        ShortCircuitOperator::And => WordTest::both(alloc, left, right),
        ShortCircuitOperator::Or => WordTest::either(alloc, left, right),
    }
}

// `&&` or `||` of what two sides come to.
fn short_circuit(
    alloc: Global,
    op: ShortCircuitOperator,
    left: ExpressionProgram,
    right: ExpressionProgram,
) -> Result<ExpressionProgram, AllocError>
    ensures { IfOk result (λ l. lowering_of l
        ≡ as_test (sides_test op (value_test (lowering_of left)) (value_test (lowering_of right)))) }
{
    let left = into_test(left)?;
    let right = into_test(right)?;
    Ok(ExpressionProgram::Test(both_or_either(alloc, op, left, right)?))
}

// What an expression comes to, with its type.
fn with_type(
    program: Result<ExpressionProgram, AllocError>,
    word_type: WordType,
) -> Result<(ExpressionProgram, WordType), AllocError>
    ensures program { (l : Lowering) → IfOk program (λ p. lowering_of p ≡ l) → IfOk result (λ x. lowering_of x.0 ≡ l) }
    ensures word_type { IfOk result (λ x. x.1 ≡ word_type) }
{
    Ok((program?, word_type))
}

// Puts a program behind another.
#[tactic(auto, using(crate::proofs::Chains::steps_of_joined))]
pub fn append(program: &mut WordProgram, mut more: WordProgram) -> Result<(), AllocError>
    ensures { OnOk result (program_of program.new ≡ joined (program_of program.old) (program_of more)) }
{
    program.steps.append(&mut more.steps)
}

// With how many words a function is called. No program calls one with 2^16.
fn value_count(values: &Args<VariableName, FunctionName>) -> u16
    ensures { result ≡ call_count (values_of values.now) }
{
    match values {
        Args::End => 0,
        Args::Value(_, more) => value_count(more).wrapping_add(1),
    }
}

// Calls the function of a number. One that has no place in the task is never called.
fn call(
    function: u32,
    count: u16,
    places: &TaskPlaces<'_>,
    program: &mut WordProgram,
) -> Result<(), AllocError>
    ensures { OnOk result (program_of program.new
        ≡ behind (program_of program.old) (call_step (places_in places.now) [] function count)) }
{
    match places.routine_of(function) {
        Some(routine) => program.call(routine.code.address, routine.frame, routine.first, count),
        None => program.call(0, None, 0, count),
    }
}

// Puts the programs of a call's values behind another, from left to right.
#[cycle(expression)]
#[tactic(auto, using(array_versions::proofs::Interface::joined_assoc, array_versions::proofs::Interface::joined_nothing))]
fn append_values(
    alloc: Global,
    values: &Args<VariableName, FunctionName>,
    places: &TaskPlaces<'_>,
    program: &mut WordProgram,
) -> Result<(), AllocError>
    ensures { OnOk result (program_of program.new
        ≡ joined (program_of program.old) (arguments (places_in places.now) [] (values_of values.now))) }
{
    match values {
        Args::End => Ok(()),
        Args::Value(e, more) => {
            append(program, lower_expression(alloc, e, places)?)?;
            append_values(alloc, more, places, program)
        }
    }
}

// What an expression comes to, and its type.
#[cycle(expression)]
#[tactic(auto, using(array_versions::proofs::Interface::joined_nothing))]
fn lower(
    alloc: Global,
    e: &Expr<VariableName, FunctionName>,
    places: &TaskPlaces<'_>,
) -> Result<(ExpressionProgram, WordType), AllocError>
    ensures program { IfOk result (λ x. lowering_of x.0 ≡ lowering (places_in places.now) [] (expression_of e.now)) }
    ensures word_type { IfOk result (λ x. x.1 ≡ type_of (expression_of e.now)) }
{
    match e {
        Expr::Number(n) => with_type(number(alloc, *n), literal_type(*n)),
        Expr::LongNumber(n) => with_type(long_number(alloc, *n), WordType::Long),
        Expr::Name(x) => with_type(name(alloc, x.word_type, x.variable, places), x.word_type),
        Expr::Element(x, index) => {
            let index = lower_expression(alloc, index, places)?;
            with_type(element(x.variable, index, places), x.word_type)
        }
        Expr::Sense => with_type(reading(alloc), WordType::Unsigned),
        Expr::NextEvent => with_type(event(alloc), WordType::Unsigned),
        Expr::Call(function, values) => {
            let mut program = WordProgram::new(alloc);
            append_values(alloc, values, places, &mut program)?;
            call(function.function, value_count(values), places, &mut program)?;
            Ok((ExpressionProgram::Word(program), function.word_type))
        }
        Expr::Unary(op, operand) => {
            let (operand, word_type) = lower(alloc, operand, places)?;
            let program = of_operand(alloc, word_type, *op, operand)?;
            Ok((program, unary_type(*op, word_type)))
        }
        Expr::Binary(op, a, b) => {
            let (left, left_type) = lower(alloc, a, places)?;
            let (right, right_type) = lower(alloc, b, places)?;
            let program = of_sides(
                alloc,
                operand_type(op.operator, joined_type(left_type, right_type)),
                op.operator,
                (left, widened_type(a, left_type)),
                (right, widened_type(b, right_type)),
            )?;
            Ok((program, binary_type(op.operator, left_type, right_type)))
        }
        Expr::Shift(op, operand, count) => {
            let (operand, word_type) = lower(alloc, operand, places)?;
            let program = shifted(alloc, word_type, *op, operand, count.value)?;
            Ok((program, word_type))
        }
        Expr::ShortCircuit(op, a, b) => {
            let (left, _) = lower(alloc, a, places)?;
            let (right, _) = lower(alloc, b, places)?;
            with_type(short_circuit(alloc, *op, left, right), WordType::Int)
        }
    }
}

/// The program that leaves an expression's value on top of the stack, as one word.
#[cycle(expression)]
pub fn lower_expression(
    alloc: Global,
    e: &Expr<VariableName, FunctionName>,
    places: &TaskPlaces<'_>,
) -> Result<WordProgram, AllocError>
    ensures { IfOk result (λ p. program_of p ≡ lowered_expression (places_in places.now) [] (expression_of e.now)) }
{
    let (program, _) = lower(alloc, e, places)?;
    into_program(alloc, program)
}

/// Puts the program that leaves an expression's value, as one word, behind another.
pub fn append_expression(
    alloc: Global,
    e: &Expr<VariableName, FunctionName>,
    places: &TaskPlaces<'_>,
    program: &mut WordProgram,
) -> Result<(), AllocError>
    ensures { OnOk result (program_of program.new
        ≡ joined (program_of program.old) (lowered_expression (places_in places.now) [] (expression_of e.now))) }
{
    let value = lower_expression(alloc, e, places)?;
    append(program, value)
}

/// The program that leaves an expression's value on top of the stack, as a long.
pub fn lower_long(
    alloc: Global,
    e: &Expr<VariableName, FunctionName>,
    places: &TaskPlaces<'_>,
) -> Result<WordProgram, AllocError>
    ensures { IfOk result (λ p. program_of p ≡ lowered_long (places_in places.now) [] (expression_of e.now)) }
{
    let (program, word_type) = lower(alloc, e, places)?;
    into_long(alloc, widened_type(e, word_type), program)
}

/// The test that an expression's value isn't 0.
pub fn lower_test(
    alloc: Global,
    e: &Expr<VariableName, FunctionName>,
    places: &TaskPlaces<'_>,
) -> Result<WordTest, AllocError>
    ensures { IfOk result (λ c. test_of c ≡ lowered_test (places_in places.now) [] (expression_of e.now)) }
{
    let (program, _) = lower(alloc, e, places)?;
    into_test(program)
}
