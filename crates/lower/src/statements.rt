//! The programs of statements.
ghost use Rattle.std.specs.Prelude.{◌≡◌, [], map, Option, OnOk, IfOk};
ghost use Rattle.std.specs.Option.{option_map};
ghost use Rattle.array_versions.specs.Program.{joined, behind, choose};
ghost use Rattle.array_versions.specs.Program as step;
ghost use Rattle.array_versions.specs.View.{program_of};
ghost use Rattle.task_ast.specs.Tree.{choice_of};
ghost use Rattle.task_ast.specs.Paths.{CheckedBlock};
ghost use Rattle.task_ast.specs.View.{expression_of, statement_of, tested_of, block_view};
ghost use Rattle.lower.specs.View.{places_in};
ghost use Rattle.lower.specs.Lowered.{one, write_step, write_long, update_step, logged_place, store_step, update_element_step, loop_local};
ghost use Rattle.lower.specs.Lowered.{lowered_test, setting, long_setting};
ghost use Rattle.lower.specs.Lowered.{assignment, scalar_assignment, index_and_value, element_setting, element_assignment, declaration, emission};
ghost use Rattle.lower.specs.Lowered.{lowered_expression, freezing, lowered_transition, lowered_statement, lowered_choice, lowered_block};

use crate::expressions::{append, append_expression, lower_long, lower_test};
use crate::in_place::{doubling, element_updating, of_words, updating};
use crate::runs::list_entries;
use array_versions::{ArrayPlace, LoggedPlace, LongOperation, PlainOperation, WordProgram};
use memory_map::{Logging, RuntimeWord};
use std::alloc::{AllocError, Global};
use task_ast::types::{joined_type, type_of};
use task_ast::{Arm, Expr, FunctionName, Stmt, TaskName, Variable, VariableName, WordType};
use variable_places::{TaskPlaces, high_address, low_word};

fn write(
    variable: Variable,
    places: &TaskPlaces<'_>,
    program: &mut WordProgram,
) -> Result<(), AllocError>
    ensures { OnOk result (program_of program.new
        ≡ behind (program_of program.old) (write_step (places_in places.now) variable)) }
{
    match variable {
        Variable::Shared(number) => program.keep(places.address_of(number)),
        Variable::Local(number) => program.set_local(places.local_number(number)),
    }
}

// The high word is stored first. A local has one word.
#[tactic(auto, using(array_versions::proofs::Interface::joined_assoc))]
fn write_long(
    variable: Variable,
    places: &TaskPlaces<'_>,
    program: &mut WordProgram,
) -> Result<(), AllocError>
    ensures { OnOk result (program_of program.new
        ≡ joined (program_of program.old) (write_long (places_in places.now) variable)) }
{
    match variable {
        Variable::Shared(number) => {
            let address = places.address_of(number);
            program.keep(high_address(address))?;
            program.keep(address)
        }
        Variable::Local(number) => {
            program.long(LongOperation::LowWord)?;
            program.set_local(places.local_number(number))
        }
    }
}

// Pops a word and sets a variable to what an operation gives of the variable and of that word.
fn update(
    operation: PlainOperation,
    variable: Variable,
    places: &TaskPlaces<'_>,
    program: &mut WordProgram,
) -> Result<(), AllocError>
    ensures { OnOk result (program_of program.new
        ≡ behind (program_of program.old) (update_step (places_in places.now) operation variable)) }
{
    match variable {
        Variable::Shared(number) => program.update(operation, places.address_of(number)),
        Variable::Local(number) => program.update_local(operation, places.local_number(number)),
    }
}

// Sets a variable of one word to an expression's value.
#[tactic(auto, using(array_versions::proofs::Interface::joined_assoc))]
fn set(
    alloc: Global,
    variable: Variable,
    e: &Expr<VariableName, FunctionName>,
    places: &TaskPlaces<'_>,
    program: &mut WordProgram,
) -> Result<(), AllocError>
    ensures { OnOk result (program_of program.new
        ≡ joined (program_of program.old) (setting (places_in places.now) [] variable (expression_of e.now))) }
{
    append_expression(alloc, e, places, program)?;
    write(variable, places, program)
}

// Sets a long to an expression's value.
#[tactic(auto, using(array_versions::proofs::Interface::joined_assoc))]
fn set_long(
    alloc: Global,
    variable: Variable,
    e: &Expr<VariableName, FunctionName>,
    places: &TaskPlaces<'_>,
    program: &mut WordProgram,
) -> Result<(), AllocError>
    ensures { OnOk result (program_of program.new
        ≡ joined (program_of program.old) (long_setting (places_in places.now) [] variable (expression_of e.now))) }
{
    append(program, lower_long(alloc, e, places)?)?;
    write_long(variable, places, program)
}

// Sets a variable to what an operation gives of it and of an expression's value.
#[tactic(auto, using(array_versions::proofs::Interface::joined_assoc))]
fn set_in_place(
    alloc: Global,
    operation: PlainOperation,
    variable: Variable,
    e: &Expr<VariableName, FunctionName>,
    places: &TaskPlaces<'_>,
    program: &mut WordProgram,
) -> Result<(), AllocError>
    ensures { OnOk result (program_of program.new ≡ joined (program_of program.old)
        (behind (lowered_expression (places_in places.now) [] (expression_of e.now)) (update_step (places_in places.now) operation variable))) }
{
    append_expression(alloc, e, places, program)?;
    update(operation, variable, places, program)
}

// A variable of one word: `x = x + e` and its like are in place, where both sides are of one word, and so is `x = x << 1`.
fn assign(
    alloc: Global,
    variable: Variable,
    e: &Expr<VariableName, FunctionName>,
    places: &TaskPlaces<'_>,
    program: &mut WordProgram,
) -> Result<(), AllocError>
    ensures { OnOk result (program_of program.new
        ≡ joined (program_of program.old) (assignment (places_in places.now) [] variable (expression_of e.now))) }
{
    match e {
        Expr::Binary(op, left, right) => match of_words(
            joined_type(type_of(left), type_of(right)),
            updating(variable, op.operator, left, right),
        ) {
            Some(operation) => set_in_place(alloc, operation, variable, right, places, program),
            None => set(alloc, variable, e, places, program),
        },
        Expr::Shift(op, operand, count) => match of_words(
            type_of(operand),
            doubling(variable, *op, operand, count.value),
        ) {
            Some(operation) => set_in_place(alloc, operation, variable, operand, places, program),
            None => set(alloc, variable, e, places, program),
        },
        Expr::Number(_)
        | Expr::LongNumber(_)
        | Expr::Name(_)
        | Expr::Element(..)
        | Expr::Sense
        | Expr::NextEvent
        | Expr::Call(..)
        | Expr::Unary(..)
        | Expr::ShortCircuit(..) => set(alloc, variable, e, places, program),
    }
}

// An assignment to a variable of this type.
fn assign_scalar(
    alloc: Global,
    word_type: WordType,
    variable: Variable,
    e: &Expr<VariableName, FunctionName>,
    places: &TaskPlaces<'_>,
    program: &mut WordProgram,
) -> Result<(), AllocError>
    ensures { OnOk result (program_of program.new
        ≡ joined (program_of program.old) (scalar_assignment (places_in places.now) [] word_type variable (expression_of e.now))) }
{
    match word_type {
        WordType::Long => set_long(alloc, variable, e, places, program),
        WordType::Int | WordType::Unsigned => assign(alloc, variable, e, places, program),
    }
}

// The index is evaluated first.
#[tactic(auto, using(array_versions::proofs::Interface::joined_assoc))]
fn index_and_value(
    alloc: Global,
    index: &Expr<VariableName, FunctionName>,
    e: &Expr<VariableName, FunctionName>,
    places: &TaskPlaces<'_>,
    program: &mut WordProgram,
) -> Result<(), AllocError>
    ensures { OnOk result (program_of program.new ≡ joined (program_of program.old)
        (index_and_value (places_in places.now) [] (expression_of index.now) (expression_of e.now))) }
{
    append_expression(alloc, index, places, program)?;
    append_expression(alloc, e, places, program)
}

// An array whose elements are stored where they stand.
fn logged_place(array: &ArrayPlace) -> LoggedPlace
    ensures { result ≡ logged_place array.now }
{
    LoggedPlace {
        elements: array.elements,
        versions: array.versions,
        length: array.length,
    }
}

// Pops a word and an index, and stores the word in an element: under redo in its copy, under undo in its place.
fn write_element(
    variable: Variable,
    places: &TaskPlaces<'_>,
    program: &mut WordProgram,
) -> Result<(), AllocError>
    ensures { OnOk result (program_of program.new
        ≡ behind (program_of program.old) (store_step (places_in places.now) variable)) }
{
    let array = places.stored_array(variable);
    let list = places.list_place();
    match places.layout.runtime().logging {
        Logging::Redo => program.versioned_write(&array, &list),
        Logging::Undo => program.logged_write(&logged_place(&array), &list),
    }
}

// Pops a word and an index, and stores in an element what an operation gives of the element and of that word.
fn update_element(
    operation: PlainOperation,
    variable: Variable,
    places: &TaskPlaces<'_>,
    program: &mut WordProgram,
) -> Result<(), AllocError>
    ensures { OnOk result (program_of program.new
        ≡ behind (program_of program.old) (update_element_step (places_in places.now) operation variable)) }
{
    let array = places.stored_array(variable);
    let list = places.list_place();
    match places.layout.runtime().logging {
        Logging::Redo => program.versioned_update(operation, &array, &list),
        Logging::Undo => program.logged_update(operation, &logged_place(&array), &list),
    }
}

// Sets an element to an expression's value.
#[tactic(auto, using(array_versions::proofs::Interface::joined_assoc))]
fn set_element(
    alloc: Global,
    variable: Variable,
    index: &Expr<VariableName, FunctionName>,
    e: &Expr<VariableName, FunctionName>,
    places: &TaskPlaces<'_>,
    program: &mut WordProgram,
) -> Result<(), AllocError>
    ensures { OnOk result (program_of program.new ≡ joined (program_of program.old)
        (element_setting (places_in places.now) [] variable (expression_of index.now) (expression_of e.now))) }
{
    index_and_value(alloc, index, e, places, program)?;
    write_element(variable, places, program)
}

// Sets an element to what an operation gives of it and of an expression's value.
#[tactic(auto, using(array_versions::proofs::Interface::joined_assoc))]
fn set_element_in_place(
    alloc: Global,
    operation: PlainOperation,
    variable: Variable,
    index: &Expr<VariableName, FunctionName>,
    e: &Expr<VariableName, FunctionName>,
    places: &TaskPlaces<'_>,
    program: &mut WordProgram,
) -> Result<(), AllocError>
    ensures { OnOk result (program_of program.new ≡ joined (program_of program.old)
        (behind (index_and_value (places_in places.now) [] (expression_of index.now) (expression_of e.now))
        (update_element_step (places_in places.now) operation variable))) }
{
    index_and_value(alloc, index, e, places, program)?;
    update_element(operation, variable, places, program)
}

// `a[i] = a[i] + e` and its like are in place, where both sides are of one word.
fn store(
    alloc: Global,
    variable: Variable,
    index: &Expr<VariableName, FunctionName>,
    e: &Expr<VariableName, FunctionName>,
    places: &TaskPlaces<'_>,
    program: &mut WordProgram,
) -> Result<(), AllocError>
    ensures { OnOk result (program_of program.new ≡ joined (program_of program.old)
        (element_assignment (places_in places.now) [] variable (expression_of index.now) (expression_of e.now))) }
{
    match e {
        Expr::Binary(op, left, right) => match of_words(
            joined_type(type_of(left), type_of(right)),
            element_updating(variable, index, op.operator, left, right),
        ) {
            Some(operation) => set_element_in_place(
                alloc, operation, variable, index, right, places, program,
            ),
            None => set_element(alloc, variable, index, e, places, program),
        },
        Expr::Number(_)
        | Expr::LongNumber(_)
        | Expr::Name(_)
        | Expr::Element(..)
        | Expr::Sense
        | Expr::NextEvent
        | Expr::Call(..)
        | Expr::Unary(..)
        | Expr::Shift(..)
        | Expr::ShortCircuit(..) => set_element(alloc, variable, index, e, places, program),
    }
}

// A declaration without a value has no steps. A local has one word.
#[tactic(auto, using(array_versions::proofs::Interface::joined_nothing))]
fn declare(
    alloc: Global,
    variable: Variable,
    value: &Option<Expr<VariableName, FunctionName>>,
    places: &TaskPlaces<'_>,
    program: &mut WordProgram,
) -> Result<(), AllocError>
    ensures { OnOk result (program_of program.new
        ≡ joined (program_of program.old) (declaration (places_in places.now) [] variable (option_map expression_of value.now))) }
{
    match value {
        None => Ok(()),
        Some(e) => assign(alloc, variable, e, places, program),
    }
}

#[tactic(auto, using(array_versions::proofs::Interface::joined_assoc))]
fn emit(
    alloc: Global,
    e: &Expr<VariableName, FunctionName>,
    places: &TaskPlaces<'_>,
    program: &mut WordProgram,
) -> Result<(), AllocError>
    ensures { OnOk result (program_of program.new
        ≡ joined (program_of program.old) (emission (places_in places.now) [] (expression_of e.now))) }
{
    append_expression(alloc, e, places, program)?;
    let layout = places.layout;
    let emit_count = layout.word_place(RuntimeWord::EmitCount);
    program.emit_word(emit_count, layout.emits().address)
}

// In a function: ends with an expression's value.
#[tactic(auto, using(array_versions::proofs::Interface::joined_assoc))]
fn give(
    alloc: Global,
    e: &Expr<VariableName, FunctionName>,
    places: &TaskPlaces<'_>,
    program: &mut WordProgram,
) -> Result<(), AllocError>
    ensures { OnOk result (program_of program.new ≡ joined (program_of program.old)
        (behind (lowered_expression (places_in places.now) [] (expression_of e.now)) step.give)) }
{
    append_expression(alloc, e, places, program)?;
    program.give()
}

// The local that counts the turns of a `for`. The checks refuse a shared variable there.
fn loop_local(variable: Variable, places: &TaskPlaces<'_>) -> u16
    ensures { result ≡ loop_local (places_in places.now) variable }
{
    match variable {
        Variable::Local(number) => places.local_number(number),
        Variable::Shared(_) => 0,
    }
}

// Where the program takes events, TAIL as the transition leaves it.
#[tactic(auto, using(array_versions::proofs::Interface::joined_nothing))]
fn freeze_events(places: &TaskPlaces<'_>, program: &mut WordProgram) -> Result<(), AllocError>
    ensures { OnOk result (program_of program.new ≡ joined (program_of program.old) (freezing (places_in places.now))) }
{
    if places.layout.runtime().events {
        program.freeze_events()
    } else {
        Ok(())
    }
}

// The gate is raised last: from then on the transition stands, whatever happens to the power.
#[tactic(auto, using(array_versions::proofs::Interface::joined_assoc))]
fn lower_transition(
    task: u32,
    places: &TaskPlaces<'_>,
    program: &mut WordProgram,
) -> Result<(), AllocError>
    ensures { OnOk result (program_of program.new
        ≡ joined (program_of program.old) (lowered_transition (places_in places.now) task)) }
{
    let layout = places.layout;
    let next_task = layout.word_place(RuntimeWord::NextTask);
    let list_length = layout.word_place(RuntimeWord::ListLength);
    let base = layout.word_place(RuntimeWord::Base);
    let sent_base = layout.word_place(RuntimeWord::SentBase);
    let gate = layout.word_place(RuntimeWord::Gate);
    program.store_number(next_task, low_word(task))?;
    list_entries(places.privates, list_length, layout.list().address, program)?;
    program.move_word(base, sent_base)?;
    freeze_events(places, program)?;
    program.store_number(gate, 1)?;
    program.jump(layout.commit().address)
}

#[cycle(lower)]
#[tactic(auto, using(array_versions::proofs::Interface::joined_assoc, array_versions::proofs::Interface::joined_nothing))]
fn lower_statement(
    alloc: Global,
    s: &Stmt<VariableName, TaskName, FunctionName>,
    places: &TaskPlaces<'_>,
    program: &mut WordProgram,
) -> Result<(), AllocError>
    ensures { OnOk result (program_of program.new
        ≡ joined (program_of program.old) (lowered_statement (places_in places.now) [] (statement_of s.now))) }
{
    match s {
        Stmt::Declare(_, x, value) => declare(alloc, x.variable, value, places, program),
        Stmt::Assign(x, e) => assign_scalar(alloc, x.word_type, x.variable, e, places, program),
        Stmt::Store(x, index, e) => store(alloc, x.variable, index, e, places, program),
        Stmt::If(arms, None) => {
            let last = WordProgram::new(alloc);
            let chain = lower_arms(alloc, arms, last, places)?;
            append(program, chain)
        }
        Stmt::If(arms, Some(block)) => {
            let mut last = WordProgram::new(alloc);
            lower_block(alloc, block, places, &mut last)?;
            let chain = lower_arms(alloc, arms, last, places)?;
            append(program, chain)
        }
        Stmt::For {
            variable,
            from,
            below,
            body,
            ..
        } => {
            let mut turn = WordProgram::new(alloc);
            lower_block(alloc, body, places, &mut turn)?;
            program.repeat(loop_local(variable.variable, places), *from, *below, turn)
        }
        Stmt::Emit(e) => emit(alloc, e, places, program),
        Stmt::Return(_, e) => give(alloc, e, places, program),
        Stmt::TransitionTo(_, t) => lower_transition(t.task, places, program),
    }
}

// A condition with its block, and what is done where it doesn't hold.
#[cycle(lower)]
fn lower_arm(
    alloc: Global,
    arm: &Arm<VariableName, TaskName, FunctionName>,
    otherwise: WordProgram,
    places: &TaskPlaces<'_>,
) -> Result<WordProgram, AllocError>
    ensures { IfOk result (λ p. program_of p ≡ one (choose (lowered_test (places_in places.now) [] (tested_of arm.now).condition)
        (lowered_block (places_in places.now) [] (tested_of arm.now).block) (program_of otherwise))) }
{
    let test = lower_test(alloc, &arm.condition, places)?;
    let mut taken = WordProgram::new(alloc);
    lower_block(alloc, &arm.block, places, &mut taken)?;
    let mut program = WordProgram::new(alloc);
    program.choose(test, taken, otherwise)?;
    Ok(program)
}

// The conditions of an `if` with their blocks, and the program of what stands behind the last.
#[cycle(lower)]
fn lower_arms(
    alloc: Global,
    arms: &[Arm<VariableName, TaskName, FunctionName>],
    last: WordProgram,
    places: &TaskPlaces<'_>,
) -> Result<WordProgram, AllocError>
    ensures { (b : Option CheckedBlock)
        → program_of last ≡ lowered_choice (places_in places.now) [] (choice_of [] b)
        → IfOk result (λ p. program_of p ≡ lowered_choice (places_in places.now) [] (choice_of (map tested_of arms.now) b)) }
{
    let mut chain = last;
    for i in (0..arms.len()).rev() {
        chain = lower_arm(alloc, &arms[i], chain, places)?;
    }
    Ok(chain)
}

/// Puts the program of statements behind another. Without memory part of it may stand there.
#[cycle(lower)]
#[tactic(auto, using(array_versions::proofs::Interface::joined_assoc))]
pub fn lower_block(
    alloc: Global,
    body: &[Stmt<VariableName, TaskName, FunctionName>],
    places: &TaskPlaces<'_>,
    program: &mut WordProgram,
) -> Result<(), AllocError>
    ensures { OnOk result (program_of program.new
        ≡ joined (program_of program.old) (lowered_block (places_in places.now) [] (block_view body.now))) }
{
    for statement in body {
        lower_statement(alloc, statement, places, program)?;
    }
    Ok(())
}
