//! Reads of unassigned locals.

ghost use Rattle.std.specs.Prelude.{◌≡◌, IfOk, List, Option, [], map, length};
ghost use Rattle.task_ast.specs.Tree.{choice_of};
ghost use Rattle.task_ast.specs.View.{statement_of, tested_of, block_view, function_of, task_of, program_of};
ghost use Rattle.task_ast.specs.Paths.{CheckedBlock, CheckedFunction, write};
ghost use Rattle.task_ast.specs.Calls.{BlockCallsBelow, CallsAreKnown};
ghost use Rattle.path_sums.specs.Sums.{turns_sum, statement_sum, choice_sum, block_sum};
ghost use Rattle.path_checks.specs.Firsts.{IsFirst};
ghost use Rattle.path_checks.specs.Assignments.{assignment, assignment_one, assignment_seq};
ghost use Rattle.path_checks.specs.Walks.{Does};
ghost use Rattle.path_checks.specs.Ways.{SoFar};
ghost use Rattle.path_checks.specs.Unassigned.{ReadsUnassigned, UnassignedInFunction, UnassignedInTask, UnassignedAt};

use crate::firsts::first_of;
use crate::walk::{Walk, assign, begin, declare, lost_none, read, set};
use crate::ways::{Ended, end_way, join_ways, start_of};
use alp_text::Span;
use std::alloc::{AllocError, Global};
use task_ast::{Arm, CheckedSource, FunctionName, Stmt, TaskName, VariableName};

#[cycle(walk)]
fn walk_statement(
    walk: &mut Walk,
    statement: &Stmt<VariableName, TaskName, FunctionName>,
) -> Result<(), AllocError>
    ensures { IfOk result (λ _. Does walk.old walk.new (λ x p. statement_sum [] (assignment x p) (statement_of statement.now))) }
{
    match statement {
        Stmt::Declare(_, name, value) => declare(walk, name, value),
        Stmt::Assign(name, value) => assign(walk, name, value),
        Stmt::Store(name, index, value) => {
            read(walk, index);
            assign(walk, name, value)
        }
        Stmt::If(arms, None) => {
            let start = start_of(walk);
            let ends = walk_arms(walk, arms)?;
            join_ways(start, ends, walk)
        }
        Stmt::If(arms, Some(last)) => {
            let start = start_of(walk);
            let ends = walk_arms(walk, arms)?;
            walk_block(walk, last)?;
            join_ways(start, ends, walk)
        }
        Stmt::For {
            variable,
            from,
            below,
            body,
            ..
        } => {
            set(walk, variable)?;
            walk_turns(walk, variable, below.saturating_sub(*from), body)
        }
        Stmt::Emit(value) => {
            read(walk, value);
            Ok(())
        }
        Stmt::Return(_, value) => {
            read(walk, value);
            walk.falls_through = false;
            Ok(())
        }
        Stmt::TransitionTo(_, _) => {
            walk.falls_through = false;
            Ok(())
        }
    }
}

/// Two turns tell what more do. The second is walked only where the first one left a local unassigned that was assigned. Names are known only behind
/// their declarations, and all locals but parameters begin unassigned, so no text whose names are known has such a local, and each loop of it is walked
/// once, however deep it stands.
#[cycle(walk)]
fn walk_turns(
    walk: &mut Walk,
    name: &VariableName,
    turns: u16,
    body: &[Stmt<VariableName, TaskName, FunctionName>],
) -> Result<(), AllocError>
    ensures { IfOk result (λ _. Does walk.old walk.new (λ x p. turns_sum (assignment x p) turns
        (assignment_seq (block_sum [] (assignment x p) (block_view body.now)) (assignment_one x p (write name.now))))) }
{
    if turns == 0 {
        return Ok(());
    }
    let start = start_of(walk);
    walk_turn(walk, name, body)?;
    if turns == 1 || lost_none(walk, start.mark) {
        return Ok(());
    }
    walk_turn(walk, name, body)
}

#[cycle(walk)]
fn walk_turn(
    walk: &mut Walk,
    name: &VariableName,
    body: &[Stmt<VariableName, TaskName, FunctionName>],
) -> Result<(), AllocError>
    ensures { IfOk result (λ _. Does walk.old walk.new
        (λ x p. assignment_seq (block_sum [] (assignment x p) (block_view body.now)) (assignment_one x p (write name.now)))) }
{
    walk_block(walk, body)?;
    set(walk, name)
}

/// The conditions of an `if` and the blocks under them: what their ends tell. The walk goes on where all conditions were passed.
#[cycle(walk)]
fn walk_arms(
    walk: &mut Walk,
    arms: &[Arm<VariableName, TaskName, FunctionName>],
) -> Result<Option<Vec<Ended>>, AllocError>
    ensures { IfOk result (λ ends. (last : Option CheckedBlock) → SoFar walk.old walk.new ends
        (λ x p. choice_sum [] (assignment x p) (choice_of (map tested_of arms.now) last)) (λ x p. choice_sum [] (assignment x p) (choice_of [] last))) }
{
    let start = start_of(walk);
    let mut ends = None;
    for arm in arms {
        read(walk, &arm.condition);
        walk_block(walk, &arm.block)?;
        ends = end_way(start, ends, walk)?;
    }
    Ok(ends)
}

#[cycle(walk)]
fn walk_block(
    walk: &mut Walk,
    body: &[Stmt<VariableName, TaskName, FunctionName>],
) -> Result<(), AllocError>
    ensures { IfOk result (λ _. Does walk.old walk.new (λ x p. block_sum [] (assignment x p) (block_view body.now))) }
{
    for statement in body {
        walk_statement(walk, statement)?;
    }
    Ok(())
}

/// The first read of an unassigned local in a body to which so many values are given.
fn first_in_body(
    alloc: Global,
    given: usize,
    body: &[Stmt<VariableName, TaskName, FunctionName>],
) -> Result<Option<Span>, AllocError>
    ensures { IfOk result (λ first. (functions : List CheckedFunction) → BlockCallsBelow (length functions) (block_view body.now)
        → IsFirst first (ReadsUnassigned functions given (block_view body.now))) }
{
    let mut walk = begin(alloc, given)?;
    walk_block(&mut walk, body)?;
    Ok(walk.fault)
}

// The first read of an unassigned local in functions.
fn first_in_functions(alloc: Global, source: &CheckedSource) -> Result<Option<Span>, AllocError>
    ensures { IfOk result (λ first. CallsAreKnown (program_of source.now) → IsFirst first (UnassignedInFunction (program_of source.now))) }
{
    let mut first = None;
    for i in (0..source.functions.len()).rev() {
        let function = &source.functions[i];
        let here = first_in_body(alloc, function.parameters.len(), &function.body)?;
        first = first_of(here, first);
    }
    Ok(first)
}

// The first read of an unassigned local in tasks.
fn first_in_tasks(alloc: Global, source: &CheckedSource) -> Result<Option<Span>, AllocError>
    ensures { IfOk result (λ first. CallsAreKnown (program_of source.now) → IsFirst first (UnassignedInTask (program_of source.now))) }
{
    let mut first = None;
    for i in (0..source.tasks.len()).rev() {
        let here = first_in_body(alloc, 0, &source.tasks[i].body)?;
        first = first_of(here, first);
    }
    Ok(first)
}

/// The first place of a source at which some path of a function or a task reads a local while it is unassigned. Fails where memory does.
pub fn first_unassigned(alloc: Global, source: &CheckedSource) -> Result<Option<Span>, AllocError>
    ensures { IfOk result (λ first. CallsAreKnown (program_of source.now) → IsFirst first (UnassignedAt (program_of source.now))) }
{
    let in_functions = first_in_functions(alloc, source)?;
    let in_tasks = first_in_tasks(alloc, source)?;
    Ok(first_of(in_functions, in_tasks))
}
