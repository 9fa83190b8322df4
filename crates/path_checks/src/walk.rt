//! What is known of the locals of a function or a task at a place of its body.

ghost use Rattle.std.specs.Prelude.{◌≡◌, ◌≤◌, ◌&&◌, ℕ, [], not, drop, IfOk, vec_len, slice_index_or, false, if◌then◌else◌, ◌==◌};
ghost use Rattle.std.specs.List.{list_all};
ghost use Rattle.task_ast.specs.View.{expression_of, values_of};
ghost use Rattle.task_ast.specs.Paths.{read, write, unset};
ghost use Rattle.task_ast.specs.Tree as tree;
ghost use Rattle.task_ast.specs.declared.WordType.{WordType};
ghost use Rattle.std.specs.Option.{option_map};
ghost use Rattle.path_sums.specs.Sums.{expression_sum, values_sum, statement_sum};
ghost use Rattle.path_checks.specs.Firsts.{IsFirst};
ghost use Rattle.path_checks.specs.Assignments.{begun, assignment, assignment_one, assignment_seq};
ghost use Rattle.path_checks.specs.Walks.{is_assigned, turned_back, SomeLocal, Tells, Does, IsBehind, IsTurnedBack};

use crate::firsts::first_of;
use alp_text::Span;
use std::alloc::{AllocError, Global};
use task_ast::{Args, Expr, FunctionName, Variable, VariableName};

/// What the paths up to a place have done.
#[derive(Drop)]
pub struct Walk {
    /// Gives the entries their room.
    pub alloc: Global,
    /// Some path comes here.
    pub falls_through: bool,
    /// Whether a local is assigned on every path that comes here; a local behind the end isn't.
    pub assigned: Vec<bool>,
    /// The locals whose entry was turned since the walk began, once for each time: turning them back gives what was before.
    pub turned: Vec<u32>,
    /// The first place at which some path has read a local while it was unassigned.
    pub fault: Option<Span>,
}

/// Before any access: so many locals have values, and the others are unassigned. Fails where memory does.
pub fn begin(alloc: Global, given: usize) -> Result<Walk, AllocError>
    ensures { IfOk result (λ walk. Tells walk (λ x p. begun given x)) }
{
    let mut assigned = Vec::new(alloc);
    assigned.resize(given, true)?;
    Ok(Walk {
        alloc,
        falls_through: true,
        assigned,
        turned: Vec::new(alloc),
        fault: None,
    })
}

fn entry(assigned: &[bool], x: u32) -> bool
    ensures { result ≡ slice_index_or assigned.now x false }
{
    let x = x as usize;
    x < assigned.len() && assigned[x]
}

/// Whether a local is assigned on every path that comes here.
pub fn is_assigned(walk: &Walk, x: u32) -> bool
    ensures { result ≡ is_assigned walk.now x }
{
    entry(&walk.assigned, x)
}

fn grow(assigned: &mut Vec<bool>, n: usize) -> Result<(), AllocError>
    ensures same { IfOk result (λ _. (y : ℕ) → slice_index_or assigned.new.items y false ≡ slice_index_or assigned.old.items y false) }
    ensures long { IfOk result (λ _. n ≤ vec_len assigned.new) }
{
    if assigned.len() < n {
        assigned.resize(n, false)
    } else {
        Ok(())
    }
}

fn put(assigned: &mut Vec<bool>, x: u32, value: bool) -> Result<(), AllocError>
    ensures { IfOk result (λ _. (y : ℕ) → slice_index_or assigned.new.items y false ≡ (if x == y then value else slice_index_or assigned.old.items y false)) }
{
    let x = x as usize;
    grow(assigned, x + 1)?;
    assigned[x] = value;
    Ok(())
}

/// Makes a local assigned or unassigned.
pub fn turn(walk: &mut Walk, x: u32, value: bool) -> Result<(), AllocError>
    ensures assigned { IfOk result (λ _. (y : ℕ) → is_assigned walk.new y ≡ (if x == y then value else is_assigned walk.old y)) }
    ensures behind { IfOk result (λ _. IsBehind walk.old walk.new) }
    ensures falls_through { walk.new.falls_through ≡ walk.old.falls_through }
    ensures fault { walk.new.fault ≡ walk.old.fault }
{
    if is_assigned(walk, x) == value {
        return Ok(());
    }
    put(&mut walk.assigned, x, value)?;
    walk.turned.push(x)?;
    Ok(())
}

/// The locals that were turned since there were so many.
pub fn since(turned: &[u32], mark: usize) -> &[u32]
    ensures { result.now ≡ drop mark turned.now }
{
    if mark <= turned.len() {
        &turned[mark..]
    } else {
        &[]
    }
}

fn flip(assigned: &mut Vec<bool>, turned: &[u32]) -> Result<(), AllocError>
    ensures { IfOk result (λ _. (y : ℕ) → slice_index_or assigned.new.items y false
        ≡ turned_back turned.now y (slice_index_or assigned.old.items y false)) }
{
    for i in (0..turned.len()).rev() {
        let x = turned[i];
        let now = entry(assigned, x);
        put(assigned, x, !now)?;
    }
    Ok(())
}

/// Goes back to where so many locals were turned.
pub fn turn_back(walk: &mut Walk, mark: usize, falls_through: bool) -> Result<(), AllocError>
    ensures { IfOk result (λ _. IsTurnedBack walk.old walk.new mark falls_through) }
{
    flip(&mut walk.assigned, since(&walk.turned, mark))?;
    walk.turned.truncate(mark);
    walk.falls_through = falls_through;
    Ok(())
}

/// A write.
pub fn set(walk: &mut Walk, name: &VariableName) -> Result<(), AllocError>
    ensures { IfOk result (λ _. Does walk.old walk.new (λ x p. assignment_one x p (write name.now))) }
{
    if !walk.falls_through {
        return Ok(());
    }
    match name.variable {
        Variable::Local(x) => turn(walk, x, true),
        Variable::Shared(_) => Ok(()),
    }
}

fn unset(walk: &mut Walk, name: &VariableName) -> Result<(), AllocError>
    ensures { IfOk result (λ _. Does walk.old walk.new (λ x p. assignment_one x p (unset name.now))) }
{
    if !walk.falls_through {
        return Ok(());
    }
    match name.variable {
        Variable::Local(x) => turn(walk, x, false),
        Variable::Shared(_) => Ok(()),
    }
}

fn first_read(walk: &Walk, name: &VariableName) -> Option<Span>
    ensures { IsFirst result (SomeLocal (λ x p. not (is_assigned walk.now x) && (assignment_one x p (read name.now)).exposed)) }
{
    match name.variable {
        Variable::Local(x) => {
            if is_assigned(walk, x) {
                None
            } else {
                Some(name.span)
            }
        }
        Variable::Shared(_) => None,
    }
}

#[cycle(first)]
fn first_in(walk: &Walk, e: &Expr<VariableName, FunctionName>) -> Option<Span>
    ensures { IsFirst result (SomeLocal (λ x p. not (is_assigned walk.now x) && (expression_sum [] (assignment x p) (expression_of e.now)).exposed)) }
{
    match e {
        Expr::Number(_) | Expr::LongNumber(_) | Expr::Sense | Expr::NextEvent => None,
        Expr::Name(name) => first_read(walk, name),
        Expr::Element(name, index) => first_of(first_in(walk, index), first_read(walk, name)),
        Expr::Call(_, values) => first_in_values(walk, values),
        Expr::Unary(_, a) => first_in(walk, a),
        Expr::Shift(_, a, _) => first_in(walk, a),
        Expr::Binary(_, a, b) => first_of(first_in(walk, a), first_in(walk, b)),
        Expr::ShortCircuit(_, a, b) => first_of(first_in(walk, a), first_in(walk, b)),
    }
}

// The reads of the values of a call. What the function does reads none of these locals.
#[cycle(first)]
fn first_in_values(walk: &Walk, values: &Args<VariableName, FunctionName>) -> Option<Span>
    ensures { IsFirst result (SomeLocal (λ x p. not (is_assigned walk.now x) && (values_sum [] (assignment x p) (values_of values.now)).exposed)) }
{
    match values {
        Args::End => None,
        Args::Value(e, more) => first_of(first_in(walk, e), first_in_values(walk, more)),
    }
}

/// The reads of an expression.
pub fn read(walk: &mut Walk, e: &Expr<VariableName, FunctionName>)
    ensures does { Does walk.old walk.new (λ x p. expression_sum [] (assignment x p) (expression_of e.now)) }
    ensures falls_through { walk.new.falls_through ≡ walk.old.falls_through }
    ensures assigned { walk.new.assigned ≡ walk.old.assigned }
    ensures turned { walk.new.turned ≡ walk.old.turned }
{
    if !walk.falls_through {
        return;
    }
    walk.fault = first_of(walk.fault, first_in(walk, e));
}

/// An assignment: the reads of the value, and then the write.
pub fn assign(
    walk: &mut Walk,
    name: &VariableName,
    value: &Expr<VariableName, FunctionName>,
) -> Result<(), AllocError>
    ensures { IfOk result (λ _. Does walk.old walk.new
        (λ x p. assignment_seq (expression_sum [] (assignment x p) (expression_of value.now)) (assignment_one x p (write name.now)))) }
{
    read(walk, value);
    set(walk, name)
}

/// A declaration, with its value if it has one.
pub fn declare(
    walk: &mut Walk,
    name: &VariableName,
    value: &Option<Expr<VariableName, FunctionName>>,
) -> Result<(), AllocError>
    ensures { IfOk result (λ _. (of : WordType) → Does walk.old walk.new
        (λ x p. statement_sum [] (assignment x p) (tree.declare of name.now (option_map expression_of value.now)))) }
{
    match value {
        None => unset(walk, name),
        Some(value) => assign(walk, name, value),
    }
}

/// Whether each local that was turned since there were so many is assigned.
pub fn lost_none(walk: &Walk, mark: usize) -> bool
    ensures { result ≡ list_all (is_assigned walk.now) (drop mark walk.now.turned.items) }
{
    since(&walk.turned, mark)
        .iter()
        .all(|x| is_assigned(walk, *x))
}
