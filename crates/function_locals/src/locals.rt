//! The locals of functions, and the registers that they take.
ghost use Rattle.std.specs.Prelude.{◌≡◌, ◌≤◌, length, map, false, if◌then◌else◌, slice_index_or};
ghost use Rattle.arrayvec.specs.ArrayVec.{array_vec_len};
ghost use Rattle.task_ast.specs.View.{block_view, function_of};
ghost use Rattle.function_locals.specs.Locals.{is_light, register_end, greatest_end, base_of, function_locals, all_locals};

use arrayvec::ArrayVec;
use cost_bound::{FUNCTIONS, SHARED, block_locals, called_functions};
use task_ast::{FunctionDeclaration, FunctionName, Stmt, TaskName, VariableName};

/// The registers in which locals stand.
const REGISTERS: u64 = 8;

/// The locals of a function: the registers below its base are of the functions that it calls, and it has so many locals of its own, its
/// parameters among them; 2^64 - 1 where they are more.
#[derive(Clone, Copy, Default)]
pub struct FunctionLocals {
    pub base: u16,
    pub own: u64,
}

/// The locals of a source's functions, in the order of the text.
pub type Locals = ArrayVec<FunctionLocals, FUNCTIONS>;

/// Whether all locals of a function stand in registers.
pub fn is_light(locals: &FunctionLocals) -> bool
    ensures { result ≡ is_light locals.now }
{
    (locals.base as u64).saturating_add(locals.own) <= REGISTERS
}

// Behind the registers that a function takes, with all that it calls.
fn register_end(locals: &FunctionLocals) -> u16
    ensures { result ≡ register_end locals.now }
{
    if is_light(locals) {
        locals.base + locals.own as u16
    } else {
        locals.base
    }
}

// The same where it is called.
fn end_if(called: bool, locals: &FunctionLocals) -> u16
    ensures { result ≡ (if called then register_end locals.now else 0) }
{
    if called { register_end(locals) } else { 0 }
}

// Behind the registers that the called functions take.
fn greatest_end(known: &[FunctionLocals], calls: &[bool; SHARED]) -> u16
    requires few { length known.now ≤ 64 }
    ensures { result ≡ greatest_end (λ k. slice_index_or calls.now k false) 0 known.now }
{
    let mut n = 0;
    for k in (0..known.len()).rev() {
        n = end_if(calls[k], &known[k]).max(n);
    }
    n
}

/// Behind the registers that the functions take which a text calls, these being the locals of the functions in front of it.
pub fn base(known: &[FunctionLocals], body: &[Stmt<VariableName, TaskName, FunctionName>]) -> u16
    requires few { length known.now ≤ 64 }
    ensures { result ≡ base_of known.now (block_view body.now) }
{
    greatest_end(known, &called_functions(body))
}

// The locals of a function, where these are those of the functions in front of it.
fn function_locals(
    known: &[FunctionLocals],
    function: &FunctionDeclaration<VariableName, TaskName, FunctionName>,
) -> FunctionLocals
    requires few { length known.now ≤ 64 }
    ensures { result ≡ function_locals known.now (function_of function.now) }
{
    let body = function.body.as_slice();
    FunctionLocals {
        base: base(known, body),
        own: (function.parameters.len() as u64).saturating_add(block_locals(body)),
    }
}

/// The locals of the functions of a source.
pub fn all_locals(functions: &[FunctionDeclaration<VariableName, TaskName, FunctionName>]) -> Locals
    requires few { length functions.now ≤ 64 }
    ensures { result.items ≡ all_locals (map function_of functions.now) }
{
    let mut known = ArrayVec::new();
    for i in 0..functions.len() {
        let next = function_locals(&known, &functions[i]);
        known.push(next);
    }
    known
}
