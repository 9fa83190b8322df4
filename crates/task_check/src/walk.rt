//! From the first name of a text to the last.

ghost use Rattle.std.specs.Prelude.{[], ◌≡◌, ℕ, ◌<◌, ◌-◌, ◌^◌, ◌⊎◌, ◌∷◌, ◌++◌, List, length, IfOk, Some, None};
ghost use Rattle.std.specs.Option.{option_or};
ghost use Rattle.std.specs.Result.{IfErr};
ghost use Rattle.std.specs.Str.{bytes_eq};
ghost use Rattle.task_check.specs.Tables.{found};
ghost use Rattle.task_check.specs.Scope as scope;
ghost use Rattle.task_check.specs.LookedUp as looked_up;
ghost use Rattle.task_check.specs.Faults as faults;
ghost use Rattle.task_check.specs.declared.fault.CheckFault.TheVariants as CheckFault;
ghost use Rattle.task_check.specs.Walks.{HasGlobals, IsWalked, IsOneOn, counts_in, symbol_of, name_fault_of};

use crate::fault::CheckFault;
use crate::judge;
use crate::occurrence::{Occurrence, Role};
use crate::symbol::{Counts, Global, Local, Symbol, TypedFunction, TypedVariable};
use crate::table::{Table, empty, get, set, set_first};
use crate::text::text_of;
use std::alloc::{AllocError, Global as Memory};
use task_ast::Variable;

/// What is known of the names in front of a place.
#[derive(Drop)]
pub struct Walk<'a> {
    /// The last local of each name.
    pub locals: Table<'a, Local>,
    pub counts: Counts,
    /// What the names of variables stand for, in the text's order.
    pub variables: Vec<TypedVariable>,
    /// What the names of called functions stand for.
    pub calls: Vec<TypedFunction>,
    /// What the names behind transitions and the entry stand for.
    pub targets: Vec<u32>,
    /// The first wrong use or empty array.
    pub wrong_use: Option<CheckFault>,
    /// The first name too many.
    pub too_many: Option<CheckFault>,
}

#[tactic(auto, using(crate::proofs::Tables::none_named))]
fn set_local<'a>(
    locals: &mut Table<'a, Local>,
    name: &'a [u8],
    local: Option<Local>,
) -> Result<(), AllocError>
    ensures { IfOk result (λ _. (q : List ℕ) → found locals.new q ≡ option_or (scope.if_named (bytes_eq name.now q) local) (found locals.old q)) }
{
    match local {
        Some(local) => set(locals, name, local),
        None => Ok(()),
    }
}

fn add_variable_of(variables: &mut Vec<TypedVariable>, symbol: Symbol) -> Result<(), AllocError>
    ensures { IfOk result (λ _. variables.new.items ≡ variables.old.items ++ looked_up.variable_of symbol) }
{
    match symbol {
        Symbol::Scalar { number, word_type } | Symbol::Array { number, word_type } => {
            let variable = Variable::Shared(number);
            variables.push(TypedVariable {
                variable,
                word_type,
            })?;
            Ok(())
        }
        Symbol::Local { number, word_type } => {
            let variable = Variable::Local(number);
            variables.push(TypedVariable {
                variable,
                word_type,
            })?;
            Ok(())
        }
        Symbol::Function { .. } | Symbol::Task { .. } => Ok(()),
    }
}

fn add_variable(
    variables: &mut Vec<TypedVariable>,
    role: Role,
    symbol: Option<Symbol>,
) -> Result<(), AllocError>
    ensures { IfOk result (λ _. variables.new.items ≡ variables.old.items ++ looked_up.variable_by role symbol) }
{
    match (role, symbol) {
        (Role::Target | Role::Call(_), _) | (_, None) => Ok(()),
        (_, Some(symbol)) => add_variable_of(variables, symbol),
    }
}

fn add_call(
    calls: &mut Vec<TypedFunction>,
    role: Role,
    symbol: Option<Symbol>,
) -> Result<(), AllocError>
    ensures { IfOk result (λ _. calls.new.items ≡ calls.old.items ++ looked_up.call_by role symbol) }
{
    match (role, symbol) {
        (
            Role::Call(_),
            Some(
                Symbol::Function {
                    number,
                    word_type,
                    ..
                },
            ),
        ) => {
            calls.push(TypedFunction {
                function: number,
                word_type,
            })?;
            Ok(())
        }
        _ => Ok(()),
    }
}

fn add_target(targets: &mut Vec<u32>, role: Role, symbol: Option<Symbol>) -> Result<(), AllocError>
    ensures { IfOk result (λ _. targets.new.items ≡ targets.old.items ++ looked_up.target_by role symbol) }
{
    match (role, symbol) {
        (Role::Target, Some(Symbol::Task { number })) => {
            targets.push(number)?;
            Ok(())
        }
        _ => Ok(()),
    }
}

// One more name, which is neither repeated nor unknown.
fn go_on<'a>(
    walk: &mut Walk<'a>,
    source: &'a [u8],
    o: Occurrence,
    symbol: Option<Symbol>,
) -> Result<(), AllocError>
    requires short { length source.now < 2 ^ 32 - 1 }
    requires shared { walk.old.counts.shared < 2 ^ 32 - 1 }
    requires functions { walk.old.counts.functions < 2 ^ 32 - 1 }
    requires tasks { walk.old.counts.tasks < 2 ^ 32 - 1 }
    requires locals { walk.old.counts.locals < 2 ^ 32 - 1 }
    ensures { IfOk result (λ _. IsOneOn source.now o symbol walk.old walk.new) }
{
    let counts = walk.counts;
    walk.wrong_use = judge::first_use_fault(walk.wrong_use, source, o, symbol);
    walk.too_many = judge::first_limit_fault(walk.too_many, source, o, counts);
    walk.counts = judge::counted(counts, o.role);
    add_variable(&mut walk.variables, o.role, symbol)?;
    add_call(&mut walk.calls, o.role, symbol)?;
    add_target(&mut walk.targets, o.role, symbol)?;
    let local = judge::local_by(o.role, counts);
    set_local(&mut walk.locals, text_of(source, o.span), local)
}

// The next name, with so many in front of it and behind.
#[tactic(auto, unfolding(crate::specs::Walks::symbol_of, crate::specs::Walks::name_fault_of))]
fn step<'a>(
    walk: &mut Walk<'a>,
    source: &'a [u8],
    globals: &Table<'a, Global>,
    o: &Occurrence,
    front: usize,
    behind: usize,
) -> Result<(), CheckFault>
    requires short { length source.now < 2 ^ 32 - 1 }
    requires shared { walk.old.counts.shared < 2 ^ 32 - 1 }
    requires functions { walk.old.counts.functions < 2 ^ 32 - 1 }
    requires tasks { walk.old.counts.tasks < 2 ^ 32 - 1 }
    requires locals { walk.old.counts.locals < 2 ^ 32 - 1 }
    ensures ok { IfOk result (λ _. IsOneOn source.now o.now (symbol_of source.now globals.now walk.old o.now behind) walk.old walk.new) }
    ensures fine { IfOk result (λ _. name_fault_of source.now globals.now walk.old o.now front behind ≡ None) }
    ensures refused { IfErr result (λ e. (e ≡ CheckFault.Memory) ⊎ (name_fault_of source.now globals.now walk.old o.now front behind ≡ Some e)) }
{
    let name = text_of(source, o.span);
    let global = get(globals, name);
    let local = get(&walk.locals, name);
    let known = judge::known_functions(walk.counts);
    let found = judge::meaning(known, behind, local, global);
    let symbol = judge::symbol_by(o.role, walk.counts.locals, found);
    let in_front = judge::stands_in_front(front, global);
    let repeated = judge::is_repeated(o.role, in_front, walk.counts, local);
    let unknown = judge::is_unknown(o.role, symbol);
    if let Some(fault) = judge::name_fault(source, *o, repeated, unknown) {
        return Err(fault);
    }
    go_on(walk, source, *o, symbol)?;
    Ok(())
}

// No name yet.
fn start<'a>(alloc: Memory) -> Walk<'a>
    ensures locals { (q : List ℕ) → found result.locals q ≡ None }
    ensures counts { result.counts ≡ counts_in [] }
    ensures variables { result.variables.items ≡ [] }
    ensures calls { result.calls.items ≡ [] }
    ensures targets { result.targets.items ≡ [] }
    ensures wrong_use { result.wrong_use ≡ None }
    ensures too_many { result.too_many ≡ None }
{
    let counts = Counts {
        shared: 0,
        functions: 0,
        tasks: 0,
        locals: 0,
    };
    Walk {
        locals: empty(alloc),
        counts,
        variables: Vec::new(alloc),
        calls: Vec::new(alloc),
        targets: Vec::new(alloc),
        wrong_use: None,
        too_many: None,
    }
}

/// All names, from the first of the text to the last; or the first that is repeated or unknown.
pub fn walk_names<'a>(
    alloc: Memory,
    source: &'a [u8],
    names: &[Occurrence],
    globals: &Table<'a, Global>,
) -> Result<Walk<'a>, CheckFault>
    requires short { length source.now < 2 ^ 32 - 1 }
    requires few { length names.now < 2 ^ 32 - 1 }
    requires globals { HasGlobals source.now names.now globals.now }
    ensures ok { IfOk result (λ w. IsWalked source.now names.now names.now w) }
    ensures refused { IfErr result (λ e. (e ≡ CheckFault.Memory) ⊎ (faults.first_fault (faults.name_fault source.now names.now) names.now ≡ Some e)) }
{
    let mut walk = start(alloc);
    for i in (0..names.len()).rev() {
        step(
            &mut walk,
            source,
            globals,
            &names[i],
            names.len() - 1 - i,
            i,
        )?;
    }
    Ok(walk)
}

#[tactic(auto, using(crate::proofs::Tables::named_none))]
fn set_global<'a>(
    globals: &mut Table<'a, Global>,
    name: &'a [u8],
    global: Option<Global>,
) -> Result<(), AllocError>
    ensures { IfOk result (λ _. (q : List ℕ) → found globals.new q ≡ option_or (found globals.old q) (scope.if_named (bytes_eq name.now q) global)) }
{
    match global {
        Some(global) => set_first(globals, name, global),
        None => Ok(()),
    }
}

/// The first shared variable, function or task of each name.
pub fn globals_of<'a>(
    alloc: Memory,
    source: &'a [u8],
    names: &[Occurrence],
) -> Result<Table<'a, Global>, AllocError>
    requires { length names.now < 2 ^ 32 - 1 }
    ensures { IfOk result (λ table. HasGlobals source.now names.now table) }
{
    let mut globals = empty(alloc);
    let mut counts = Counts {
        shared: 0,
        functions: 0,
        tasks: 0,
        locals: 0,
    };
    for i in (0..names.len()).rev() {
        let o = &names[i];
        let global = judge::global_by(o.role, names.len() - 1 - i, counts);
        set_global(&mut globals, text_of(source, o.span), global)?;
        counts = judge::counted(counts, o.role);
    }
    Ok(globals)
}
