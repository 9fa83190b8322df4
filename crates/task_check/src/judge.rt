//! What a name stands for, and what is wrong with it, by what is known of the names in front.

ghost use Rattle.std.specs.Prelude.{◌≡◌, ◌+◌, ◌<◌, ◌-◌, ◌^◌, length};
ghost use Rattle.std.specs.Option.{option_or};
ghost use Rattle.task_check.specs.Scope as scope;
ghost use Rattle.task_check.specs.LookedUp as looked_up;
ghost use Rattle.task_check.specs.Faults as faults;
ghost use Rattle.task_check.specs.declared.fault.CheckFault.TheVariants as fault;

use crate::fault::{CheckFault, Kept};
use crate::occurrence::{Occurrence, Role};
use crate::symbol::{Counts, Global, Local, Symbol};
use crate::text::line_from;
use task_ast::{Extent, WordType};

fn shared_symbol(number: u32, word_type: WordType, extent: Extent) -> Symbol
    ensures { result ≡ scope.shared_symbol number word_type extent }
{
    match extent {
        Extent::Scalar(_) | Extent::Long(_) => Symbol::Scalar { number, word_type },
        Extent::Array(_) => Symbol::Array { number, word_type },
    }
}

/// The shared variable, the function or the task that is declared by this role.
pub fn global_by(role: Role, front: usize, counts: Counts) -> Option<Global>
    ensures { result ≡ scope.global_with role front counts.shared counts.functions counts.tasks }
{
    match role {
        Role::Shared(word_type, extent) => Some(Global {
            front,
            symbol: shared_symbol(counts.shared, word_type, extent),
        }),
        Role::Function(word_type, parameters) => Some(Global {
            front,
            symbol: Symbol::Function {
                number: counts.functions,
                word_type,
                parameters,
            },
        }),
        Role::Task => Some(Global {
            front,
            symbol: Symbol::Task {
                number: counts.tasks,
            },
        }),
        _ => None,
    }
}

/// The local that is declared by this role.
pub fn local_by(role: Role, counts: Counts) -> Option<Local>
    ensures { result ≡ scope.local_with role counts.functions counts.tasks counts.locals }
{
    match role {
        Role::Local {
            word_type,
            begin,
            end,
            extra: _,
        } => Some(Local {
            functions: counts.functions,
            tasks: counts.tasks,
            number: counts.locals,
            word_type,
            begin,
            end,
        }),
        _ => None,
    }
}

fn known_local(behind: usize, local: Local) -> Option<Symbol>
    ensures { result ≡ scope.known_local behind local }
{
    if local.end <= behind && behind < local.begin {
        Some(Symbol::Local {
            number: local.number,
            word_type: local.word_type,
        })
    } else {
        None
    }
}

fn known_symbol(known: u32, symbol: Symbol) -> Option<Symbol>
    ensures { result ≡ scope.known_symbol known symbol }
{
    match symbol {
        Symbol::Function { number, .. } => { if number < known { Some(symbol) } else { None } }
        Symbol::Scalar { .. } | Symbol::Array { .. } | Symbol::Task { .. } | Symbol::Local { .. } =>
            Some(symbol),
    }
}

fn or_global(known: u32, symbol: Option<Symbol>, global: Option<Global>) -> Option<Symbol>
    ensures { result ≡ scope.or_global known symbol global }
{
    match (symbol, global) {
        (Some(symbol), _) => Some(symbol),
        (None, Some(global)) => known_symbol(known, global.symbol),
        (None, None) => None,
    }
}

/// How many functions are known at a place: all in a task, and in a function those in front of it.
pub fn known_functions(counts: Counts) -> u32
    ensures { result ≡ scope.known_functions counts.functions counts.tasks }
{
    if counts.tasks == 0 {
        counts.functions.saturating_sub(1)
    } else {
        counts.functions
    }
}

/// What a name stands for with so many known functions and so many names behind.
pub fn meaning(
    known: u32,
    behind: usize,
    local: Option<Local>,
    global: Option<Global>,
) -> Option<Symbol>
    ensures { result ≡ scope.meaning known behind local global }
{
    match local {
        Some(local) => or_global(known, known_local(behind, local), global),
        None => or_global(known, None, global),
    }
}

/// What a name stands for by its role: a local that is declared, or what a use means.
pub fn symbol_by(role: Role, locals: u32, found: Option<Symbol>) -> Option<Symbol>
    ensures { result ≡ looked_up.symbol_by role locals found }
{
    match role {
        Role::Local { word_type, .. } => Some(Symbol::Local {
            number: locals,
            word_type,
        }),
        Role::Scalar | Role::Element | Role::Counter | Role::Call(_) | Role::Target => found,
        Role::Shared(_, _) | Role::Function(_, _) | Role::Task | Role::Operand { .. } => None,
    }
}

/// Whether it stands in front of a place with so many names in front.
pub fn stands_in_front(front: usize, global: Option<Global>) -> bool
    ensures { result ≡ scope.stands_in_front front global }
{
    match global {
        Some(global) => global.front < front,
        None => false,
    }
}

fn is_of_body(counts: Counts, local: Option<Local>) -> bool
    ensures { result ≡ faults.is_of_body counts.functions counts.tasks local }
{
    match local {
        Some(local) => local.functions == counts.functions && local.tasks == counts.tasks,
        None => false,
    }
}

/// Whether a declared name is repeated.
pub fn is_repeated(role: Role, global: bool, counts: Counts, local: Option<Local>) -> bool
    ensures { result ≡ faults.is_repeated role global counts.functions counts.tasks local }
{
    match role {
        Role::Shared(_, _) | Role::Function(_, _) | Role::Task => global || local.is_some(),
        Role::Local { .. } => global || is_of_body(counts, local),
        _ => false,
    }
}

/// Whether a used name is unknown.
pub fn is_unknown(role: Role, symbol: Option<Symbol>) -> bool
    ensures { result ≡ faults.is_unknown role symbol }
{
    match role {
        Role::Scalar | Role::Element | Role::Counter | Role::Call(_) | Role::Target =>
            symbol.is_none(),
        _ => false,
    }
}

/// A repeated name, or else an unknown one.
pub fn name_fault(source: &[u8], o: Occurrence, repeated: bool, unknown: bool) -> Option<CheckFault>
    requires { length source.now < 2 ^ 32 - 1 }
    ensures { result ≡ faults.name_fault_if source.now o repeated unknown }
{
    let name = o.span;
    if repeated {
        let line = line_from(source, name.from);
        return Some(CheckFault::RepeatedName { line, name });
    }
    if unknown {
        let line = line_from(source, name.from);
        return Some(CheckFault::UnknownName { line, name });
    }
    None
}

fn is_no_word(symbol: Option<Symbol>) -> bool
    ensures { result ≡ faults.is_no_word symbol }
{
    matches!(
        symbol,
        Some(Symbol::Task { .. } | Symbol::Function { .. } | Symbol::Array { .. })
    )
}

fn is_no_array(symbol: Option<Symbol>) -> bool
    ensures { result ≡ faults.is_no_array symbol }
{
    !matches!(symbol, Some(Symbol::Array { .. }))
}

fn is_no_task(symbol: Option<Symbol>) -> bool
    ensures { result ≡ faults.is_no_task symbol }
{
    !matches!(symbol, Some(Symbol::Task { .. }))
}

fn is_no_call(count: usize, symbol: Option<Symbol>) -> bool
    ensures { result ≡ faults.is_no_call count symbol }
{
    match symbol {
        Some(Symbol::Function { parameters, .. }) => parameters != count,
        _ => true,
    }
}

fn wrong_use_if(source: &[u8], o: Occurrence, test: bool, kept: Kept) -> Option<CheckFault>
    requires { length source.now < 2 ^ 32 - 1 }
    ensures { result ≡ faults.fault_if test (fault.WrongUse (faults.line_at source.now o) kept) }
{
    if test {
        let line = line_from(source, o.span.from);
        Some(CheckFault::WrongUse { line, kept })
    } else {
        None
    }
}

fn bad_length_if(source: &[u8], o: Occurrence, test: bool) -> Option<CheckFault>
    requires { length source.now < 2 ^ 32 - 1 }
    ensures { result ≡ faults.fault_if test (fault.BadLength (faults.line_at source.now o) o.span) }
{
    if test {
        let name = o.span;
        let line = line_from(source, name.from);
        Some(CheckFault::BadLength { line, name })
    } else {
        None
    }
}

// A name that is used as what it is not, what its operands forbid, or an array of no words.
fn use_fault(source: &[u8], o: Occurrence, symbol: Option<Symbol>) -> Option<CheckFault>
    requires { length source.now < 2 ^ 32 - 1 }
    ensures { result ≡ faults.use_fault_by source.now o o.role symbol }
{
    let kept = Kept::Name(o.span);
    match o.role {
        Role::Scalar | Role::Counter => wrong_use_if(source, o, is_no_word(symbol), kept),
        Role::Element => wrong_use_if(source, o, is_no_array(symbol), kept),
        Role::Call(count) => wrong_use_if(source, o, is_no_call(count, symbol), kept),
        Role::Target => wrong_use_if(source, o, is_no_task(symbol), kept),
        Role::Operand { refused, kept } => wrong_use_if(source, o, refused, kept),
        Role::Shared(_, Extent::Array(words)) => bad_length_if(source, o, words == 0),
        Role::Shared(_, Extent::Scalar(_) | Extent::Long(_))
        | Role::Function(_, _)
        | Role::Task
        | Role::Local { .. } => None,
    }
}

/// The first such fault, if one is found already, or else that of one more name. Lines are counted for the first fault alone.
pub fn first_use_fault(
    first: Option<CheckFault>,
    source: &[u8],
    o: Occurrence,
    symbol: Option<Symbol>,
) -> Option<CheckFault>
    requires { length source.now < 2 ^ 32 - 1 }
    ensures { result ≡ option_or first (faults.use_fault_by source.now o o.role symbol) }
{
    match first {
        Some(fault) => Some(fault),
        None => use_fault(source, o, symbol),
    }
}

fn is_too_many(role: Role, counts: Counts) -> bool
    ensures { result ≡ faults.is_too_many role counts.shared counts.functions counts.tasks counts.locals }
{
    match role {
        Role::Shared(_, _) => counts.shared == 256,
        Role::Function(_, _) => counts.functions == 64,
        Role::Task => counts.tasks == 64,
        Role::Local { extra, .. } => extra || counts.locals == 256,
        _ => false,
    }
}

fn limit_fault(source: &[u8], o: Occurrence, counts: Counts) -> Option<CheckFault>
    requires { length source.now < 2 ^ 32 - 1 }
    ensures { result ≡ faults.fault_if (faults.is_too_many o.role counts.shared counts.functions counts.tasks counts.locals)
        (fault.TooMany (faults.line_at source.now o)) }
{
    if is_too_many(o.role, counts) {
        let line = line_from(source, o.span.from);
        Some(CheckFault::TooMany { line })
    } else {
        None
    }
}

/// The first declared name that is one too many, if one is found already, or else one more name if it is.
pub fn first_limit_fault(
    first: Option<CheckFault>,
    source: &[u8],
    o: Occurrence,
    counts: Counts,
) -> Option<CheckFault>
    requires { length source.now < 2 ^ 32 - 1 }
    ensures { result ≡ option_or first (faults.fault_if (faults.is_too_many o.role counts.shared counts.functions counts.tasks counts.locals)
        (fault.TooMany (faults.line_at source.now o))) }
{
    match first {
        Some(fault) => Some(fault),
        None => limit_fault(source, o, counts),
    }
}

/// The counts after one more name.
pub fn counted(counts: Counts, role: Role) -> Counts
    requires shared { counts.shared < 2 ^ 32 - 1 }
    requires functions { counts.functions < 2 ^ 32 - 1 }
    requires tasks { counts.tasks < 2 ^ 32 - 1 }
    requires locals { counts.locals < 2 ^ 32 - 1 }
    ensures shared { result.shared ≡ counts.shared + scope.one_shared role }
    ensures functions { result.functions ≡ counts.functions + scope.one_function role }
    ensures tasks { result.tasks ≡ counts.tasks + scope.one_task role }
    ensures locals { result.locals ≡ scope.locals_after counts.locals role }
{
    match role {
        Role::Shared(_, _) => Counts {
            shared: counts.shared + 1,
            ..counts
        },
        Role::Function(_, _) => Counts {
            functions: counts.functions + 1,
            locals: 0,
            ..counts
        },
        Role::Task => Counts {
            tasks: counts.tasks + 1,
            locals: 0,
            ..counts
        },
        Role::Local { .. } => Counts {
            locals: counts.locals + 1,
            ..counts
        },
        _ => counts,
    }
}
