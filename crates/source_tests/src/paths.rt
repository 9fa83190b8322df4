//! Trees that no source has: a declaration behind a read, and the last number of a local.
ghost use Rattle.std.specs.Prelude.{◌<◌};

use alp_text::Span;
use path_checks::first_unassigned;
use std::alloc::{AllocError, Global};
use std::test::Fail;
use task_ast::{
    CheckedSource, Expr, FunctionName, Stmt, TaskDeclaration, TaskName, Variable, VariableName,
    WordType,
};

type Statement = Stmt<VariableName, TaskName, FunctionName>;

fn place(from: usize) -> Span
    requires { from < 1000000 }
{
    Span { from, to: from + 1 }
}

fn local(from: usize, number: u32) -> VariableName
    requires { from < 1000000 }
{
    VariableName {
        span: place(from),
        variable: Variable::Local(number),
        word_type: WordType::Int,
    }
}

fn emit(name: VariableName) -> Statement {
    Stmt::Emit(Expr::Name(name))
}

fn source(alloc: Global, body: Vec<Statement>) -> Result<CheckedSource, AllocError> {
    let task = TaskDeclaration {
        name: place(5),
        body,
    };
    Ok(CheckedSource {
        shared: vec![in alloc]?,
        functions: vec![in alloc]?,
        tasks: vec![in alloc; task]?,
        entry: TaskName {
            span: place(9),
            task: 0,
        },
    })
}

// A declaration without a value makes its local unassigned for the next turn.
#[test]
fn turns_that_unset_what_they_read(rt: HostRuntime) -> Result<(), Fail> {
    let alloc = rt.alloc();
    for turns in 1..4u16 {
        let unset = Stmt::Declare(WordType::Int, local(40, 1), None);
        let variable = local(20, 0);
        let turn = Stmt::For {
            variable,
            from: 0,
            tested: variable,
            below: turns,
            stepped: variable,
            body: vec![in alloc; emit(local(30, 1)), unset]?,
        };
        let set = Stmt::Assign(local(10, 1), Expr::Number(1));
        let first = if turns == 1 { None } else { Some(place(30)) };
        let tree = source(alloc, vec![in alloc; set, turn]?)?;
        assert_eq!(rt; first_unassigned(alloc, &tree)?, first, "{turns} turns");
    }
    Ok(())
}

// A local that nothing assigns takes no memory, whatever its number.
#[test]
fn the_last_local(rt: HostRuntime) -> Result<(), Fail> {
    let alloc = rt.alloc();
    let body = vec![in alloc; emit(local(30, 4294967295)), emit(local(40, 0))]?;
    assert_eq!(rt;
        first_unassigned(alloc, &source(alloc, body)?)?,
        Some(place(30))
    );
    Ok(())
}
