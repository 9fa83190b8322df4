use alp_text::Span;
use path_sums::{access_summary, call_summaries, is_private, is_written, reaches_end};
use std::test::Fail;
use task_ast::{
    Args, Arm, Expr, FunctionDeclaration, FunctionName, Stmt, TaskName, Variable, VariableName,
    WordType,
};

type Statement = Stmt<VariableName, TaskName, FunctionName>;

const PLACE: Span = Span { from: 1, to: 2 };

fn shared(number: u32) -> VariableName {
    VariableName {
        span: PLACE,
        variable: Variable::Shared(number),
        word_type: WordType::Unsigned,
    }
}

// A scalar that each path writes first stays in place; one that some path leaves, and some path writes, is private.
#[test]
fn in_place_and_private(rt: HostRuntime) -> Result<(), Fail> {
    let alloc = rt.alloc();
    let branch = Arm {
        condition: Expr::Name(shared(0)),
        block: vec![in alloc; Stmt::Assign(shared(1), Expr::Number(1))]?,
    };
    let leave: Statement = Stmt::TransitionTo(
        PLACE,
        TaskName {
            span: PLACE,
            task: 0,
        },
    );
    let body = vec![in alloc;
        Stmt::Assign(shared(0), Expr::Sense),
        Stmt::If(vec![in alloc; branch]?, None),
        leave,
    ]?;
    assert!(rt; is_written(&[], Variable::Shared(0), &body));
    assert!(rt; !is_private(&[], Variable::Shared(0), &body));
    assert!(rt; is_private(&[], Variable::Shared(1), &body));
    assert!(rt; !is_written(&[], Variable::Local(1), &body));
    assert!(rt; access_summary(&[], Variable::Shared(1), &body).transitions_untouched);
    assert!(rt; !reaches_end(&body));
    Ok(())
}

// A call does to a shared variable what the paths of its function do up to their `return`.
#[test]
fn a_call_does_what_its_function_does(rt: HostRuntime) -> Result<(), Fail> {
    let alloc = rt.alloc();
    let counts = FunctionDeclaration {
        word_type: WordType::Unsigned,
        name: PLACE,
        parameters: Vec::new(alloc),
        body: vec![in alloc;
            Stmt::Assign(shared(1), Expr::Name(shared(0))),
            Stmt::Return(PLACE, Expr::Number(1)),
            Stmt::Assign(shared(2), Expr::Number(2)),
        ]?,
    };
    let functions = vec![in alloc; counts]?;
    let name = FunctionName {
        span: PLACE,
        function: 0,
        word_type: WordType::Unsigned,
    };
    let body = vec![in alloc; Stmt::Emit(Expr::Call(name, Args::End))]?;
    let of_first = call_summaries(alloc, Variable::Shared(0), &functions)?;
    let of_second = call_summaries(alloc, Variable::Shared(1), &functions)?;
    let of_third = call_summaries(alloc, Variable::Shared(2), &functions)?;
    assert!(rt; access_summary(&of_first, Variable::Shared(0), &body).exposed);
    assert!(rt; !is_written(&of_first, Variable::Shared(0), &body));
    assert!(rt; is_written(&of_second, Variable::Shared(1), &body));
    assert!(rt; !is_private(&of_second, Variable::Shared(1), &body));
    assert!(rt; !is_written(&of_third, Variable::Shared(2), &body));
    assert!(rt; reaches_end(&body));
    Ok(())
}
