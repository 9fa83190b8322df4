//! A source that the checks accept.

ghost use Rattle.std.specs.Prelude.{◌≡◌, ◌≤◌, length, true, None};
ghost use Rattle.task_ast.specs.View.{program_of};
ghost use Rattle.path_checks.specs.Firsts.{IsFirst};
ghost use Rattle.path_checks.specs.Loops.{BadLoopAt};
ghost use Rattle.path_checks.specs.Unassigned.{UnassignedAt};
ghost use Rattle.path_checks.specs.Ends.{NoReturnAt, NoTransitionAt};
ghost use Rattle.task_check.specs.Limits.{are_numbered};
ghost use Rattle.task_check.specs.Placed.{all_stand};

use task_ast::CheckedSource;

/// A source that the checks accept, with its names looked up: each variable, each function and each task by its number, which is in range; a called function
/// stands in front. It has at most 64 functions, 64 tasks, 256 shared variables, and 256 locals a function or a task; no path of these reads an unassigned
/// local or reaches the end of its body.
#[derive(Drop)]
pub struct Checked {
    pub(crate) source: CheckedSource,
    pub(crate) task_lines: Vec<u32>,
    pub ghost few_tasks: { length source.tasks.items ≤ 64 },
    pub ghost few_functions: { length source.functions.items ≤ 64 },
    pub ghost few_shared: { length source.shared.items ≤ 256 },
    pub ghost numbered: { are_numbered (program_of source) ≡ true },
    pub ghost placed: { all_stand (program_of source) ≡ true },
    pub ghost loops: { IsFirst None (BadLoopAt (program_of source)) },
    pub ghost assigned: { IsFirst None (UnassignedAt (program_of source)) },
    pub ghost returns: { IsFirst None (NoReturnAt (program_of source)) },
    pub ghost transitions: { IsFirst None (NoTransitionAt (program_of source)) },
    pub ghost lines: { length task_lines.items ≡ length source.tasks.items },
}

impl Checked {
    /// The source, its names looked up.
    pub fn source(&self) -> &CheckedSource
        ensures { result.now ≡ self.now.source }
    {
        &self.source
    }

    /// The line of each task's name in its declaration, from 1.
    pub fn task_lines(&self) -> &[u32]
        ensures { result.now ≡ self.now.task_lines.items }
    {
        self.task_lines.as_slice()
    }
}
