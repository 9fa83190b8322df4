//! Laws of a compiled source's bound and capacities. The functions do nothing: their contracts are the laws.

ghost use Rattle.source_values.specs.Runs.{State};
ghost use Rattle.crash_rules.specs.Runs.{Program};
ghost use Rattle.compiled_bounds.specs.Laws.{BoundIsTheSources, CapacitiesAreKept, LoggedTasksKeepToTheBound, NeedsKeepToTheBound, TableCoversNeeds};
ghost use Rattle.compiled_bounds.specs.Laws.{TasksKeepToTheBound};

/// The code of a compiled source as the laws see it.
pub trait Coded {
    /// Its code.
    ghost program: { Program };
}

/// The bound of a compiled source is that of its allowance.
pub fn bound_is_the_sources()
    ensures { BoundIsTheSources }
{}

/// The bound pays for a boot, the clearing of the versions, a whole attempt of any task and its commit; and for a boot and any commit that
/// the list and the buffer have room for.
pub fn tasks_keep_to_the_bound()
    ensures { TasksKeepToTheBound }
{}

/// Under undo it pays for a boot that puts back all that a task may list, a start, a whole attempt and its commit.
pub fn logged_tasks_keep_to_the_bound()
    ensures { LoggedTasksKeepToTheBound }
{}

/// Under each runtime a task's part of the bound pays for what the task needs beside its code, by the code that is linked.
pub fn table_covers_needs()
    ensures { TableCoversNeeds }
{}

/// The bound pays for what each task needs, and for a commit that was pending at the start.
pub fn needs_keep_to_the_bound()
    ensures { NeedsKeepToTheBound }
{}

/// At each board of a run the commit list and the emit buffer are within their capacities, and no version word is above VER.
pub fn capacities_are_kept<S: Coded>()
    ensures { CapacitiesAreKept S.program }
{}
