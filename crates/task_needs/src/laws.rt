//! Laws of what tasks need. The functions do nothing: their contracts are the laws.

ghost use Rattle.task_needs.specs.Laws.{AttemptsAreCounted, OwnCommitsAreCounted, PendingCommitsAreCounted, TasksKeepToTheirWays};

/// Where a task is entered, its code does as its word program within the cycles of its dearest way, and keeps SP in its stack.
pub fn tasks_keep_to_their_ways()
    ensures { TasksKeepToTheirWays }
{}

/// A need has the cycles of a boot, under undo with the entries put back that an attempt of the task left which was cut; of a start, of the task's code as far
/// as its path goes, and of its commit.
pub fn attempts_are_counted()
    ensures { AttemptsAreCounted }
{}

/// And those of a boot that finds the task's commit pending.
pub fn own_commits_are_counted()
    ensures { OwnCommitsAreCounted }
{}

/// The greatest of the costs has those of a boot that finds a commit pending of whatever tasks.
pub fn pending_commits_are_counted()
    ensures { PendingCommitsAreCounted }
{}
