//! Laws of compiled tasks. The functions do nothing: their contracts are the laws.

ghost use Rattle.task_attempts.specs.Laws.{AttemptsStoreBelowCode, CompiledSourcesKeepTheLaws, TasksKeepTheirContract, TasksLeaveForTheCommit};
ghost use Rattle.task_attempts.specs.Laws.{SourcesTakeInOrder};
ghost use Rattle.task_attempts.specs.Laws.{TasksListFewWords};

/// From a started attempt on the word program of a task decides, or is short exactly where the task is.
pub fn tasks_keep_their_contract()
    ensures { TasksKeepTheirContract }
{}

/// A compiled source has all that the crash theorem needs.
pub fn compiled_sources_keep_the_laws()
    ensures { CompiledSourcesKeepTheLaws }
{}

/// An attempt stores to the runtime's words and to copies alone, and so never to the code.
pub fn attempts_store_below_code()
    ensures { AttemptsStoreBelowCode }
{}

/// From a started attempt on the word program of a task leaves for the commit, or is short of readings.
pub fn tasks_leave_for_the_commit()
    ensures { TasksLeaveForTheCommit }
{}

/// Where it leaves under redo, its commit list has no more entries, and names no more words, than the task needs cycles for.
pub fn tasks_list_few_words()
    ensures { TasksListFewWords }
{}

/// Where a source takes events, the starts, tasks and commits of its runs take words of the ring in order: EC is cleared first, each answer comes of
/// two looks, a transition freezes TAIL + EC in SE, and the commit moves TAIL there.
pub fn sources_take_in_order()
    ensures { SourcesTakeInOrder }
{}
