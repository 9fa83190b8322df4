//! Laws of the word programs of accepted sources. The functions do nothing: their contracts are the laws.

ghost use Rattle.whole_programs.specs.Laws.{TasksAreWhole, ProgramsAreWhole, CallsAreTheirs, RoutinesAreLow, PrivatesAreFew};
ghost use Rattle.whole_programs.specs.Laws.{TasksKeepTheirStacks};

/// The word program of each task of an accepted source is whole, and its numbers are words: whatever its layout, there is
/// room for its locals and its stack, it reads no local before it has assigned it, and each way through it ends in the jump
/// to the commit.
pub fn tasks_are_whole()
    ensures { TasksAreWhole }
{}

/// The stack of each task, and those of what it calls, stay within the words of its stack, of which 16 are left to handlers.
pub fn tasks_keep_their_stacks()
    ensures { TasksKeepTheirStacks }
{}

/// The same of the programs of all tasks.
pub fn programs_are_whole()
    ensures { ProgramsAreWhole }
{}

/// Each call of a task, and of what it calls, is of the code of one of the functions that it reaches.
pub fn calls_are_theirs()
    ensures { CallsAreTheirs }
{}

/// The locals of each function that a task reaches stand in registers and in RAM.
pub fn routines_are_low()
    ensures { RoutinesAreLow }
{}

/// The private scalars of each task have at most as many words as its allowance counts.
pub fn privates_are_few()
    ensures { PrivatesAreFew }
{}
