//! Laws of the code of word programs. The functions do nothing: their contracts are the laws.

ghost use Rattle.word_code.specs.Laws.{CodeDoesAsProgram, RunsStayWithin, StarvingStaysWithin, RunsReadFromSp, StarvingReadsFromSp, CodeHasItsBytes};
ghost use Rattle.word_code.specs.Laws.{CodeHasItsWords, CodeIsInstructions, CodeKeepsToTheStack, RunsKeepTheStack, StarvingKeepsTheStack};
ghost use Rattle.word_code.specs.TaskForms.{CodeIsOfTaskForms, CodeNamesRamFrom};

/// The code of a whole program, where that of what it calls stands too, makes the program's effects within the cycles of the way that it takes, and
/// comes to the program's end: behind its jump, or to an instruction that wants a reading where none is left.
pub fn code_does_as_its_program()
    ensures { CodeDoesAsProgram }
{}

/// On the way SP stays between the addresses that the code keeps to, where these have room for the stack of the program and of what it calls.
pub fn code_keeps_to_its_stack()
    ensures does { CodeKeepsToTheStack }
    ensures runs { RunsKeepTheStack }
    ensures starves { StarvingKeepsTheStack }
{}

/// After any number of steps on the way, the effects so far are a prefix of all, and the cycles are within the bound.
pub fn effects_so_far_are_a_prefix()
    ensures runs { RunsStayWithin }
    ensures starves { StarvingStaysWithin }
{}

/// In front of each instruction on the way no word of RAM below SP is read: what stands there makes no difference.
pub fn runs_read_from_sp()
    ensures runs { RunsReadFromSp }
    ensures starves { StarvingReadsFromSp }
{}

/// The code of a program, and of a function's body, is no longer than the program's words say, and each of its instructions has its words.
pub fn code_has_its_words()
    ensures bytes { CodeHasItsBytes }
    ensures words { CodeHasItsWords }
    ensures instructions { CodeIsInstructions }
{}

/// The code of a program, and of a function's body, names no word of RAM below the lowest of its locals and of the frames of what it calls, sets SP no
/// lower, and reads and writes RAM else on the stack.
pub fn code_keeps_above_its_stack()
    ensures forms { CodeIsOfTaskForms }
    ensures ram { CodeNamesRamFrom }
{}
