//! Laws of a board and its program's machine. The functions do nothing: their contracts are the laws.

ghost use Rattle.program_view.specs.Laws.{InstructionsAreThePrograms, AcceptancesBegin, HandlersGoOn};

/// An instruction does on a board as on the machine that the board shows, or that ends by a bus fault; and behind it the board shows the
/// machine's next state, where SP moves as the rules of interrupts have it.
pub fn instructions_are_the_programs()
    ensures { InstructionsAreThePrograms }
{}

/// From an acceptance to its return the handler leaves the program's machine as it is.
pub fn handler_leaves_the_program()
    ensures begins { AcceptancesBegin }
    ensures goes_on { HandlersGoOn }
{}
