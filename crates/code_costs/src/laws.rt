//! Laws of what code costs. The functions do nothing: their contracts are the laws.

ghost use Rattle.code_costs.specs.Laws.{CodeKeepsToItsWays};

/// The code of a whole program makes the program's effects within the cycles of its dearest way, and comes to the program's end: behind its jump, or to
/// an instruction that wants a reading where none is left. On the way SP stays where its stack has room.
pub fn code_keeps_to_its_ways()
    ensures { CodeKeepsToItsWays }
{}
