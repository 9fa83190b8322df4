//! Laws of a run and its charges. The functions do nothing: their contracts are the laws.

ghost use Rattle.run_charges.specs.Laws.{FrontsAreCharges, ProgramsRun, ProgramsRunAlone, FrontsAreCharged, HandlersAreBrief, StackHasRoom, InterruptsStayOn};
ghost use Rattle.run_charges.specs.Laws.{BoardsAreWatched};

use crash_rules::Compiled;

/// Each front of a run of a program, and of the handler of events beside it, is charges, the last one up to some step.
pub fn fronts_are_charges()
    ensures { FrontsAreCharges }
{}

/// Where a program stands in FRAM, with the handler behind it if it takes events, and its charges leave it as it is, never go
/// astray and leave the port EVENT alone, each moment of a run is the program's or the handler's, whatever events arise; none is the
/// handler's where the program takes no events; and each front of it is charges of the program, as the crash theorem has them, of
/// which the handler takes 48 cycles and 16 steps at most for each acceptance.
pub fn fronts_are_charged<S: Compiled>()
    ensures runs { ProgramsRun S.program }
    ensures alone { ProgramsRunAlone S.program }
    ensures charged { FrontsAreCharged S.program }
    ensures brief { HandlersAreBrief S.program }
{}

/// At each boundary of a run at which the CPU accepts interrupts SP stands where the handler has room below it. Once it accepts them in
/// a charge, it does so at each later boundary at which the handler doesn't run.
pub fn interrupts_have_room<S: Compiled>()
    ensures stack { StackHasRoom S.program }
    ensures stay { InterruptsStayOn S.program }
{}

/// At each boundary of a run at which the handler doesn't run the registers are as those of the program may be.
pub fn boards_are_watched<S: Compiled>()
    ensures { BoardsAreWatched S.program }
{}
