//! Laws of the locals of functions, as contracts of functions that do nothing.
ghost use Rattle.function_locals.specs.Laws.{AllLocalsStand, AllDepthsStand, ReachesGoOn};

/// Each function has its locals in registers behind those of all that it calls, and so has a task; none has more than eight.
pub fn locals_stand()
    ensures { AllLocalsStand }
{}

/// The frame of a function and those of all that it calls are within its depth, and what a task reaches is no deeper than what it calls.
pub fn depths_stand()
    ensures { AllDepthsStand }
{}

/// What a function calls is reached by all that reach the function.
pub fn reaches_go_on()
    ensures { ReachesGoOn }
{}
