//! Laws of layouts, as contracts of functions that do nothing.
ghost use Rattle.cost_bound.specs.declared.allowance.Allow.{Allow};
ghost use Rattle.cost_bound.specs.Allowance.{CheckedProgram, IsAllowed};
ghost use Rattle.memory_map.specs.declared.runtime.Logging.TheVariants.{Undo};
ghost use Rattle.privatise.specs.Laws.{LayoutsAreLogged, OneLayout, OneLayoutFor, AllRoutinesStand, AllFramesStand};

/// A source has one layout: the sizes and the order of its places leave no other.
pub fn one_layout()
    ensures { (p : CheckedProgram) (allow : Allow) → IsAllowed p allow → OneLayout p allow }
{}

/// A layout of a source with its runtime turned to undo is the source's layout for that runtime.
pub fn layouts_are_logged()
    ensures { LayoutsAreLogged }
{}

/// And it has no other for that.
pub fn one_logged_layout()
    ensures { (p : CheckedProgram) (allow : Allow) → IsAllowed p allow → OneLayoutFor Undo p allow }
{}

/// A task has a place for each function that it reaches.
pub fn routines_stand()
    ensures { AllRoutinesStand }
{}

/// In a task the frame of a function that is called is below that of what calls it, and all are within its stack.
pub fn frames_stand()
    ensures { AllFramesStand }
{}
