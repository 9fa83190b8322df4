//! Laws of runs and paths, as contracts of functions that do nothing.

ghost use Rattle.path_runs.specs.Laws.{RunsGoOnAlongPaths, FirstWritesForget};

/// A statement that goes on has a path that goes on.
pub fn runs_go_on_along_paths()
    ensures { RunsGoOnAlongPaths }
{}

/// Where each path of a block writes a scalar before it reads it and before its transition, it makes no difference which words
/// the scalar held.
pub fn first_writes_forget()
    ensures { FirstWritesForget }
{}
