//! Laws of checked trees. The functions do nothing: their contracts are the laws.

ghost use Rattle.checked_trees.specs.Laws.{SourcesAreWellFormed};

/// Each task and each function of a source that no check refuses is well-formed. Scalars stand without an index and arrays with one; each shared variable
/// is one that is declared, each local one of at most 256, and loops count in locals that their bodies don't assign. What is long is a shared
/// scalar, no index is long, nor is what a function gives, and no operator has operands that it doesn't take. Numbers are words or longs, calls have as
/// many values as their functions have parameters, and expressions have room on a stack of 513 words. No path reads an unassigned local; each path of a
/// task ends by a transition, and each of a function by a `return`.
pub fn sources_are_well_formed()
    ensures { SourcesAreWellFormed }
{}
