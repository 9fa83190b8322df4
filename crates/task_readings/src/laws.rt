//! Laws of what attempts take. The functions do nothing: their contracts are the laws.

ghost use Rattle.task_readings.specs.Laws.{AttemptsTakeFew, TransitionsTakeFew};

/// An attempt takes at most the readings of its task's text, and never lacks one where it has those.
pub fn attempts_take_few()
    ensures { AttemptsTakeFew }
{}

/// A transition was given at most the readings of its task's text, and emits at most the text's words.
pub fn transitions_take_few()
    ensures { TransitionsTakeFew }
{}
