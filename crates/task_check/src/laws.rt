//! A law of the checks' answers.

ghost use Rattle.task_check.specs.Laws.{OneAnswer};

/// A tree has one source with its names looked up; an accepted one is not refused; and all refusals are alike.
pub fn one_answer()
    ensures { OneAnswer }
{}
