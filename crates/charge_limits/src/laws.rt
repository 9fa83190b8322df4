//! Laws of what charges take. The functions do nothing: their contracts are the laws.

ghost use Rattle.charge_limits.specs.Laws.{ReadingsAreFew, WordsAreFew};

/// Since the last power-up or done no more readings were taken than the text of the task has that CUR named there, and none before a pending commit was done.
pub fn readings_are_few()
    ensures { ReadingsAreFew }
{}

/// Since the last power-up or done no more words were offered to the receiver than the text of the task emits on the path with the most whose transition was
/// due there. While the commit isn't done with which a saved state began, of which nobody knows the task, no more than the buffer has room for.
pub fn words_are_few()
    ensures { WordsAreFew }
{}
