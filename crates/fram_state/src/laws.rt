//! Laws of the answers about states, as contracts of functions that do nothing.
ghost use Rattle.fram_state.specs.Laws.{AnswersAreOne, BelongingStatesAreTaken, NoMigrationIsRefused, OtherWordsAreFirst};

/// About an image and a state there is one answer.
pub fn answers_are_one()
    ensures { AnswersAreOne }
{}

/// A state that belongs to an image is taken.
pub fn belonging_states_are_taken()
    ensures { BelongingStatesAreTaken }
{}

/// The word that isn't the image's, and that is told, is the first such word by its address.
pub fn other_words_are_first()
    ensures { OtherWordsAreFirst }
{}

/// A state that can be migrated is refused by no fault, but where memory was refused.
pub fn no_migration_is_refused()
    ensures { NoMigrationIsRefused }
{}
