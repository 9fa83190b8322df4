//! What holds of the layout of a source, as contracts of functions that do nothing.
ghost use Rattle.layout_facts.specs.Laws.{AddressesAre, EachIsOneWord, ElementsAreStores, ElementsStand, InPlaceByPaths, ListsHaveRoom, PlacesAreApart};
ghost use Rattle.layout_facts.specs.Laws.{LocalsAreLow, PlacesAreAsDeclared, PlacesAreDeclared, PrivatesAreLogged, PrivatesAreTheirs, RowsFitPlaces};
ghost use Rattle.layout_facts.specs.Laws.{ScalarsStand, SharedWordsAreOfVariables, TaskPlacesAreApart, TaskPlacesAreEven, TasksHaveRoom};
ghost use Rattle.layout_facts.specs.Laws.{TasksMatch, ViewHasTheirWords, WordsOfVariablesAreShared, WorldsHaveStates, WrittenArraysHaveCopies};

/// The places that the crash theorem takes stand apart.
pub fn places_are_apart()
    ensures { PlacesAreApart }
{}

/// The buffers have room for what each task lists and emits.
pub fn tasks_have_room()
    ensures { TasksHaveRoom }
{}

/// What the boot copies for a task is private there.
pub fn privates_are_theirs()
    ensures { PrivatesAreTheirs }
{}

/// What the undo runtime's start lists for a task are the words of its private scalars.
pub fn privates_are_logged()
    ensures { PrivatesAreLogged }
{}

/// The words that a task's program works on stand apart, and behind what it lists and emits.
pub fn task_places_are_apart()
    ensures { TaskPlacesAreApart }
{}

/// They stand at even addresses.
pub fn task_places_are_even()
    ensures { TaskPlacesAreEven }
{}

/// Different elements, of each array no more than there are stores to it, are no more than a task's list has beside its scalars.
pub fn elements_are_stores()
    ensures { ElementsAreStores }
{}

/// The commit list has room for the private scalars and for each element that a task may list.
pub fn lists_have_room()
    ensures { ListsHaveRoom }
{}

/// Each shared word is a word of a variable.
pub fn shared_words_are_of_variables()
    ensures { SharedWordsAreOfVariables }
{}

/// Each word of a variable is a shared word.
pub fn words_of_variables_are_shared()
    ensures { WordsOfVariablesAreShared }
{}

/// No two words stand at one address.
pub fn each_is_one_word()
    ensures { EachIsOneWord }
{}

/// The view of a state by addresses has the words of the variables' rows.
pub fn view_has_their_words()
    ensures { ViewHasTheirWords }
{}

/// Rows of the declared lengths have those of the places.
pub fn rows_fit_places()
    ensures { RowsFitPlaces }
{}

/// Where no commit is pending a world rests at the state that it has, and a pending commit leaves the state that the world has behind it.
pub fn worlds_have_states()
    ensures { WorldsHaveStates }
{}

/// Where elements, their copies and their version words stand.
pub fn elements_stand()
    ensures { ElementsStand }
{}

/// Where scalars and their copies stand.
pub fn scalars_stand()
    ensures { ScalarsStand }
{}

/// Places are of the kinds that the source declares.
pub fn places_are_declared()
    ensures { PlacesAreDeclared }
{}

/// A task's private scalars are those that its paths make private, and the arrays on the left of its assignments have copies.
pub fn tasks_match()
    ensures { TasksMatch }
{}

/// A scalar's address in a task is that of its copy where it is private there, else that of its word.
pub fn addresses_are_copies_or_words()
    ensures { AddressesAre }
{}

/// A task's places have what its source declares.
pub fn places_are_as_declared()
    ensures { PlacesAreAsDeclared }
{}

/// In a well-formed task each array that some path writes has copies.
pub fn written_arrays_have_copies()
    ensures { WrittenArraysHaveCopies }
{}

/// A task writes a scalar in place exactly where some path of it does, and the scalar isn't private there.
pub fn in_place_by_paths()
    ensures { InPlaceByPaths }
{}

/// The numbers of a task's locals, and of those of the functions that it reaches, are words.
pub fn locals_are_low()
    ensures { LocalsAreLow }
{}
