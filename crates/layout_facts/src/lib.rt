//! What the layout of a source gives to the layers above: to what FRAM stands for, to the lowering, and of the source's variables
//! by their addresses. It has no code.
#![tactic(auto)]

mod laws;

pub use laws::{
    addresses_are_copies_or_words, each_is_one_word, elements_are_stores, elements_stand,
    in_place_by_paths, lists_have_room, locals_are_low, places_are_apart, places_are_as_declared,
    places_are_declared, privates_are_logged, privates_are_theirs, rows_fit_places, scalars_stand,
    shared_words_are_of_variables, task_places_are_apart, task_places_are_even, tasks_have_room,
    tasks_match, view_has_their_words, words_of_variables_are_shared, worlds_have_states,
    written_arrays_have_copies,
};
