//! A law of the maps of sources. The function does nothing: its contract is the law.

ghost use Rattle.source_maps.specs.Laws.{MapsAreOfSources};
ghost use Rattle.source_maps.specs.Names.{NamesAreNames};

/// The names of a source's shared variables and tasks have 1 to 31 letters, digits and `_`, of which the first is no digit; all of
/// them differ; and each array has a word at least.
pub fn names_are_names()
    ensures { NamesAreNames }
{}

/// The map of a source keeps the rules of maps, and names the variables and the tasks of the source in order.
pub fn maps_are_of_sources()
    ensures { MapsAreOfSources }
{}
