//! Laws of memory maps, as contracts of functions that do nothing.
ghost use Rattle.memory_map.specs.MemoryMap.{MemoryMap};
ghost use Rattle.memory_map.specs.Places.{IsLaidOut};
ghost use Rattle.memory_map.specs.Spots.{SpotsAreApart};
ghost use Rattle.memory_map.specs.Laws.{AreApart, AreEven, PartsInFram, WordsStand, WordsDiffer, HomesAreApart, CopiesAreApart, VersionsAreApart};

/// Each region begins at an even address behind the one before, and all are in the FRAM.
#[tactic(auto, using(crate::proofs::Parts::apart_of, crate::proofs::Parts::even_of, crate::proofs::Parts::parts_in_fram))]
pub fn parts_are_apart()
    ensures apart { (m : MemoryMap) → IsLaidOut m → AreApart m }
    ensures even { (m : MemoryMap) → IsLaidOut m → AreEven m }
    ensures fram { (m : MemoryMap) → IsLaidOut m → PartsInFram m }
{}

/// The words of the runtime are words of the FRAM, in front of all else.
#[tactic(auto, using(crate::proofs::Parts::words_stand))]
pub fn words_are_fram_words()
    ensures { WordsStand }
{}

/// Each word of the runtime has an address of its own.
#[tactic(auto, using(crate::proofs::Parts::words_differ))]
pub fn words_differ()
    ensures { WordsDiffer }
{}

/// The words of a variable stand behind those of each variable that is declared before it.
#[tactic(auto, using(crate::proofs::Apart::homes_apart))]
pub fn homes_are_apart()
    ensures { (m : MemoryMap) → IsLaidOut m → HomesAreApart m }
{}

/// The copies of a variable stand behind those of each variable that is declared before it, and behind all shared words.
pub fn copies_are_apart()
    ensures { (m : MemoryMap) → IsLaidOut m → CopiesAreApart m }
{}

/// The version words of a variable stand behind those of each variable that is declared before it, and in front of all shared words.
#[tactic(auto, using(crate::proofs::Apart::versions_apart))]
pub fn versions_are_apart()
    ensures { (m : MemoryMap) → IsLaidOut m → VersionsAreApart m }
{}

/// Each word that a task works on, a word of a scalar as the task has it, an element, a copy or a version word, has an address of its own, behind
/// the buffers.
#[tactic(auto, using(crate::proofs::Spots::spots_are_apart))]
pub fn spots_are_apart()
    ensures { SpotsAreApart }
{}
