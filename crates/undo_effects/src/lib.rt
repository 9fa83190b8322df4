//! What the undo runtime does to FRAM and to the receiver: start, first stores to elements, commit and recovery as functions from FRAM to effects.
//! An attempt works in the shared words themselves, and first lists what stood there; a boot puts that back.
#![tactic(auto)]
