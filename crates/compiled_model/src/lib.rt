//! A compiled source as the crash theorem takes it: its places, its states by addresses, and what its tasks are. It has no code.
#![tactic(auto)]
