//! What the runtime does to FRAM and to the receiver: commit, attempt start and boot as functions from FRAM to effects.
#![tactic(auto)]
