//! Tests of codec, board, run and assembler, as far as no run of the program shows them, against words and counts from outside.
#![tactic(auto)]

#[cfg(test)]
mod boards;
#[cfg(test)]
mod codec;
#[cfg(test)]
mod lines;
#[cfg(test)]
mod radios;
#[cfg(test)]
mod runs;
