//! Tests of the passes over sources, as far as no call of the program shows them: tokens, trees that no source has, steps of the
//! meaning, and places of a layout.
#![tactic(auto)]

#[cfg(test)]
mod drawn;
#[cfg(test)]
mod layouts;
#[cfg(test)]
mod passes;
#[cfg(test)]
mod paths;
#[cfg(test)]
mod sums;
#[cfg(test)]
mod tokens;
