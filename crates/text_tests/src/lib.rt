//! Tests of words, numbers and files, and of what no call of the program shows of texts and its own words.
#![tactic(auto)]

#[cfg(test)]
mod command_lines;
#[cfg(test)]
mod files;
#[cfg(test)]
mod gathered;
#[cfg(test)]
mod images;
#[cfg(test)]
mod numbers;
#[cfg(test)]
mod parts;
#[cfg(test)]
mod schedules;
#[cfg(test)]
mod words;
