//! Tests of the crates of lines that are read, listings and command lines, a module for each.
#![tactic(auto)]

#[cfg(test)]
mod checks;
#[cfg(test)]
mod command;
#[cfg(test)]
mod listing;
