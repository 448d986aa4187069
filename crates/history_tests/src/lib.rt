//! Tests of the crates of the history of nodes, of the notes on options, and of dumps with spare
//! bytes, a module for each.
#![tactic(auto)]

#[cfg(test)]
mod checks;
#[cfg(test)]
mod hint;
#[cfg(test)]
mod history;
#[cfg(test)]
mod spare;
