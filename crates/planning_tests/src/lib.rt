//! Tests of the operations and their steps.
#![tactic(auto)]

#[cfg(test)]
mod checks;
#[cfg(test)]
mod steps;
