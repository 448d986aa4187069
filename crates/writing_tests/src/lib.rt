//! Tests of the crate that writes a log.
#![tactic(auto)]

#[cfg(test)]
mod checks;
#[cfg(test)]
mod log;
