//! Tests of the crates of bytes, nodes and blocks, a module for each.
#![tactic(auto)]

#[cfg(test)]
mod checks;
#[cfg(test)]
mod compr;
#[cfg(test)]
mod flash;
#[cfg(test)]
mod node;
#[cfg(test)]
mod pack;
#[cfg(test)]
mod scan;
