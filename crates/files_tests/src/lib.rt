//! Tests of the crates that make a file system of nodes, a module for each.
#![tactic(auto)]

#[cfg(test)]
mod checks;
#[cfg(test)]
mod clash;
#[cfg(test)]
mod compact;
#[cfg(test)]
mod frag;
#[cfg(test)]
mod mount;
#[cfg(test)]
mod name;
