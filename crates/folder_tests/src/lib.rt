//! Tests of the crates that read and make folders of the host, a module for each.
#![tactic(auto)]

#[cfg(test)]
mod checks;
#[cfg(test)]
mod extract;
#[cfg(test)]
mod folder;
