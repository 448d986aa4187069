//! Tests of the crate that writes a packed log, in the tail of an image and in its blank blocks, a
//! module for each.
#![tactic(auto)]

#[cfg(test)]
mod checks;
#[cfg(test)]
mod packed;
#[cfg(test)]
mod rows;
