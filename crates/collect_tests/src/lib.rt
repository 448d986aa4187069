//! Tests of the crate that writes an image of the nodes that matter, a module for each.
#![tactic(auto)]

#[cfg(test)]
mod apart;
#[cfg(test)]
mod checks;
#[cfg(test)]
mod images;
#[cfg(test)]
mod packed;
#[cfg(test)]
mod packed_refused;
#[cfg(test)]
mod refused;
#[cfg(test)]
mod streams;
#[cfg(test)]
mod written;
