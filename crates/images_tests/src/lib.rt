//! Tests of the crates that build images, make them of others, or read compressed ones, a module
//! for each.
#![tactic(auto)]

#[cfg(test)]
mod build;
#[cfg(test)]
mod checks;
#[cfg(test)]
mod convert;
#[cfg(test)]
mod look;
#[cfg(test)]
mod row;
#[cfg(test)]
mod through;
