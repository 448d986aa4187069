//! Tests of the crates that look into an image, a module for each.
#![tactic(auto)]

#[cfg(test)]
mod checks;
#[cfg(test)]
mod cuts;
#[cfg(test)]
mod damage;
#[cfg(test)]
mod diff;
#[cfg(test)]
mod info;
#[cfg(test)]
mod report;
#[cfg(test)]
mod reserve;
#[cfg(test)]
mod spare;
