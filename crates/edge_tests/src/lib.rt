//! Tests of the edge, over a host in memory whose calls are known and fail where a test wants it.
#![tactic(auto)]

#[cfg(test)]
mod calls;
#[cfg(test)]
mod checks;
#[cfg(test)]
mod damage;
#[cfg(test)]
mod diff;
pub mod happened;
#[cfg(test)]
mod host;
#[cfg(test)]
mod info;
#[cfg(test)]
mod looks;
pub mod plan;
#[cfg(test)]
mod shown;
#[cfg(test)]
mod through;
