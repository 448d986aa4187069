//! Tests of the session that goes on in openings: what mounts through after a cut, against a plain
//! file system.
//!
//! `grounds` are images with openings, and `placed` is what lies on the flash after bytes went out
//! to some of these. `cases` are operations and their steps, and `sessions` runs operations.
//! `found_tests` has which openings the grounds have. `cut_tests` mounts what a stop at each byte
//! leaves, `full_tests` lets operations not fit, `refusal_tests` begins no session, `sink_tests`
//! lets a sink fail at each call, and `growth` refuses memory.
#![tactic(auto)]

#[cfg(test)]
mod cases;
#[cfg(test)]
mod checks;
#[cfg(test)]
mod cut_tests;
#[cfg(test)]
mod found_tests;
#[cfg(test)]
mod full_tests;
#[cfg(test)]
mod grounds;
#[cfg(test)]
mod growth;
#[cfg(test)]
mod placed;
#[cfg(test)]
mod refusal_tests;
#[cfg(test)]
mod sessions;
#[cfg(test)]
mod sink_tests;
