//! Tests of `jrests` and `jopenings`: where the blank blocks of an image and its begun ones may be
//! written, and how an image is put with what was written there.
//!
//! `images` has how an image is written down. `found` has which openings are found, `growth` memory
//! that is refused, and `placed` what is put, beside a plain model of it.
#![tactic(auto)]

#[cfg(test)]
mod checks;
#[cfg(test)]
mod found;
#[cfg(test)]
mod growth;
#[cfg(test)]
mod images;
#[cfg(test)]
mod placed;
