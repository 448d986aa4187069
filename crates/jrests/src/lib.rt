//! A log that is written to the blank blocks of an image and to the rests of its begun ones, in the
//! order of their addresses.
//!
//! Flash that takes several programmings of a block, at word borders, may be written on behind the
//! last node of a block. The rest of a begun block is what is left of it: in front of it are the
//! tiles of nodes alone, none of them damaged, and all of it is erased. So what is written there
//! changes no tile in front of it. A block with a torn node, with dirt or with damage has no rest.
//!
//! It is built on `jrow` (what it is to have the nodes of a base and those of forms) and `jlog`
//! (places, what goes out, what a stop leaves), whose words it uses of each block as a flash of its
//! own. `openings_of` finds the blank blocks and the rests of an image, `rests_of` the rests alone:
//! eight bytes of memory for each that is found. No call writes to them yet.
//!
//! `laws` has what holds of rests and of a log in a row of openings, each law the contract of a
//! function that does nothing: after a cut at any byte the image mounts through as the file system
//! after the steps whose nodes are whole. `examples` has worked blocks and rows.
//!
//! `specs/Begun.antt` says what a rest is, `specs/Openings.antt` what a row of openings is,
//! `specs/Shares.antt` where nodes go in it, `specs/Left.antt` what a stop leaves, and
//! `specs/Survives.antt` what survives.
#![tactic(auto)]

pub mod examples;
pub mod laws;
mod opening;

pub use crate::opening::{Opening, openings_of, rests_of};
