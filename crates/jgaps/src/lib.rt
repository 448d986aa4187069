//! The bytes of files that no node of a mounted image has.
//!
//! It is built on `jscan` (the nodes of an image) and `jmount` (mounted images). Its promise to the
//! layers above: the gaps answered are the maximal ranges of bytes below the size of a regular file
//! that are in the range of no sound node, all of them.
//!
//! `specs/Fields.antt` says which range a node has, `specs/Gaps.antt` what a gap is. `laws` has what
//! follows.
#![tactic(auto)]

mod fields;
mod finding;
mod gap;
pub mod laws;
mod sorted;
mod sweep;

pub use crate::fields::{Stretch, field_at, stretch_at, stretch_of, stretch_sighted};
pub use crate::finding::{gaps_of, gaps_of_file};
pub use crate::gap::Gap;
