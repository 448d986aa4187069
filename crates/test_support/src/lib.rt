//! What the tests of several crates share: devices that fail or take little, nodes as raw bytes,
//! and small images.
//!
//! `devices` keeps the contracts of `flashbase::Source` and `Sink`, so what a test sees of a call
//! over one of them is what the call's own contract says of it. The bytes in `nodes` are known from
//! outside, and not from a writer of this repository.
#![tactic(auto)]

mod devices;
mod images;
mod nodes;

pub use crate::devices::{Counter, Giver, Long, Matcher, Taker};
pub use crate::images::{
    Attributes, DIRECTORY, FILE, Node, SYMLINK, Tree, entry, fill_up, image_of, image_of_nodes,
    object,
};
pub use crate::nodes::{
    ATTRIBUTE, BIG_ENTRY_A, BIG_MARKER, CUT_PLACES, ENTRY_A, FORBIDS, INCOMPATIBLE, INODE_2,
    LENGTH_13, LITTLE_MARKER, MADE, NO_LENGTH, READ_ONLY, are_made, is_erased,
};
