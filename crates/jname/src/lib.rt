//! The entries of directories by name: a map of all the entry nodes of an image.
//!
//! It is built on `flashbase` (parts of a block, words on lists) and on the entries of `jnode`. Its
//! promise to the layer above: the entries given are those of highest version whose inode number is
//! not 0, and a clash is refused exactly.
//!
//! `specs/Live.antt` says which names are live, and `specs/Clash.antt` which entries clash; the
//! other definitions are about how the map holds the entries, and no public contract cites them.
//! `laws` has what follows from the first two.
#![tactic(auto)]

mod apart;
mod directory;
mod fault;
mod few;
pub mod laws;
mod name_map;
mod names;
mod older;
mod sorted;
mod versions;
mod walk;

pub use crate::fault::NameFault;
pub use crate::names::Names;
pub use crate::walk::{All, Of};
