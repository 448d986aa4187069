//! What an image shows through its compression, found out in one walk, and the file system that it
//! makes. No second image is made: a mount borrows the image, and the contents of its compressed
//! nodes, each of which is decompressed once.
//!
//! It is built on `jscan` (the extents of an image), `jexpand` (what the data of one node stand
//! for) and `jmount` (the file system of a list of nodes), by the definitions of `jview`. What it
//! promises to the crate above: `view_image` answers the tiles that give nodes and their contents,
//! with the image's findings, or those in front of the first tile that refuses it by itself, and
//! why; `mount_view` mounts such a view, and `mount_through` is both. The mount shows the state of
//! the image's expanded nodes; else the fault of least address is answered. `nodes_through` gives
//! these nodes with their addresses, if the image mounts through.
//!
//! `specs/View.antt` says what a view has, `specs/Refusals.antt` what refuses an image,
//! `specs/MountsThrough.antt` what a mount answers, and `specs/Addressed.antt` which nodes have
//! which addresses.
#![tactic(auto)]

mod addressing;
mod fault;
pub mod laws;
mod mounting;
mod view;
mod viewing;

pub use crate::addressing::nodes_through;
pub use crate::fault::ViewFault;
pub use crate::mounting::{mount_through, mount_view, nodes_of};
pub use crate::view::View;
pub use crate::viewing::{GREATEST_CONTENTS, view_image};
