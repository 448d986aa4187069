//! An image looked at: its file system, without the contents that nobody asks for. A mount through
//! compression decompresses each node; a look decompresses those of some objects, and takes of the
//! others the fields alone. So it takes the time and the memory of what is shown, and an image whose
//! data are broken in one file still shows its tree and all other files.
//!
//! It is built on `jscan` (the extents of an image), `jexpand` (what the data of one node stand
//! for), `jmount` (the file system of a list of nodes) and the definitions of `jthrough`. What it
//! promises to the crate above: `mount_looked` answers the mount of the image as it is looked at, or
//! the fault of least address. If the image mounts through its compression, then it mounts so too,
//! with the same names, attributes and sizes, and the same bytes of each object that is wanted.
//! `mount_tree` wants the targets of symlinks, and so shows what `ls` prints; `mount_object` wants
//! the object that a path names, as `cat` does.
//!
//! `specs/Looked.antt` says what a node is looked at as, `specs/Looks.antt` what a mount answers, and
//! `specs/Laws.antt` what it has in common with a mount through, and `specs/Chosen.antt` what is
//! wanted by the tree that is shown.
#![tactic(auto)]

mod chosen;
mod copying;
mod guessing;
pub mod laws;
mod look;
mod looking;
mod mounting;
mod packed;
mod sighted;

pub use crate::chosen::{mount_object, mount_tree};
pub use crate::mounting::mount_looked;
