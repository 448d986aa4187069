//! The file system that the nodes of an image make.
//!
//! It is built on `jscan` (the nodes of an image), `jfrag` (the bytes of a file) and `jname` (what
//! a name stands for). Its promise to the layers above: `mount` answers the state of the image's
//! nodes, or the fault of least address.
//!
//! `specs/Tree.antt` says what a file system is, `specs/StateOf.antt` which one nodes make,
//! `specs/Find.antt` what a path names, `specs/Clash.antt` which nodes contradict each other, and
//! `specs/Mounts.antt` what a mount answers. `laws` has what follows from them, many of them once
//! more as relations, and `examples` has worked examples.
#![tactic(auto)]

mod collecting;
mod device;
mod directories;
pub mod examples;
mod fault;
mod inodes;
pub mod laws;
mod mounted;
mod mounting;
mod object;
mod older;
mod path;
mod places;
mod read;
mod sameness;
mod shape;
mod shown;
mod sorting;
mod stored;
mod stored_tree;
mod storing;
mod versions;
mod walk;

pub use crate::fault::{FindFault, MountFault};
pub use crate::mounted::{Mounted, ROOT};
pub use crate::mounting::{mount, mount_nodes, mount_scanned, refuse_clashes};
pub use crate::object::{DeviceBytes, GREATEST_TARGET, Kind, Object};
pub use crate::path::{after_slash, is_name};
pub use crate::shown::{
    DIRECTORY_BITS, FIFO_BITS, REGULAR_BITS, SOCKET_BITS, is_device, kind_of, type_bits,
};
pub use crate::walk::Objects;
