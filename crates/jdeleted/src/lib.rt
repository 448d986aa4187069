//! The regular files of an image that no path leads to: as a flat file system, in which each of them
//! that has content is an entry of the root, under its number and the last name that it ever had.
//!
//! It is built on `jthrough` (the nodes of an image through its compression), `jcompact` (which
//! objects names lead to) and `jmount` (the file system of a list of nodes). Its promise to the
//! crate above: `mount_deleted` mounts the image's own inode nodes with such entries in place of its
//! own, or answers why the image does not mount through its compression.
//!
//! `specs/Deleted.antt` says which files these are and what they are called,
//! `specs/FlatMounts.antt` what a mount of them answers. `laws` has what follows.
#![tactic(auto)]

mod entries;
mod files;
mod finding;
pub mod laws;
mod mounting;
mod names;
mod naming;

pub use crate::files::DeletedFile;
pub use crate::mounting::mount_deleted;
