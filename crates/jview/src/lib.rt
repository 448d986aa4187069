//! What an image shows through its compression: each compressed node is the inode node of the same
//! fields with the bytes that its data stand for.
//!
//! It has no code, and is built on `jexpand` (what the data of one node stand for) and `jmount` (the
//! file system that nodes make). `specs/Through.antt` says when an image mounts so, and as which
//! file system: `jthrough` mounts it, and the laws of `jlog` say what a power cut leaves of it.
#![tactic(auto)]
