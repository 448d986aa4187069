//! What an object was: the bytes of a file or a symlink by its nodes up to a version, also where it
//! is deleted by now.
//!
//! It is built on `jscan` (the nodes of an image), `jexpand` (what the data of one node stand for)
//! and `jmount` (the file system of a list of nodes), by the definitions of `jview` and `jthrough`.
//! Its promise to the layers above: `put_revision` puts the bytes that a mount of these nodes
//! alone shows, or answers why there are none. It decompresses and holds these nodes alone.
//!
//! `specs/Revisions.antt` says which nodes these are and what they make, `specs/Answers.antt` what
//! a call puts and what refuses. `laws` has what follows.
#![tactic(auto)]

mod content;
mod fault;
pub mod laws;
mod mounting;
mod packed;
mod revision;
mod taking;

pub use crate::content::put_revision;
pub use crate::fault::RevisionFault;
pub use crate::revision::Revision;
