//! `--auto`: the byte order and the block size that a command takes of its image, and the spare
//! bytes that are left out of it.
//!
//! It is built on `jinfo` (what an image tells of itself) and `jedge` (acts on a host). A command
//! that is given `--auto` is run with what is taken, as if its words had been given: what is done
//! then is the command's own act.
//!
//! - `taking`: what is taken of what an image tells, `specs/Taking.antt`.
//! - `lines`: what standard error is told of it, `specs/TakingText.antt`.
//! - `looking`: the image is read, and its options are taken, `specs/Looking.antt`.
//! - `leaving`: the spare bytes that a dump shows are left out of it, `specs/Leaving.antt`.
//! - `laws`: what is true of it, `specs/AutoLaws.antt`.
#![tactic(auto)]

pub mod laws;
mod leaving;
mod lines;
mod looking;
mod taking;

pub use crate::leaving::leave_found;
pub use crate::looking::look;
pub use crate::taking::{Taking, taking_of};
